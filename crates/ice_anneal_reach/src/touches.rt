//! Lists of nets.

/// A net, and how many of its nodes a cell or a cluster has.
#[derive(Clone, Copy)]
pub struct Touch {
    /// The number of the net.
    pub net: u32,
    /// How many nodes, up to 255.
    pub nodes: u8,
}

/// From one number in a list up to another.
#[derive(Clone, Copy)]
pub struct Span {
    /// The first number.
    pub first: usize,
    /// The number behind the last one.
    pub end: usize,
}

/// Lists of nets, one behind the other, each net once in a list.
#[derive(Drop)]
pub struct TouchLists {
    /// The nets of all lists.
    pub touches: Vec<Touch>,
    /// Where each list stands among them.
    pub spans: Vec<Span>,
}

impl TouchLists {
    /// The nets of a list.
    pub fn of(&self, list: usize) -> &[Touch] {
        match self.spans.get(list) {
            Some(span) => self.touches.get(span.first..span.end).unwrap_or(&[]),
            None => &[],
        }
    }
}
