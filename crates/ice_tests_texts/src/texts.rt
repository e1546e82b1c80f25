//! Named texts.

/// A text with its name.
#[derive(Drop)]
pub struct Text<'a> {
    /// The name.
    pub name: &'a [u8],
    /// The text.
    pub bytes: Vec<u8>,
}

/// The last text of a name, where one has it.
pub fn find<'a>(texts: &'a [Text<'_>], name: &[u8]) -> Option<&'a [u8]> {
    let mut found = None;
    for text in texts {
        if text.name == name {
            found = Some(text.bytes.as_slice());
        }
    }
    found
}

/// The last text of a name, or no bytes.
pub fn text_of<'a>(texts: &'a [Text<'_>], name: &[u8]) -> &'a [u8] {
    match find(texts, name) {
        Some(bytes) => bytes,
        None => &[],
    }
}
