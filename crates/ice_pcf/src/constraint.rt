//! A constraint: the pin that a port is to have, and the options of its line.
use ice_base::Name;

/// The line `set_io OPTIONS NAME PIN`: the port of this name goes to this pin.
#[derive(Debug, Drop)]
pub struct Constraint {
    /// The number of its line, from 1; every line beyond number 4,294,967,295 has that number too.
    pub line: u32,
    /// The name of the port.
    pub name: Name,
    /// The name of the pin, as the package calls it.
    pub pin: Name,
    /// Whether the port may be missing: `--warn-no-port` or `-nowarn` stands among the options.
    pub lenient: bool,
    /// What the last `-pullup` among the options says, where there is one.
    pub pullup: Option<bool>,
}

/// What the options of a line say.
#[derive(Clone, Copy)]
pub struct Options {
    /// Whether the port may be missing.
    pub lenient: bool,
    /// What the last pull-up says, where there is one.
    pub pullup: Option<bool>,
}
