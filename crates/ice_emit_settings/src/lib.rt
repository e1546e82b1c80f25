//! Lists of settings of functions: those of a cell with a table, of the pads of ports, of inputs that nothing reads, of the column
//! buffers that rows take, and of block RAMs.
#![tactic(auto)]

mod buffers;
mod cells;
mod enables;
mod globals;
mod making;
mod ports;
mod rams;

pub use buffers::push_buffers;
pub use cells::push_cell;
pub use enables::push_enables;
pub use making::push_if;
pub use ports::push_ports;
pub use rams::push_rams;
