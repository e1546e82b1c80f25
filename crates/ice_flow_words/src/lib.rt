//! The command line: the words after the program's name, read as a request.
#![tactic(auto)]

mod command;
mod fault;
mod found;
mod laws;
mod matching;
mod request;

pub use fault::WordsFault;
pub use laws::{asks_where_taken, worked_examples};
pub use matching::{read_request, usage_for};
pub use request::{
    BackRequest, BuildRequest, PlayBitsRequest, PlayNetRequest, Request, SampleRequest, TimeRequest,
};
