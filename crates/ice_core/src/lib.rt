//! The core of negotiated congestion: what a wire costs a net in a round, which nets move after it, and
//! how the history of congestion rises; and what the workers of a round do to the counts of wires, event by event.
#![tactic(auto)]

mod copies;
mod event;
mod history;
pub mod laws;
mod limits;
mod log;
mod machine;
mod net;
mod prices;
mod progress;
mod round_prices;
mod rounds;
mod task;

pub use copies::{old_routes, tree_routes};
pub use event::Event;
pub use history::raise;
pub use limits::{
    MOST_COUNT, MOST_FACTOR, MOST_HISTORY, MOST_NETS, MOST_OTHERS, MOST_PRICE, MOST_STEPS,
    MOST_WIRES,
};
pub use log::RoundLog;
pub use machine::Core;
pub use net::Net;
pub use prices::Prices;
pub use round_prices::RoundPrices;
pub use rounds::{holders, movers};
pub use task::Task;
