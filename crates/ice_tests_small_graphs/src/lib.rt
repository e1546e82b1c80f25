//! Graphs, sinks, nets and prices for the crates of tests, from texts of numbers and drawn ones; and a plain search in such graphs.
#![tactic(auto)]

mod built;
mod drawn;
mod plain_search;

pub use built::{
    TWO_WAYS, add_net, add_sink, add_wire, graph_of, nets_of, placed_graph, prices_at, sink_of,
    sinks_of, wires_of,
};
pub use drawn::{draw, drawn_graph, number_of};
pub use plain_search::{Way, mark, marks_of, plain_price, plain_way};
