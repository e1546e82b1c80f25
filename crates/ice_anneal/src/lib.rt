//! Better placements, by a descent of exchanges from tiles that are wanted or from a placement that is there.
#![tactic(auto)]

mod free;
mod full;
mod improving;
mod linked;
mod once;
mod order;
mod placing;
mod seating;
mod table;

pub use placing::{improve, improve_from, nets_in};
