//! Tables of look-up tables: what a table gives, and tables made from one another. What a table means is defined in
//! `ice_net`.
#![tactic(auto)]

mod table;

pub use table::{
    bits_of, complement, entry_place, passing, permuted, rewired, value, with_constant,
};
