//! What is added to a netlist, names and cells behind those that it has: the definitions, and lemmas for loops that add one after another.
#![tactic(auto)]
