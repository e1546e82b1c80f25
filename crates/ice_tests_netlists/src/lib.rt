//! Tests above the libraries of netlists, their texts, pads and placements, of what no text of a case shows: each public call of the readers
//! and of what they make once, orders of values, and where cells come to stand.
#![tactic(auto)]

#[cfg(test)]
mod asked;
#[cfg(test)]
mod claims;
#[cfg(test)]
mod netlist_texts;
#[cfg(test)]
mod netlists;
#[cfg(test)]
mod orders;
#[cfg(test)]
mod other_texts;
#[cfg(test)]
mod pins;
#[cfg(test)]
mod places;
#[cfg(test)]
mod ranks;
#[cfg(test)]
mod runs;
#[cfg(test)]
mod said;
#[cfg(test)]
mod seeds;
#[cfg(test)]
mod texts;
#[cfg(test)]
mod words;
