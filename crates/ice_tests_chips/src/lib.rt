//! Tests above the libraries of chips and their bits, of what no text of a case shows: what is found in a chip, texts of bits, circuits, faults
//! with both their lines, and the sample texts; and of desks, and of chip texts and files that are read piece by piece, that the readers
//! succeed where there is memory, and that files hold what was put.
#![tactic(auto)]

#[cfg(test)]
mod answers;
#[cfg(test)]
mod asked;
#[cfg(test)]
mod bit_texts;
#[cfg(test)]
mod chips;
#[cfg(test)]
mod circuits;
#[cfg(test)]
mod claims;
#[cfg(test)]
mod desks;
#[cfg(test)]
mod files;
#[cfg(test)]
mod found;
#[cfg(test)]
mod kept;
#[cfg(test)]
mod parts;
#[cfg(test)]
mod sample_chips;
#[cfg(test)]
mod sample_nets;
