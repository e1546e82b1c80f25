//! Tests of rounds of routing by workers: against a plain program on one thread, over generated graphs; two rounds by hand on the words that
//! workers share, and as the core's events; and of those words, the words of histories, and the table of an opening.
#![tactic(auto)]

#[cfg(test)]
mod blocks;
#[cfg(test)]
mod by_hand;
#[cfg(test)]
mod claims;
#[cfg(test)]
mod drawn_nets;
#[cfg(test)]
mod drawn_rounds;
#[cfg(test)]
mod events;
#[cfg(test)]
mod plain_logs;
#[cfg(test)]
mod plain_rounds;
#[cfg(test)]
mod takes;
#[cfg(test)]
mod tasks;
#[cfg(test)]
mod words;
