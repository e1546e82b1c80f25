//! Tests above the libraries of graphs and routes: small graphs, paths in generated ones, the usable rows of small chips, and rounds from an
//! opening, by hand and beside those without.
#![tactic(auto)]

#[cfg(test)]
mod asked;
#[cfg(test)]
mod claims;
#[cfg(test)]
mod drawn_openings;
#[cfg(test)]
mod drawn_paths;
#[cfg(test)]
mod fabrics;
#[cfg(test)]
mod graphs;
#[cfg(test)]
mod opened;
#[cfg(test)]
mod openings;
#[cfg(test)]
mod paths;
#[cfg(test)]
mod prices;
#[cfg(test)]
mod routes;
#[cfg(test)]
mod trees;
#[cfg(test)]
mod usable;
