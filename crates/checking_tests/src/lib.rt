//! Tests of what no contract says of the crates between the stores and the program: how levels compare and operations compute,
//! in tables of cases, and that answers are found again, by a memo, by another engine and over the terms of an earlier unit.
//! They stand in a crate of their own, so that none of those crates is proved a second time for them.
#![tactic(auto)]

#[cfg(test)]
mod level_order;
#[cfg(test)]
mod memo;
#[cfg(test)]
mod operations;
#[cfg(test)]
mod sharing;
#[cfg(test)]
mod staying;
