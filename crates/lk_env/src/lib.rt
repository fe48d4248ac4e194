//! What a library states: its units, and what a name means at a place.
#![tactic(auto)]

pub mod budget;
pub mod closed;
pub mod entry;
mod growing;
pub mod index;
pub mod laws;
pub mod lends;
pub mod lent;
pub mod library;
mod member;
pub mod only;
mod parameters;
pub mod position;
pub mod scan;
pub mod scope;
pub mod unit;
