//! A library that changes. `splice` makes the list of units that a part of changes leads to;
//! `stale_units` finds the units whose closure holds a unit that changed, all by one search over
//! each of both lists; and `Recheck` keeps the verdicts of the others from one list to the next.
#![tactic(auto)]

mod building;
mod changed;
mod counts;
mod hitting;
mod recheck;
mod same;
mod slots;
mod sources;
mod splicing;
mod stale;
mod touched;

pub use building::{StoreLinks, store_links};
pub use changed::changed_units;
pub use recheck::Recheck;
pub use splicing::splice;
pub use stale::stale_units;
pub use touched::touched_units;
