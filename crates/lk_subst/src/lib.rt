//! Opening, closing and putting, over any store: instances of one walk that takes a stack of its
//! own. Locals of runs of numbers are closed all at once. Small levels and short lists of them are put without a walk.
#![tactic(auto)]

mod by_parts;
pub mod closing;
mod layers;
pub mod levels;
pub mod opening;
pub mod parameters;
pub mod parts;
pub mod putting;
pub mod runs;
mod small;
pub mod walk;
