//! What the answers of `Core` rest on at constants of quotients: `Quot.lift` and `Quot.ind` on elements.
#![tactic(auto)]

mod behind;
mod eliminators;
mod ends;
mod majors;
mod rows;

pub use rows::quotient_row;
