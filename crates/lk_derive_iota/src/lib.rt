//! What `Core` of a recursor that is applied rests on: questions that are asked for it, and steps over what their answers
//! claim.
#![tactic(auto)]

mod asking;
mod candidates;
mod ctors;
mod expanding;
mod majors;
mod premises;
mod recursors;
mod redexes;
mod rules;
mod steps;
mod structures;
mod taking;

pub use recursors::recursor_row;
