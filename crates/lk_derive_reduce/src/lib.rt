//! What the answers of `Core` and `Whnf` rest on: questions that are asked for them, and steps over what their answers claim.
#![tactic(auto)]

mod bindings;
mod forms;
mod heads;
mod major_heads;
mod projections;
mod rows;
mod values;

pub use major_heads::{MajorHead, major_head};
pub use rows::{core_row, form_row};
