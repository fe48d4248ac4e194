//! Steps of a written derivation, by the numbers of a store: lines before they have numbers, what an answer of the
//! question table rests on, and that the steps of each rule hold.
#![tactic(auto)]

mod answers;
pub mod calls;
pub mod derives;
pub mod heads;
mod laws;
pub mod making;
pub mod operations;
pub mod pairs;
mod step;
pub mod under_way;

pub use answers::{answers_are_shaped, answers_come_of_rows};
pub use calls::EngineCalls;
pub use derives::Derives;
pub use laws::{conversion_steps_hold, major_steps_hold, reduction_steps_hold, typing_steps_hold};
pub use step::{Row, Step};
