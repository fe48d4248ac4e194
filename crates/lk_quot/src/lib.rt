//! Quotient types: `Core` of `Quot.lift` and `Quot.ind` that are applied, step by step, and what a
//! unit has to meet that gives one of the four constants.
#![tactic(auto)]

pub mod core_form;
mod due;
pub mod entries;
mod equality;
mod names;
mod quotient;
pub mod quotients;
mod redex;
pub mod sheet;
mod types;
pub mod units;

pub use core_form::{QuotNext, begin, resume_term};
pub use entries::is_quotient;
pub use quotients::{Quotients, may_stand};
pub use units::check;
