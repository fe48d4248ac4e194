//! `Core` of a recursor that is applied, which is iota reduction: what is asked, step by step, as
//! the table says it.
#![tactic(auto)]

mod candidate;
pub mod iota;
mod major;
mod only;
mod resume;
mod rule;
pub mod sheet;
mod start;
mod structure;
mod subject;

pub use iota::{IotaNext, begin, resume_term, resume_truth};
