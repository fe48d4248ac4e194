//! The weak head forms of terms: what `Core` and `Whnf` ask, step by step, as the table says it.
#![tactic(auto)]

pub mod beta;
pub mod core_form;
pub mod sheet;
pub mod whnf;
