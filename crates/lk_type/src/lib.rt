//! The types of terms: what `Infer` asks, step by step, as the table says it.
#![tactic(auto)]

pub mod application;
pub mod binders;
mod binding;
pub mod constant;
pub mod infer;
mod lambdas;
mod lets;
mod literals;
pub mod marking;
pub mod opening;
pub mod sheet;
pub mod sorts;
mod telescope;
