//! Chains whose types are not opened one after the other. A chain is replaced by one in which each part has its values already,
//! and of which `Infer` asks the same at the same cost: what is opened there is closed, so it stays as it is.
#![tactic(auto)]

mod domains;
mod lets;
pub mod pace;
mod spines;

pub use domains::pis;
pub use lets::{long_lets, pushed_lets};
pub use spines::{long_spine, pushed_spine, steps_of};
