//! A memo of the last answers, with what they cost, which one worker has for itself.
#![tactic(auto)]

pub mod key;
pub mod lasting;
pub mod memo;
pub mod recent;

pub use memo::PrivateMemo;
