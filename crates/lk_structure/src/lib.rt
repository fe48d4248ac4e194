//! Types with exactly one constructor, which projections are from: how many parameters, indices and fields such a type has, and
//! whether the rest of a constructor's type mentions a field.
#![tactic(auto)]

pub mod occurs;
pub mod structure;
