//! What the head of a term means as a constructor that is applied: it is looked up once, and found again without a note, or
//! found without any note. And the levels of a term whose head is a type.
#![tactic(auto)]

mod constructor;
mod heads;
mod levels;

pub use constructor::{AppliedConstructor, constructor_at, look_constructor, look_head};
pub use heads::head_constructor;
pub use levels::levels_of_type;
