//! Literals: the shapes that the built-in types need to have, the literal step, numbers and texts as constructors, and the
//! lines of `Same` about them.
#![tactic(auto)]

pub mod answer;
mod builtin;
mod characters;
mod constant;
mod expansion;
mod given;
pub mod literals;
mod numeral;
mod op;
mod read;
mod shapes;
pub mod sheet;
pub mod step;
pub mod texts;
mod types;
mod value;

pub use expansion::expansion_of;
pub use read::{literal_to_ctor, text_to_ctor};
pub use shapes::{nat_shape, string_shape};
pub use types::{nat, string};
