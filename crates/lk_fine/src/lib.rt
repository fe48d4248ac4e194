//! Whether a tree is closed and well scoped: each variable is bound, no literal is wide, and each Local carries a closed
//! type in which only Locals of lower numbers stand. What was found of trees is kept, so that each is walked once.
#![tactic(auto)]

mod fine;
mod locals;

pub use fine::is_fine;
