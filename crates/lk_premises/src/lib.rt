//! What the premises of a line in a written section state, read from left to right by the numbers of a store: exactly
//! what the definitions read. Equality of trees is a comparison of numbers. And what the constant at the head of a tree
//! means, and constants of names that rules speak of.
#![tactic(auto)]

mod applied;
mod claims;
mod ends;
mod heads;
mod locals;
mod meaning;
mod premises;
mod sorts;
mod spines;
mod words;

pub use applied::{are_applied, comes_to_applied, is_applied};
pub use claims::{Claim, Relation};
pub use ends::{are_equal, comes_to};
pub use heads::{Headed, head_meaning};
pub use locals::fresh_local;
pub use meaning::meaning_of;
pub use premises::{Read, Stated, ended, equal, next_stated, reduced, same_tree, typed};
pub use sorts::{PiRead, SortRead, proposition, sorted, to_pi};
pub use spines::arguments_over;
pub use words::{constant_of, dotted, nat_name, nat_successor, nat_zero, same_name};
