//! What loops over names, trees and members under numbers share: names compared, numbers of Locals, and lemmas about what is
//! left of a list and about members of a block in a store that has grown.
#![tactic(auto)]

pub mod names;
pub mod numbers;
