//! What a unit uses, and the closure of a unit: the set of units on which its verdict rests. There
//! are definitions alone.
#![tactic(auto)]
