//! Written derivations: what it is for a line and a section to hold, by one test a rule. There are
//! definitions alone; `lk_written_sound` has their laws.
#![tactic(auto)]
