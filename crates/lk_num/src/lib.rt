//! Natural numbers as the export format writes them. `Nat` is a number of at most 128 bits, or the
//! one word that stands for all larger ones; `read_nat` reads decimal digits.
#![tactic(auto)]

mod numeral;

pub use numeral::{Nat, read_nat};
