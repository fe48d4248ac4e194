//! A written section by the numbers of a store: its lines, the rule of each, and its premises; a file of such sections, and
//! what comes of each. `specs/Meaning.antt` says which section of the definitions one stands for, `specs/Files.antt` which
//! file.
#![tactic(auto)]

mod outcome;
mod rules;
mod sections;
mod traced;

pub use outcome::Outcome;
pub use rules::{ConversionRule, ReductionRule, Rule, TypingRule};
pub use sections::{Line, Section};
pub use traced::{FileSection, Traced};
