//! What is written of a library: the lines of its units by their verdicts, with names as they are,
//! and the line that counts them; the same by what comes of the sections of a file with derivations;
//! the text of a session, submission by submission; and the line of a file's fault. Each call gives
//! the exact bytes. Before that, verdicts are put under a policy on axioms. Also which unit a
//! printed name is of.
#![tactic(auto)]

mod counts;
mod laws;
mod named;
mod names;
mod outcomes;
mod policy;
mod submissions;
mod texts;
mod under;
mod units;
mod verdicts;

pub use counts::{VerdictKind, add_checked, count, summary};
pub use laws::{allowed_axioms_are_listed, joined_texts_are_split_again, policies_only_refuse};
pub use named::{unit_named, unknown_line};
pub use outcomes::{OutcomeKind, count_outcomes, replay_report};
pub use policy::Policy;
pub use submissions::{Submission, session_report};
pub use texts::{fault_line, report};
pub use under::apply;
