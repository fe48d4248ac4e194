//! An engine behind a handle of one field. It has what `Derives` and the traits above it ask for,
//! each from the engine's own calls, and is small to hand to a generic function.
#![tactic(auto)]

mod handle;
mod looks;
mod surroundings;
mod terms;

pub use handle::EngineHandle;
