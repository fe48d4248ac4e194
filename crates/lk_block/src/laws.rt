//! What is so of the definitions.

ghost use Rattle.lk_block.specs.Agreeing.{GoesByStages};

/// The plain outcome of a block, and what its stages come to one after another, are both an answer, both the same refusal, or
/// both that the budget is used up.
pub fn check_goes_by_stages()
    ensures { GoesByStages }
{}
