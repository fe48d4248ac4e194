//! Which steps hold. Nothing runs: each function is a law.

ghost use Rattle.lk_rulebook.specs.Place.{Place};
ghost use Rattle.lk_step.specs.Typing.{TypingSteps};
ghost use Rattle.lk_step.specs.Reducing.{ReductionSteps};
ghost use Rattle.lk_step.specs.Equal.{EqualitySteps};
ghost use Rattle.lk_step.specs.MajorSteps.{MajorSteps};

/// A step of typing of each rule holds, whatever is stated, where what it rests on is.
pub fn typing_steps_hold()
    ensures { (w : Place) → TypingSteps w }
{}

/// So does one of each rule of reduction that unfolds a constant, opens a lambda or a let, reduces a
/// head or a major premise, looks at a constructor, or is put together of two.
pub fn reduction_steps_hold()
    ensures { (w : Place) → ReductionSteps w }
{}

/// For each rule of conversion: a step by it holds, where its premises are those that its line
/// reads, in their order, its trees are closed and well scoped, and what the rule asks beside its
/// premises is there.
pub fn conversion_steps_hold()
    ensures { (w : Place) → EqualitySteps w }
{}

/// So it is for the rules of reduction by what a major premise is: K, eta of a structure, and the
/// eliminators of quotients; and for operations on numbers, where a numeral is said to reduce to
/// itself alone. Whether the operations have their laws is not asked.
pub fn major_steps_hold()
    ensures { (w : Place) → MajorSteps w }
{}
