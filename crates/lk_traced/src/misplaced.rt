//! Lines that may not stand where they stand. That comes behind any fault of their own.
ghost use Rattle.std.specs.Prelude.{◌≡◌, ℕ, IfOk, IfErr, None};
ghost use Rattle.lk_store.specs.Contents.{Contents, Extends};
ghost use Rattle.lk_lines.specs.FileNumbers.{narrow};
ghost use Rattle.lk_lines.specs.Views.{derivation_values};
ghost use Rattle.lk_units.specs.State.{State, all_known};
ghost use Rattle.lk_units.specs.Held.{IsKnown, Holds, Fails};
ghost use Rattle.lk_traced.specs.Derived.{line_said};
ghost use Rattle.lk_traced.specs.Placed.{misplaced as misplaced_said, local_counted};

use crate::derived::derived_line;
use crate::locals::local_line;
use lk_lines::{DerivationLine, Word};
use lk_store::terms::Terms;
use lk_units::{Assembler, Numbering, TakeError};
use std::alloc::Global;

/// The fault of a line that is misplaced: one of its own, or else that.
pub(crate) fn misplaced<X: Drop>(taken: Result<X, TakeError>) -> TakeError
    ensures ok { IfOk taken (λ x. result ≡ TakeError.Fault Word.TraceOrder) }
    ensures err { IfErr taken (λ e. result ≡ e) }
{
    match taken {
        Ok(_) => TakeError::Fault(Word::TraceOrder),
        Err(error) => error,
    }
}

/// The fault of a line of a Local before `#TR`.
pub(crate) fn misplaced_local<T: Terms>(
    assembler: &mut Assembler,
    store: &mut T,
    own: u32,
    number: u32,
    ty: u32,
) -> TakeError
    requires { IsKnown assembler.old (T.contents store.old) }
    ensures keeps { Extends (T.contents store.old) (T.contents store.new) }
    ensures rest { T.rest store.new ≡ T.rest store.old }
    ensures fails { (s : State) → Holds assembler.old (T.contents store.old) s → Fails result
        (misplaced_said {B = State} (local_counted s own number ty)) }
{
    match local_line(assembler, store, own, number, ty) {
        Ok(()) => misplaced(assembler.counts()),
        Err(error) => error,
    }
}

/// The fault of a line of a derivation before `#TR`, where no number is that of a premise.
pub(crate) fn misplaced_derivation(
    alloc: Global,
    assembler: &Assembler,
    line: &DerivationLine,
) -> TakeError
    ensures { (c : Contents) (s : State) → Holds assembler.now c s → Fails result
        (misplaced_said {B = State} (line_said s (λ j. None) (derivation_values narrow line.now))) }
{
    let none = Numbering::new(alloc);
    misplaced(derived_line(alloc, &assembler.by_tree, &none, line))
}

/// The fault of a line before `#TR` that would end a section.
pub(crate) fn misplaced_parts(premises: &[u32]) -> TakeError
    ensures { Fails result
        (misplaced_said {B = State} (all_known {X = ℕ} (λ j. None) premises.now)) }
{
    if premises.is_empty() {
        TakeError::Fault(Word::TraceOrder)
    } else {
        TakeError::Fault(Word::IndexUnknown)
    }
}
