//! What lines behind `#TR` add.
ghost use Rattle.std.specs.Prelude.{◌≡◌, length, IfOk, OnOk};
ghost use Rattle.lk_store.specs.Contents.{Contents, Extends};
ghost use Rattle.lk_members.specs.Stored.{IsStoredMemberIn};
ghost use Rattle.lk_members.specs.Plain.{said_at};
ghost use Rattle.lk_lines.specs.FileNumbers.{wide};
ghost use Rattle.lk_lines.specs.Views.{entry_tag, entry_values, declaration_tag, declaration_values, says_of};
ghost use Rattle.lk_units.specs.State.{State, entry_added, declaration_said};
ghost use Rattle.lk_units.specs.Held.{Below, IsKnown, Holds, Makes, Fails, Follows};
ghost use Rattle.lk_traced.specs.Begun.{HoldsSections, AreSectionsKnown};
ghost use Rattle.lk_traced.specs.Placed.{Behind, entry_behind, declared_behind};
ghost use Rattle.lk_traced.specs.Standing.{stands_behind, said_alike, said_behind, FollowsBoth};

use crate::locals::local_line;
use crate::misplaced::misplaced;
use crate::sections::Sections;
use lk_lines::{DeclarationLine, EntryLine, Statement, Word};
use lk_members::line::StoredMember;
use lk_store::terms::Terms;
use lk_units::{Assembler, TakeError, ValueUse};
use std::alloc::Global;

/// Whether a line of this kind may stand behind `#TR`.
fn stands_behind(line: &EntryLine<'_, u64>) -> bool
    ensures { result ≡ stands_behind (entry_tag line.now) }
{
    match line {
        EntryLine::NameText { .. } => false,
        EntryLine::NameNumber { .. } => false,
        EntryLine::Rule { .. } => false,
        _ => true,
    }
}

/// A line that defines a number. What is no level and no expression is misplaced, once it has no fault of its own.
fn entry_line<T: Terms>(
    alloc: Global,
    store: &mut T,
    assembler: &mut Assembler,
    own: u64,
    line: EntryLine<'_, u64>,
) -> Result<(), TakeError>
    requires { IsKnown assembler.old (T.contents store.old) }
    ensures keeps { Extends (T.contents store.old) (T.contents store.new) }
    ensures rest { T.rest store.new ≡ T.rest store.old }
    ensures known { OnOk result (IsKnown assembler.new (T.contents store.new)) }
    ensures follows { (s : State) → Holds assembler.old (T.contents store.old) s
        → Follows assembler.new (T.contents store.new) result (entry_behind (entry_tag line.entry)
        (entry_added s own (entry_tag line.entry) (entry_values wide line.entry))) }
{
    let stands = stands_behind(&line);
    match assembler.add_entry(alloc, store, own, line) {
        Ok(()) => {
            if stands {
                Ok(())
            } else {
                Err(TakeError::Fault(Word::TraceOrder))
            }
        }
        Err(error) => Err(error),
    }
}

/// What a line declares; a definition as if it were opaque.
#[tactic(auto, unfolding(lk_units::specs::State::declaration_said))]
fn stated(
    alloc: Global,
    assembler: &Assembler,
    declaration: &DeclarationLine<u64>,
) -> Result<StoredMember, TakeError>
    requires { Below assembler.now.by_rule (length assembler.now.rules.items) }
    ensures known { (c : Contents) → IsKnown assembler.now c → IfOk result (IsStoredMemberIn c) }
    ensures made { (c : Contents) (s : State) → Holds assembler.now c s
        → Makes (said_at c) result (said_alike s wide declaration.now) }
{
    match declaration {
        DeclarationLine::Definition {
            name,
            declared_type,
            value,
            parameters,
            ..
        } => assembler.valued(
            alloc,
            ValueUse::Opaque,
            *name,
            *declared_type,
            *value,
            parameters,
        ),
        DeclarationLine::Theorem {
            name,
            declared_type,
            value,
            parameters,
        } => assembler.valued(
            alloc,
            ValueUse::Theorem,
            *name,
            *declared_type,
            *value,
            parameters,
        ),
        DeclarationLine::Opaque {
            name,
            declared_type,
            value,
            parameters,
        } => assembler.valued(
            alloc,
            ValueUse::Opaque,
            *name,
            *declared_type,
            *value,
            parameters,
        ),
        DeclarationLine::Axiom {
            name,
            declared_type,
            parameters,
        } => assembler.axiom(alloc, *name, *declared_type, parameters),
        DeclarationLine::Quotient {
            name,
            declared_type,
            parameters,
        } => assembler.quotient(alloc, *name, *declared_type, parameters),
        DeclarationLine::Inductive(line) => assembler.inductive(alloc, line),
        DeclarationLine::Constructor(line) => assembler.constructor(alloc, line),
        DeclarationLine::Recursor(line) => assembler.recursor(alloc, line),
    }
}

/// The fault of a line that declares something: one of its own, or else that it stands behind `#TR`.
fn refused<T: Terms>(
    alloc: Global,
    store: &T,
    assembler: &mut Assembler,
    number: u64,
    declaration: &DeclarationLine<u64>,
) -> TakeError
    requires { IsKnown assembler.old (T.contents store.now) }
    ensures { (s : State) → Holds assembler.old (T.contents store.now) s → Fails result
        (declared_behind s (declaration_said s (declaration_tag declaration.now)
        (declaration_values wide declaration.now))) }
{
    match stated(alloc, assembler, declaration) {
        Ok(said) => misplaced(assembler.place(alloc, store, number, said)),
        Err(error) => error,
    }
}

/// Takes what line `number` says, which stands behind `#TR`.
#[tactic(auto, using(lk_units::proofs::Holding::unchanged), unfolding(lk_units::specs::State::take_item))]
pub(crate) fn take_behind<T: Terms>(
    alloc: Global,
    store: &mut T,
    assembler: &mut Assembler,
    sections: &mut Sections,
    number: u64,
    statement: Statement<'_, u64>,
) -> Result<(), TakeError>
    requires known { IsKnown assembler.old (T.contents store.old) }
    requires sections { AreSectionsKnown sections.old (T.contents store.old) }
    ensures keeps { Extends (T.contents store.old) (T.contents store.new) }
    ensures rest { T.rest store.new ≡ T.rest store.old }
    ensures known { OnOk result (IsKnown assembler.new (T.contents store.new)) }
    ensures sections { OnOk result (AreSectionsKnown sections.new (T.contents store.new)) }
    ensures follows { (s : State) (b : Behind) → Holds assembler.old (T.contents store.old) s
        → HoldsSections sections.old (T.contents store.old) b
        → FollowsBoth assembler.new sections.new (T.contents store.new) result
        (said_behind number s b (says_of wide statement.entry)) }
{
    match statement {
        Statement::Blank => Ok(()),
        Statement::Version => Ok(()),
        Statement::Entry { own, entry } => entry_line(alloc, store, assembler, own, entry),
        Statement::Declaration(declaration) => {
            Err(refused(alloc, store, assembler, number, &declaration))
        }
        Statement::Budget { name, steps } => Err(misplaced(assembler.take_budget(name, steps))),
        Statement::Go => Err(TakeError::Fault(Word::UnknownTag)),
        Statement::Trace => Err(TakeError::Fault(Word::TraceOrder)),
        Statement::Local {
            own,
            number,
            declared_type,
        } => local_line(assembler, store, own, number, declared_type),
        Statement::Section { unit } => sections.begin(alloc, number, unit),
        Statement::Derivation { own, line } => {
            sections.derivation(alloc, &assembler.by_tree, number, own, &line)
        }
        Statement::Parts { premises } => sections.end(alloc, number, &premises),
    }
}
