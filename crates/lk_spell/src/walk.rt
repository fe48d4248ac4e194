//! The walk that spells a term.

ghost use Rattle.std.specs.Prelude.{◌≡◌, ◌<◌, ◌≤◌, length, IfOk, IfErr, OnOk};
ghost use Rattle.lk_store.specs.Contents.{Contents, Extends, tree_at};
ghost use Rattle.lk_store.specs.Store.{contents_of};
ghost use Rattle.lk_store.specs.Layers.{layers_contents};
ghost use Rattle.lk_spell.specs.Numbers.{IsDone};
ghost use Rattle.lk_spell.specs.Parts.{IsPartIn};
ghost use Rattle.lk_spell.specs.Spelled.{IsSpelled, spelled_tree};
ghost use Rattle.lk_spell.specs.Spelling.{IsSpeller};
ghost use Rattle.lk_spell.specs.Wide.{IfTooWide, IsCounting, IsWide};
ghost use Rattle.lk_spell.specs.declared.part.Part.TheVariants as part;

use crate::open::{Visit, push};
use crate::part::Part;
use crate::spelled::{SpellError, Spelled};
use crate::speller::{Speller, enter};
use lk_store::overlay::Overlay;
use std::alloc::Global;

/// Spells a part and its own parts: each before what is made of it, from the left to the right.
fn walk(alloc: Global, terms: &Overlay, speller: &mut Speller, root: Part) -> Result<(), SpellError>
    requires few { speller.old.counted ≤ 4096 }
    requires known { IsPartIn (layers_contents terms.now) root }
    ensures done { OnOk result (IsDone speller.new.numbers root) }
    ensures wide { (b : Contents) → IsCounting b (layers_contents terms.now) root speller.old
        → IfErr result (λ e. IfTooWide e (IsWide b (layers_contents terms.now) root)) }
    ensures spells { (b : Contents) → IsSpeller b (layers_contents terms.now) speller.old
        → OnOk result (IsSpeller b (layers_contents terms.now) speller.new) }
{
    let mut stack: Vec<Visit> = Vec::new(alloc);
    push(&mut stack, Visit::Enter(root))?;
    'walk: while let Some(visit) = stack.pop() {
        match visit {
            Visit::Enter(part) => enter(terms, &speller.numbers, &mut stack, part)?,
            Visit::Leave(opened) => speller.leave(alloc, terms, opened)?,
        }
    }
    Ok(())
}

/// The term, spelled over the library's store. A term of the library is its number, without a walk.
/// `TooWide` comes only where the library lacks 4,097 terms and levels or more that the term is made of.
pub fn spell(alloc: Global, terms: &Overlay, e: u64) -> Result<Spelled, SpellError>
    requires known { e < length (layers_contents terms.now).trees }
    requires over { Extends (contents_of terms.now.base) (layers_contents terms.now) }
    ensures spelled { IfOk result (IsSpelled (contents_of terms.now.base)) }
    ensures tree { IfOk result (λ s. spelled_tree (contents_of terms.now.base) s
        ≡ tree_at (layers_contents terms.now) e) }
    ensures wide { IfErr result (λ r. IfTooWide r (IsWide (contents_of terms.now.base)
        (layers_contents terms.now) (part.Term e))) }
{
    let sizes = terms.base_sizes();
    if e < sizes.terms {
        return Ok(Spelled {
            own: Vec::new(alloc),
            root: e,
        });
    }
    let mut speller = Speller::new(alloc, sizes);
    walk(alloc, terms, &mut speller, Part::Term(e))?;
    Ok(speller.finish(Part::Term(e)))
}
