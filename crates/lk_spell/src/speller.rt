//! What was spelled so far.

ghost use Rattle.std.specs.Prelude.{◌≡◌, ◌+◌, ◌≤◌, OnOk, IfOk, IfErr, None, true, [], ◌∷◌, ◌++◌, if◌then◌else◌};
ghost use Rattle.std.specs.HashMap.{get};
ghost use Rattle.lk_store.specs.Contents.{Contents};
ghost use Rattle.lk_store.specs.Layers.{layers_contents};
ghost use Rattle.lk_spell.specs.Moved.{AreDone, moved};
ghost use Rattle.lk_spell.specs.Numbers.{part_eq, IsDone, number_or};
ghost use Rattle.lk_spell.specs.Opened.{part_of, parts_back, IsOpenedIn};
ghost use Rattle.lk_spell.specs.Parts.{IsPartIn};
ghost use Rattle.lk_spell.specs.Spelled.{is_counted};
ghost use Rattle.lk_spell.specs.Spelling.{IsSpeller, Spells};
ghost use Rattle.lk_spell.specs.Standing.{own_parts, own_node};
ghost use Rattle.lk_spell.specs.Waiting.{IsEntered};
ghost use Rattle.lk_spell.specs.Wide.{IfTooWide, IsCounted, IsOneMore};

use crate::moved::moved;
use crate::numbers::Numbers;
use crate::open::{Opened, Visit, open, push, push_parts};
use crate::part::Part;
use crate::sizes::number_next;
use crate::spelled::{OwnNode, SpellError, Spelled};
use lk_store::memory::NoMemory;
use lk_store::overlay::Overlay;
use lk_store::sizes::Sizes;
use lk_store::terms::Terms;
use lk_store::text::Text;
use std::alloc::Global;

/// The most terms and levels that are spelled.
const MOST: u64 = 4096;

/// The own nodes so far, and by which numbers the parts that they spell are known there.
#[derive(Drop)]
pub(crate) struct Speller {
    pub(crate) numbers: Numbers,
    own: Vec<OwnNode>,
    sizes: Sizes,
    /// How many of them are terms and levels.
    counted: u64,
}

/// Whether a node is counted: one of a term or a level.
fn is_counted(node: &OwnNode) -> bool
    ensures { result ≡ is_counted node.now }
{
    matches!(node, OwnNode::Level(_) | OwnNode::Term(_))
}

/// The node of an opened part.
fn own_node(alloc: Global, terms: &Overlay, opened: Opened) -> Result<OwnNode, NoMemory>
    requires { IsOpenedIn (layers_contents terms.now) opened }
    ensures { IfOk result (λ x.
        x ≡ own_node (layers_contents terms.now) opened) }
{
    match opened {
        Opened::Name(_, node) => Ok(OwnNode::Name(node)),
        Opened::Text(s) => Ok(OwnNode::Text(copied(alloc, terms.text(s))?)),
        Opened::Level(_, node) => Ok(OwnNode::Level(node)),
        Opened::List(_, node) => Ok(OwnNode::List(node)),
        Opened::Term(_, node) => Ok(OwnNode::Term(node)),
    }
}

/// A text of its own with the same bytes.
pub(crate) fn copied(alloc: Global, text: &Text) -> Result<Text, NoMemory>
    ensures { IfOk result (λ t. t ≡ text.now) }
{
    let mut bytes = Vec::new(alloc);
    bytes.extend_from_slice(text.as_bytes())?;
    Ok(Text::new(bytes))
}

/// Puts a part that is to be entered, where it has no number yet, on the stack again, with its own
/// parts above it.
pub(crate) fn enter(
    terms: &Overlay,
    numbers: &Numbers,
    stack: &mut Vec<Visit>,
    part: Part,
) -> Result<(), NoMemory>
    requires { IsPartIn (layers_contents terms.now) part }
    ensures { OnOk result (IsEntered (layers_contents terms.now) numbers.now part
        stack.old.items stack.new.items) }
{
    if numbers.find(part).is_some() {
        return Ok(());
    }
    let opened = open(terms, part);
    push(stack, Visit::Leave(opened))?;
    push_parts(stack, opened)
}

impl Speller {
    /// Nothing is spelled yet.
    pub(crate) fn new(alloc: Global, base: Sizes) -> Speller
        ensures base { result.numbers.base ≡ base }
        ensures none { (p : Part) → get part_eq result.numbers.own p ≡ None }
        ensures own { result.own.items ≡ [] }
        ensures sizes { result.sizes ≡ base }
        ensures counted { result.counted ≡ 0 }
    {
        Speller {
            numbers: Numbers::new(alloc, base),
            own: Vec::new(alloc),
            sizes: base,
            counted: 0,
        }
    }

    /// Counts a node, where that is one of a term or a level.
    fn count(&mut self, node: &OwnNode) -> Result<(), SpellError>
        requires { self.old.counted ≤ 4096 }
        ensures counted { OnOk result ((self.new ≡ record self.old { counted = self.new.counted })
            × (self.new.counted ≡ self.old.counted + (if is_counted node.now then 1 else 0))
            × (self.new.counted ≤ 4096)) }
        ensures full { IfErr result (λ e. IfTooWide e (
            (is_counted node.now ≡ true) × (self.old.counted ≡ 4096))) }
    {
        if !is_counted(node) {
            return Ok(());
        }
        if self.counted == MOST {
            return Err(SpellError::TooWide);
        }
        self.counted += 1;
        Ok(())
    }

    /// Spells a part by a node.
    fn add(&mut self, part: Part, node: OwnNode) -> Result<(), SpellError>
        requires { self.old.counted ≤ 4096 }
        ensures spells { OnOk result (Spells self.old self.new part node) }
        ensures full { IfErr result (λ e. IfTooWide e (
            (is_counted node ≡ true) × (self.old.counted ≡ 4096))) }
    {
        self.count(&node)?;
        let number = number_next(&mut self.sizes, &node)?;
        self.numbers.add(part, number.number())?;
        push_own(&mut self.own, node)?;
        Ok(())
    }

    /// Spells a part whose own parts have numbers.
    pub(crate) fn leave(
        &mut self,
        alloc: Global,
        terms: &Overlay,
        opened: Opened,
    ) -> Result<(), SpellError>
        requires few { self.old.counted ≤ 4096 }
        requires opened { IsOpenedIn (layers_contents terms.now) opened }
        requires done { AreDone self.old.numbers (parts_back opened) }
        ensures few { OnOk result (self.new.counted ≤ 4096) }
        ensures stays { OnOk result ((q : Part) → IsDone self.old.numbers q
            → IsDone self.new.numbers q) }
        ensures done { OnOk result (IsDone self.new.numbers (part_of opened)) }
        ensures counted { OnOk result (IsCounted (part_of opened) self.old self.new) }
        ensures wide { IfErr result (λ e. IfTooWide e (IsOneMore (part_of opened) self.old)) }
        ensures spells { (b : Contents) → IsSpeller b (layers_contents terms.now) self.old
            → OnOk result (IsSpeller b (layers_contents terms.now) self.new) }
    {
        if self.numbers.find(opened.part()).is_some() {
            return Ok(());
        }
        let node = own_node(alloc, terms, opened)?;
        let moved = moved(&self.numbers, node);
        self.add(opened.part(), moved)
    }

    /// What was spelled, of which this part is the whole.
    pub(crate) fn finish(self, part: Part) -> Spelled
        requires { IsDone self.numbers part }
        ensures own { result.own.items ≡ self.own.items }
        ensures root { result.root ≡ number_or self.numbers part }
    {
        let Speller {
            numbers,
            own,
            sizes: _,
            counted: _,
        } = self;
        let root = numbers.get(part);
        Spelled { own, root }
    }
}

fn push_own(own: &mut Vec<OwnNode>, node: OwnNode) -> Result<(), NoMemory>
    ensures { OnOk result (own.new.items ≡ own.old.items ++ node ∷ []) }
{
    own.push(node)?;
    Ok(())
}
