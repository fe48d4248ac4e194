//! What stands beside the two trees of a line.

ghost use Rattle.std.specs.Prelude.{◌≡◌, ◌++◌, OnOk};
ghost use Rattle.lk_store.specs.Contents.{Contents};
ghost use Rattle.lk_trace.specs.declared.sections.Line.{Line};
ghost use Rattle.lk_trace.specs.Meaning.{line_by, IsRuleIn};
ghost use Rattle.lk_trim.specs.Stored.{written_at, AreNumbersIn, Writes};
ghost use Rattle.lk_sections.specs.Rules.{line_fields};
ghost use Rattle.lk_sections.specs.Lines.{write_extra, extra_fields};
ghost use Rattle.lk_sections.specs.Stored.{extra_at, IsExtraIn};

use lk_store::memory::NoMemory;
use lk_store::terms::Terms;
use lk_trace::{ConversionRule, ReductionRule, Rule, TypingRule};
use lk_trim::{Numbers, Writer, add_field, tree_number, write_tree};
use std::alloc::Global;

/// What stands beside the two trees of a line, by the numbers of a store.
#[derive(Clone, Copy)]
pub enum StoredExtra {
    Nothing,
    Local(u64),
    /// The place of the recursor's rule in its list, from 0.
    Place(u64),
}

/// What stands beside the two trees of a line of this rule.
pub(crate) fn extra_of(rule: Rule) -> StoredExtra
    ensures at { (c : Contents) (l : Line)
        → extra_at c result ≡ (line_fields (line_by c rule l)).extra }
    ensures known { (c : Contents) → IsRuleIn c rule → IsExtraIn c result }
{
    match rule {
        Rule::Typing(TypingRule::Lambda { local }) => StoredExtra::Local(local),
        Rule::Typing(TypingRule::Pi { local }) => StoredExtra::Local(local),
        Rule::Reduction(ReductionRule::Iota { place }) => StoredExtra::Place(place),
        Rule::Conversion(ConversionRule::Lambda { local }) => StoredExtra::Local(local),
        Rule::Conversion(ConversionRule::Pi { local }) => StoredExtra::Local(local),
        _ => StoredExtra::Nothing,
    }
}

/// Writes the lines of a Local that have none yet.
pub(crate) fn write_extra<T: Terms>(
    alloc: Global,
    store: &T,
    writer: &mut Writer,
    extra: StoredExtra,
) -> Result<(), NoMemory>
    requires numbers { AreNumbersIn (T.contents store.now) writer.old.numbers }
    requires extra_in { IsExtraIn (T.contents store.now) extra }
    ensures { let c = T.contents store.now in
        OnOk result (Writes c (write_extra (extra_at c extra)) writer.old writer.new) }
{
    match extra {
        StoredExtra::Nothing => Ok(()),
        StoredExtra::Local(local) => write_tree(alloc, store, writer, local),
        StoredExtra::Place(_) => Ok(()),
    }
}

/// Appends what stands beside the two trees.
pub(crate) fn add_extra<T: Terms>(
    out: &mut Vec<u8>,
    store: &T,
    numbers: &Numbers,
    extra: StoredExtra,
) -> Result<(), NoMemory>
    requires numbers { AreNumbersIn (T.contents store.now) numbers.now }
    requires extra_in { IsExtraIn (T.contents store.now) extra }
    ensures { let c = T.contents store.now in
        OnOk result (out.new.items
        ≡ out.old.items ++ extra_fields (written_at c numbers.now) (extra_at c extra)) }
{
    match extra {
        StoredExtra::Nothing => Ok(()),
        StoredExtra::Local(local) => add_field(out, tree_number(store, numbers, local)),
        StoredExtra::Place(place) => add_field(out, place),
    }
}
