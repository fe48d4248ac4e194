//! The last line, which counts verdicts.

ghost use Rattle.std.specs.Prelude.{◌≡◌, ◌++◌, map, OnOk, IfOk};
ghost use Rattle.lk_verdict.specs.Held.{verdict};
ghost use Rattle.lk_text.specs.Text.{is_of, count, counted_text, summary_text, checked_line};

use crate::names::add_number;
use lk_store::memory::NoMemory;
use lk_verdict::Verdict;
use std::alloc::Global;

/// What a verdict is counted as.
#[derive(Clone, Copy)]
pub enum VerdictKind {
    Yes,
    No,
    Memory,
}

/// Whether a verdict is of this kind.
fn is_of(kind: VerdictKind, v: &Verdict) -> bool
    ensures { result ≡ is_of kind (verdict v.now) }
{
    match kind {
        VerdictKind::Yes => match v {
            Verdict::Yes => true,
            Verdict::No(_) => false,
            Verdict::Steps => false,
            Verdict::Memory => false,
        },
        VerdictKind::No => match v {
            Verdict::Yes => false,
            Verdict::No(_) => true,
            Verdict::Steps => true,
            Verdict::Memory => false,
        },
        VerdictKind::Memory => match v {
            Verdict::Yes => false,
            Verdict::No(_) => false,
            Verdict::Steps => false,
            Verdict::Memory => true,
        },
    }
}

/// How many are of this kind.
pub fn count(kind: VerdictKind, verdicts: &[Verdict]) -> u64
    ensures { result ≡ count kind (map verdict verdicts.now) }
{
    let mut n = 0;
    let mut rest = verdicts;
    while let [v, more @ ..] = rest {
        rest = more;
        if is_of(kind, v) {
            n += 1;
        }
    }
    n
}

/// Appends a number behind a word.
#[tactic(auto, unfolding(crate::specs::Text::counted_text))]
pub(crate) fn add_counted(out: &mut Vec<u8>, word: &[u8], n: u64) -> Result<(), NoMemory>
    ensures { OnOk result (out.new.items ≡ out.old.items ++ counted_text word.now n) }
{
    out.extend_from_slice(word)?;
    add_number(out, n)
}

/// Appends the last line.
pub fn add_summary(out: &mut Vec<u8>, verdicts: &[Verdict]) -> Result<(), NoMemory>
    ensures { OnOk result (out.new.items ≡ out.old.items
        ++ summary_text (map verdict verdicts.now)) }
{
    add_counted(out, b"units ", verdicts.len() as u64)?;
    add_counted(out, b" yes ", count(VerdictKind::Yes, verdicts))?;
    add_counted(out, b" no ", count(VerdictKind::No, verdicts))?;
    add_counted(out, b" memory ", count(VerdictKind::Memory, verdicts))?;
    out.push(b'\n')?;
    Ok(())
}

/// Appends the line that says how many units were checked.
pub fn add_checked(out: &mut Vec<u8>, n: u64) -> Result<(), NoMemory>
    ensures { OnOk result (out.new.items ≡ out.old.items ++ checked_line n) }
{
    add_counted(out, b"checked ", n)?;
    out.push(b'\n')?;
    Ok(())
}

/// The last line alone.
pub fn summary(alloc: Global, verdicts: &[Verdict]) -> Result<Vec<u8>, NoMemory>
    ensures { IfOk result (λ v. v.items ≡ summary_text (map verdict verdicts.now)) }
{
    let mut out = Vec::new(alloc);
    add_summary(&mut out, verdicts)?;
    Ok(out)
}
