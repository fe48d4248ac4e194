//! Verdicts, in the order of the units.

ghost use Rattle.std.specs.Prelude.{◌≡◌, ◌<◌, ℕ, IfOk, All, vec_len, slice_index_or};
ghost use Rattle.lk_verdict.specs.declared.verdict.Verdict.{Verdict as Held};
ghost use Rattle.leancheck.specs.Drawn.{given};

use lk_store::memory::NoMemory;
use lk_verdict::Verdict;
use std::alloc::Global;

/// The verdict of the unit of a number.
#[derive(Clone, Copy)]
pub struct UnitVerdict {
    pub number: u32,
    pub verdict: Verdict,
}

/// A place for the verdict of each unit, which says memory as long as none is put there.
pub(crate) fn blank(alloc: Global, units: usize) -> Result<Vec<Verdict>, NoMemory>
    ensures count { IfOk result (λ v. vec_len v ≡ units) }
    ensures memory { IfOk result (λ v. All (λ x. x ≡ Held.Memory) v.items) }
{
    let mut verdicts = Vec::new(alloc);
    for _ in 0..units {
        verdicts.push(Verdict::Memory)?;
    }
    Ok(verdicts)
}

/// Puts each answer at its number.
pub(crate) fn fill(verdicts: &mut Vec<Verdict>, answers: &[UnitVerdict])
    requires numbers { All (λ a. a.number < vec_len verdicts.old) answers.now }
    requires blank { All (λ x. x ≡ Held.Memory) verdicts.old.items }
    ensures count { vec_len verdicts.new ≡ vec_len verdicts.old }
    ensures given { (n : ℕ) (d : Held) → n < vec_len verdicts.old
        → slice_index_or verdicts.new.items n d ≡ given n answers.now }
{
    for i in 0..answers.len() {
        let answer = answers[i];
        verdicts[answer.number as usize] = answer.verdict;
    }
}
