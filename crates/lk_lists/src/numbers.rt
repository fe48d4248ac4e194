//! Numbers of Locals.

ghost use Rattle.std.specs.Prelude.{◌≡◌, suc, ◌++◌, ◌∷◌, [], IfOk, OnOk};

use lk_store::memory::NoMemory;

/// The number after this one. No Local in memory has the greatest number.
pub fn number_after(number: u64) -> Result<u64, NoMemory>
    ensures { IfOk result (λ n. n ≡ suc number) }
{
    match number.checked_add(1) {
        Some(next) => Ok(next),
        None => Err(NoMemory),
    }
}

/// Keeps what a number was taken for, and tells the next number.
pub fn keep<T: Drop>(kept: &mut Vec<T>, value: T, number: u64) -> Result<u64, NoMemory>
    ensures kept { OnOk result (kept.new.items ≡ kept.old.items ++ value ∷ []) }
    ensures next { IfOk result (λ n. n ≡ suc number) }
{
    kept.push(value)?;
    number_after(number)
}
