//! The canonical text of units is read back: it spells these units, in their order. Nothing runs:
//! each function is a law.
#![tactic(auto)]

ghost use Rattle.std.specs.Prelude.{◌≡◌, ℕ, ◌<◌, List, length, All, Ok, Some, slice_get};
ghost use Rattle.lk_env.specs.Budgets.{StatedBudget};
ghost use Rattle.lk_rulebook.specs.Units.{Library};
ghost use Rattle.lk_uses.specs.Listed.{IsClosureList, units_at};
ghost use Rattle.lk_book.specs.File.{Export, export_of};
ghost use Rattle.lk_trim.specs.Whole.{canonical_text, kept_of};
ghost use Rattle.lk_readback.specs.Statable.{AreStatable, IsBudget};
ghost use Rattle.lk_readback.specs.Within.{IsWithinLimits};
ghost use Rattle.lk_readback.specs.Stated.{kept_budgets};
ghost use Rattle.lk_readback.specs.Trimmed.{StatesAgain};

/// Each unit that a file states can be stated, and so can each budget.
pub fn read_units_are_statable()
    ensures units { (bytes : List ℕ) (e : Export) → export_of bytes ≡ Ok e → AreStatable e.units }
    ensures budgets { (bytes : List ℕ) (e : Export) → export_of bytes ≡ Ok e
        → All IsBudget e.budgets }
{}

/// Where the canonical text of units keeps the limits on lines, items and input, it spells just
/// these units, in their order, and the budgets that it states.
pub fn canonical_text_is_read_back()
    ensures { (us : Library) (bs : List StatedBudget) (ns : List ℕ) → AreStatable us
        → All IsBudget bs
        → ((i j n : ℕ) → slice_get ns i ≡ Some n → slice_get ns j ≡ Some n → i ≡ j)
        → IsWithinLimits (kept_of us bs ns)
        → export_of (canonical_text (kept_of us bs ns))
        ≡ Ok (record { units = units_at us ns; budgets = kept_budgets (kept_of us bs ns) }) }
{}

/// Where the canonical text of a unit's closure keeps these limits, it states the units of the
/// closure again, and each has its plain verdict, under each budget, and its axioms.
pub fn closure_is_stated_again()
    ensures { (bytes : List ℕ) (e : Export) (n : ℕ) (numbers : List ℕ) → export_of bytes ≡ Ok e
        → n < length e.units → IsClosureList e.units n numbers
        → IsWithinLimits (kept_of e.units e.budgets numbers)
        → StatesAgain e numbers (canonical_text (kept_of e.units e.budgets numbers)) }
{}
