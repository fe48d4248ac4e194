//! The law over every list of steps.

ghost use Rattle.std.specs.Prelude.{ℕ, ◌+◌, ◌<◌, ◌≤◌, ◌⊎◌, ◌^◌, List, length};
ghost use Rattle.lk_desk.specs.Job.{Job, units_of};
ghost use Rattle.lk_desk.specs.Rule.{Desk, IsDesk, claim_word};
ghost use Rattle.lk_desk.specs.Once.{HasOne, HasNone};
ghost use Rattle.lk_desk.specs.Machine.{Machine, Move, Opens, Runs, Holds};

/// Each state that a list of steps reaches from the opening state keeps the rule.
pub fn every_run_keeps()
    ensures { (job : Job) (moves : List Move) (c d : Machine) → units_of job < 2 ^ 32
        → Opens job c → Runs moves c d → Holds job d }
{}

/// Under the rule each number below the claim word and below the units stands in one live view's
/// list, once, and no other number stands in one.
pub fn once_means()
    ensures one { (job : Job) (s : Desk) (x : ℕ) → IsDesk job s
        → x < claim_word s → x < units_of job → HasOne s x }
    ensures none { (job : Job) (s : Desk) (x : ℕ) → IsDesk job s
        → (claim_word s ≤ x) ⊎ (units_of job ≤ x) → HasNone s x }
    ensures few { (job : Job) (s : Desk) → IsDesk job s → claim_word s ≤ units_of job + 65536 }
{}
