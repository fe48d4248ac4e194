//! Claims that two trees are related, and what it is for a property of claims to follow the rules.
//! A proof over every such property holds of derivations, and of what can be written. Nothing runs:
//! each function is a law.
#![tactic(auto)]

ghost use Rattle.lk_rulebook.specs.Lawful.{IsLawfulPlace};
ghost use Rattle.lk_rulebook.specs.Place.{Place};
ghost use Rattle.lk_questions.specs.Levels.{IsLevelTest, complete_test};
ghost use Rattle.lk_rulebook.specs.Claims.{Derived};
ghost use Rattle.lk_claims.specs.Follows.{FollowsTypes, FollowsReductions, FollowsEqualities};

/// Derivations follow the rules: those of typing and of conversion at every place, those of
/// reduction where operations on numbers have their laws.
pub fn derivations_follow_the_rules()
    ensures typing { (w : Place) → FollowsTypes w (Derived w) }
    ensures reduction { (w : Place) → IsLawfulPlace w → FollowsReductions w (Derived w) }
    ensures conversion { (w : Place) → FollowsEqualities w (Derived w) }
{}

/// Where the complete test of levels says yes, the two levels are equal under every assignment.
pub fn level_tests_are_sound()
    ensures { IsLevelTest complete_test }
{}
