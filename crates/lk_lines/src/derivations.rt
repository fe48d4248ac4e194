//! Lines of a derivation. `line` is what is left of the line behind the tag or the rule.
ghost use Rattle.std.specs.Prelude.{◌≡◌, ◌∷◌, [], ℕ, List, IfOk};
ghost use Rattle.lk_token.specs.Fields.{fields_of};
ghost use Rattle.lk_lines.specs.declared.dues.Due.TheVariants.{Known, Number, Rest};
ghost use Rattle.lk_lines.specs.declared.dues.Numbering.TheVariants.{Expressions, Lines};
ghost use Rattle.lk_lines.specs.Told.{Gives};
ghost use Rattle.lk_lines.specs.Rules.{family_of, rule_at, rule_dues};
ghost use Rattle.lk_lines.specs.Reading.{read_dues};
ghost use Rattle.lk_lines.specs.Views.{GivesDerivation, rule_values};

use crate::rules::find_rule;
use crate::steps::{FieldError, number, numbers_left};
use crate::{Beside, DerivationLine, Family, FileNumber, RuleTag, Word};
use lk_token::next_field;
use std::alloc::Global;

// The rule that the first field is.
#[tactic(auto, unfolding(crate::specs::Rules::rule_at))]
fn rule(family: Family, line: &[u8]) -> Result<(RuleTag, &[u8]), FieldError>
    ensures rule { Gives (λ r. (r.0, fields_of r.1.now)) result
        (rule_at family (fields_of line.now)) }
    ensures family { IfOk result (λ r. family_of r.0 ≡ family) }
{
    match next_field(line) {
        None => Err(FieldError::Fault(Word::MissingField)),
        Some((field, rest)) => Ok((find_rule(family, field)?, rest)),
    }
}

// What stands behind a rule that has nothing beside its trees.
fn plain<N: FileNumber>(
    alloc: Global,
    rule: RuleTag,
    line: &[u8],
) -> Result<DerivationLine<N>, FieldError>
    ensures values { (text : List ℕ) → Gives (rule_values N.view) result (read_dues N.view.limit
        (Known Expressions ∷ Known Expressions ∷ Rest Lines ∷ []) text (fields_of line.now)) }
    ensures rule { IfOk result (λ l. l.rule ≡ rule) }
{
    let (left, rest) = number(line)?;
    let (right, rest) = number(rest)?;
    let premises = numbers_left(alloc, rest)?;
    Ok(DerivationLine {
        rule,
        left,
        right,
        beside: None,
        premises,
    })
}

// What stands behind a rule that has a number beside its trees.
fn with_beside<N: FileNumber>(
    alloc: Global,
    rule: RuleTag,
    line: &[u8],
) -> Result<DerivationLine<N>, FieldError>
    ensures values { (text : List ℕ) → Gives (rule_values N.view) result (read_dues N.view.limit
        (Known Expressions ∷ Known Expressions ∷ Number ∷ Rest Lines ∷ []) text
        (fields_of line.now)) }
    ensures rule { IfOk result (λ l. l.rule ≡ rule) }
{
    let (left, rest) = number(line)?;
    let (right, rest) = number(rest)?;
    let (beside, rest) = number(rest)?;
    let premises = numbers_left(alloc, rest)?;
    Ok(DerivationLine {
        rule,
        left,
        right,
        beside: Some(beside),
        premises,
    })
}

// What stands behind a rule.
fn behind_rule<N: FileNumber>(
    alloc: Global,
    rule: RuleTag,
    line: &[u8],
) -> Result<DerivationLine<N>, FieldError>
    ensures values { (text : List ℕ) → Gives (rule_values N.view) result
        (read_dues N.view.limit (rule_dues rule) text (fields_of line.now)) }
    ensures rule { IfOk result (λ l. l.rule ≡ rule) }
{
    match rule.beside() {
        Beside::Nothing => plain(alloc, rule, line),
        Beside::Local => with_beside(alloc, rule, line),
        Beside::Place => with_beside(alloc, rule, line),
    }
}

/// What stands behind the tag of a line of a derivation.
#[inline(never)]
pub(crate) fn read_derivation<N: FileNumber>(
    alloc: Global,
    family: Family,
    line: &[u8],
) -> Result<DerivationLine<N>, FieldError>
    ensures values { (text : List ℕ) → GivesDerivation N.view family text (fields_of line.now)
        result }
    ensures family { IfOk result (λ l. family_of l.rule ≡ family) }
{
    let (rule, rest) = rule(family, line)?;
    behind_rule(alloc, rule, rest)
}
