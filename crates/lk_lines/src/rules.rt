//! The rules that a line of a derivation may name.
ghost use Rattle.std.specs.Prelude.{◌≡◌, IfOk};
ghost use Rattle.lk_lines.specs.Told.{Gives};
ghost use Rattle.lk_lines.specs.Rules.{beside_of, family_of, find_rule, rules_of, typing_rules, reduction_rules, conversion_rules};

use crate::Word;
use crate::steps::{FieldError, is};

/// The families of lines of a derivation, by their tags.
#[derive(Clone, Copy)]
pub enum Family {
    /// `#TY`, typing.
    Typing,
    /// `#RD`, reduction.
    Reduction,
    /// `#CV`, conversion.
    Conversion,
}

/// The rules of typing.
#[derive(Clone, Copy)]
pub enum TypingTag {
    Sort,
    Local,
    Constant,
    Apply,
    Lambda,
    Pi,
    Let,
    NatLiteral,
    TextLiteral,
    Project,
}

/// The rules of reduction.
#[derive(Clone, Copy)]
pub enum ReductionTag {
    Chain,
    Head,
    Beta,
    Zeta,
    Delta,
    Project,
    Major,
    Iota,
    K,
    Structure,
    Lift,
    Induction,
    Operation,
}

/// The rules of conversion.
#[derive(Clone, Copy)]
pub enum ConversionTag {
    Reduce,
    Sorts,
    Constants,
    Apply,
    Lambda,
    Pi,
    Project,
    Eta,
    StructureLeft,
    StructureRight,
    UnitLike,
    Proof,
    Zero,
    Successor,
    TextLeft,
    TextRight,
}

/// A rule by its word.
#[derive(Clone, Copy)]
pub enum RuleTag {
    Typing(TypingTag),
    Reduction(ReductionTag),
    Conversion(ConversionTag),
}

/// What a line has beside its two trees.
#[derive(Clone, Copy)]
pub enum Beside {
    Nothing,
    /// The Local that stands in the place of a variable, where the rule goes under a binder.
    Local,
    /// The place of the recursor's rule in its list, from 0.
    Place,
}

fn find_typing(word: &[u8]) -> Result<RuleTag, FieldError>
    ensures rule { Gives (λ r. r) result (find_rule typing_rules word.now) }
    ensures family { IfOk result (λ r. family_of r ≡ Family.Typing) }
{
    if is(word, b"T-Sort") {
        Ok(RuleTag::Typing(TypingTag::Sort))
    } else if is(word, b"T-Local") {
        Ok(RuleTag::Typing(TypingTag::Local))
    } else if is(word, b"T-Const") {
        Ok(RuleTag::Typing(TypingTag::Constant))
    } else if is(word, b"T-App") {
        Ok(RuleTag::Typing(TypingTag::Apply))
    } else if is(word, b"T-Lam") {
        Ok(RuleTag::Typing(TypingTag::Lambda))
    } else if is(word, b"T-Pi") {
        Ok(RuleTag::Typing(TypingTag::Pi))
    } else if is(word, b"T-Let") {
        Ok(RuleTag::Typing(TypingTag::Let))
    } else if is(word, b"T-Lit") {
        Ok(RuleTag::Typing(TypingTag::NatLiteral))
    } else if is(word, b"T-Str") {
        Ok(RuleTag::Typing(TypingTag::TextLiteral))
    } else if is(word, b"T-Proj") {
        Ok(RuleTag::Typing(TypingTag::Project))
    } else {
        Err(FieldError::Fault(Word::BadWord))
    }
}

fn find_reduction(word: &[u8]) -> Result<RuleTag, FieldError>
    ensures rule { Gives (λ r. r) result (find_rule reduction_rules word.now) }
    ensures family { IfOk result (λ r. family_of r ≡ Family.Reduction) }
{
    if is(word, b"R-Trans") {
        Ok(RuleTag::Reduction(ReductionTag::Chain))
    } else if is(word, b"R-Head") {
        Ok(RuleTag::Reduction(ReductionTag::Head))
    } else if is(word, b"R-Beta") {
        Ok(RuleTag::Reduction(ReductionTag::Beta))
    } else if is(word, b"R-Zeta") {
        Ok(RuleTag::Reduction(ReductionTag::Zeta))
    } else if is(word, b"R-Delta") {
        Ok(RuleTag::Reduction(ReductionTag::Delta))
    } else if is(word, b"R-Proj") {
        Ok(RuleTag::Reduction(ReductionTag::Project))
    } else if is(word, b"R-Major") {
        Ok(RuleTag::Reduction(ReductionTag::Major))
    } else if is(word, b"R-Iota") {
        Ok(RuleTag::Reduction(ReductionTag::Iota))
    } else if is(word, b"R-K") {
        Ok(RuleTag::Reduction(ReductionTag::K))
    } else if is(word, b"R-Struct") {
        Ok(RuleTag::Reduction(ReductionTag::Structure))
    } else if is(word, b"R-Lift") {
        Ok(RuleTag::Reduction(ReductionTag::Lift))
    } else if is(word, b"R-Ind") {
        Ok(RuleTag::Reduction(ReductionTag::Induction))
    } else if is(word, b"R-Op") {
        Ok(RuleTag::Reduction(ReductionTag::Operation))
    } else {
        Err(FieldError::Fault(Word::BadWord))
    }
}

fn find_conversion(word: &[u8]) -> Result<RuleTag, FieldError>
    ensures rule { Gives (λ r. r) result (find_rule conversion_rules word.now) }
    ensures family { IfOk result (λ r. family_of r ≡ Family.Conversion) }
{
    if is(word, b"E-Reduce") {
        Ok(RuleTag::Conversion(ConversionTag::Reduce))
    } else if is(word, b"E-Sort") {
        Ok(RuleTag::Conversion(ConversionTag::Sorts))
    } else if is(word, b"E-Const") {
        Ok(RuleTag::Conversion(ConversionTag::Constants))
    } else if is(word, b"E-App") {
        Ok(RuleTag::Conversion(ConversionTag::Apply))
    } else if is(word, b"E-Lam") {
        Ok(RuleTag::Conversion(ConversionTag::Lambda))
    } else if is(word, b"E-Pi") {
        Ok(RuleTag::Conversion(ConversionTag::Pi))
    } else if is(word, b"E-Proj") {
        Ok(RuleTag::Conversion(ConversionTag::Project))
    } else if is(word, b"E-Eta") {
        Ok(RuleTag::Conversion(ConversionTag::Eta))
    } else if is(word, b"E-StructL") {
        Ok(RuleTag::Conversion(ConversionTag::StructureLeft))
    } else if is(word, b"E-StructR") {
        Ok(RuleTag::Conversion(ConversionTag::StructureRight))
    } else if is(word, b"E-Unit") {
        Ok(RuleTag::Conversion(ConversionTag::UnitLike))
    } else if is(word, b"E-Proof") {
        Ok(RuleTag::Conversion(ConversionTag::Proof))
    } else if is(word, b"E-Zero") {
        Ok(RuleTag::Conversion(ConversionTag::Zero))
    } else if is(word, b"E-Succ") {
        Ok(RuleTag::Conversion(ConversionTag::Successor))
    } else if is(word, b"E-StrL") {
        Ok(RuleTag::Conversion(ConversionTag::TextLeft))
    } else if is(word, b"E-StrR") {
        Ok(RuleTag::Conversion(ConversionTag::TextRight))
    } else {
        Err(FieldError::Fault(Word::BadWord))
    }
}

/// The rule of this word, of those of a family.
pub(crate) fn find_rule(family: Family, word: &[u8]) -> Result<RuleTag, FieldError>
    ensures rule { Gives (λ r. r) result (find_rule (rules_of family) word.now) }
    ensures family { IfOk result (λ r. family_of r ≡ family) }
{
    match family {
        Family::Typing => find_typing(word),
        Family::Reduction => find_reduction(word),
        Family::Conversion => find_conversion(word),
    }
}

impl RuleTag {
    /// What a line by this rule has beside its two trees.
    pub fn beside(self) -> Beside
        ensures { result ≡ beside_of self }
    {
        match self {
            RuleTag::Typing(TypingTag::Lambda) => Beside::Local,
            RuleTag::Typing(TypingTag::Pi) => Beside::Local,
            RuleTag::Reduction(ReductionTag::Iota) => Beside::Place,
            RuleTag::Conversion(ConversionTag::Lambda) => Beside::Local,
            RuleTag::Conversion(ConversionTag::Pi) => Beside::Local,
            _ => Beside::Nothing,
        }
    }
}
