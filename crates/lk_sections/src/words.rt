//! The words of rules and of their families.

ghost use Rattle.std.specs.Prelude.{◌≡◌, ◌++◌, OnOk};
ghost use Rattle.lk_store.specs.Contents.{Contents};
ghost use Rattle.lk_trace.specs.declared.sections.Line.{Line};
ghost use Rattle.lk_trace.specs.Meaning.{line_by, typing_rule_of, reduction_rule_of};
ghost use Rattle.lk_trace.specs.Meaning.{conversion_rule_of};
ghost use Rattle.lk_lines.specs.declared.rules.RuleTag.TheVariants as tag;
ghost use Rattle.lk_lines.specs.declared.tags.Tag.TheVariants.{Derivation};
ghost use Rattle.lk_lines.specs.Rules.{family_of, rule_word};
ghost use Rattle.lk_lines.specs.Tags.{tag_word};
ghost use Rattle.lk_sections.specs.Rules.{typing_tag, reduction_tag, conversion_tag, line_fields};
ghost use Rattle.lk_sections.specs.Lines.{rule_fields};

use lk_store::memory::NoMemory;
use lk_trace::{ConversionRule, ReductionRule, Rule, TypingRule};

/// The word of a rule of typing.
fn typing_word(rule: TypingRule) -> &'static [u8]
    ensures { (c : Contents)
        → result.now ≡ rule_word (tag.Typing (typing_tag (typing_rule_of c rule))) }
{
    match rule {
        TypingRule::Sort => b"T-Sort",
        TypingRule::Local => b"T-Local",
        TypingRule::Constant => b"T-Const",
        TypingRule::Apply => b"T-App",
        TypingRule::Let => b"T-Let",
        TypingRule::NatLiteral => b"T-Lit",
        TypingRule::TextLiteral => b"T-Str",
        TypingRule::Project => b"T-Proj",
        TypingRule::Lambda { .. } => b"T-Lam",
        TypingRule::Pi { .. } => b"T-Pi",
    }
}

/// The word of a rule of reduction.
fn reduction_word(rule: ReductionRule) -> &'static [u8]
    ensures { result.now ≡ rule_word (tag.Reduction (reduction_tag (reduction_rule_of rule))) }
{
    match rule {
        ReductionRule::Chain => b"R-Trans",
        ReductionRule::Head => b"R-Head",
        ReductionRule::Beta => b"R-Beta",
        ReductionRule::Zeta => b"R-Zeta",
        ReductionRule::Delta => b"R-Delta",
        ReductionRule::Project => b"R-Proj",
        ReductionRule::Major => b"R-Major",
        ReductionRule::K => b"R-K",
        ReductionRule::Structure => b"R-Struct",
        ReductionRule::Lift => b"R-Lift",
        ReductionRule::Induction => b"R-Ind",
        ReductionRule::Operation => b"R-Op",
        ReductionRule::Iota { .. } => b"R-Iota",
    }
}

/// The word of a rule of conversion.
fn conversion_word(rule: ConversionRule) -> &'static [u8]
    ensures { (c : Contents)
        → result.now ≡ rule_word (tag.Conversion (conversion_tag (conversion_rule_of c rule))) }
{
    match rule {
        ConversionRule::Reduce => b"E-Reduce",
        ConversionRule::Sorts => b"E-Sort",
        ConversionRule::Constants => b"E-Const",
        ConversionRule::Apply => b"E-App",
        ConversionRule::Project => b"E-Proj",
        ConversionRule::Lambda { .. } => b"E-Lam",
        ConversionRule::Pi { .. } => b"E-Pi",
        ConversionRule::Eta => b"E-Eta",
        ConversionRule::StructureLeft => b"E-StructL",
        ConversionRule::StructureRight => b"E-StructR",
        ConversionRule::UnitLike => b"E-Unit",
        ConversionRule::Proof => b"E-Proof",
        ConversionRule::Zero => b"E-Zero",
        ConversionRule::Successor => b"E-Succ",
        ConversionRule::TextLeft => b"E-StrL",
        ConversionRule::TextRight => b"E-StrR",
    }
}

/// The word of a rule.
fn rule_word(rule: Rule) -> &'static [u8]
    ensures { (c : Contents) (l : Line)
        → result.now ≡ rule_word (line_fields (line_by c rule l)).rule }
{
    match rule {
        Rule::Typing(rule) => typing_word(rule),
        Rule::Reduction(rule) => reduction_word(rule),
        Rule::Conversion(rule) => conversion_word(rule),
    }
}

/// The tag of the lines of a rule.
fn family_word(rule: Rule) -> &'static [u8]
    ensures { (c : Contents) (l : Line) → result.now
        ≡ tag_word (Derivation (family_of (line_fields (line_by c rule l)).rule)) }
{
    match rule {
        Rule::Typing(_) => b"#TY",
        Rule::Reduction(_) => b"#RD",
        Rule::Conversion(_) => b"#CV",
    }
}

/// Appends the tag of a rule's lines and its word.
pub(crate) fn add_rule(out: &mut Vec<u8>, rule: Rule) -> Result<(), NoMemory>
    ensures { (c : Contents) (l : Line) → OnOk result (out.new.items
        ≡ out.old.items ++ rule_fields (line_fields (line_by c rule l)).rule) }
{
    out.push(b' ')?;
    out.extend_from_slice(family_word(rule))?;
    out.push(b' ')?;
    out.extend_from_slice(rule_word(rule))?;
    Ok(())
}
