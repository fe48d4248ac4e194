//! The lines that tell verdicts.

ghost use Rattle.std.specs.Prelude.{◌≡◌, ◌++◌, codes, OnOk};
ghost use Rattle.lk_verdict.specs.Held.{verdict};
ghost use Rattle.lk_text.specs.Text.{rule_word, title_text, head_text, why_text, axiom_text};
ghost use Rattle.lk_text.specs.Text.{verdict_text};

use crate::names::add_number;
use lk_store::memory::NoMemory;
use lk_tree::rule::Rule;
use lk_verdict::Verdict;

/// The word of a rule.
fn word_of(rule: Rule) -> &'static [u8]
    ensures { result.now ≡ rule_word rule }
{
    match rule {
        Rule::UnknownConstant => b"UnknownConstant",
        Rule::LevelCount => b"LevelCount",
        Rule::UndeclaredLevel => b"UndeclaredLevel",
        Rule::DuplicateLevel => b"DuplicateLevel",
        Rule::DuplicateName => b"DuplicateName",
        Rule::LooseVariable => b"LooseVariable",
        Rule::NotASort => b"NotASort",
        Rule::NotAFunction => b"NotAFunction",
        Rule::ArgumentType => b"ArgumentType",
        Rule::LetType => b"LetType",
        Rule::ValueType => b"ValueType",
        Rule::TheoremNotProp => b"TheoremNotProp",
        Rule::BadProjection => b"BadProjection",
        Rule::PropProjection => b"PropProjection",
        Rule::WideLiteral => b"WideLiteral",
        Rule::NoBuiltin => b"NoBuiltin",
        Rule::BuiltinShape => b"BuiltinShape",
        Rule::QuotShape => b"QuotShape",
        Rule::LevelWidth => b"LevelWidth",
        Rule::BlockShape => b"BlockShape",
        Rule::ParameterDiffers => b"ParameterDiffers",
        Rule::ConstructorResult => b"ConstructorResult",
        Rule::NotPositive => b"NotPositive",
        Rule::FieldUniverse => b"FieldUniverse",
        Rule::NestedForm => b"NestedForm",
        Rule::RecursorDiffers => b"RecursorDiffers",
        Rule::NatLaw => b"NatLaw",
        Rule::AxiomNotAllowed => b"AxiomNotAllowed",
    }
}

/// Appends a unit's number and name behind a word, up to the end of the line; `name` is its name as it is
/// written.
#[tactic(auto, unfolding(crate::specs::Text::title_text))]
pub(crate) fn add_title(
    out: &mut Vec<u8>,
    kind: &[u8],
    unit: u64,
    name: &[u8],
) -> Result<(), NoMemory>
    ensures { OnOk result (out.new.items ≡ out.old.items ++ title_text kind.now unit name.now) }
{
    out.extend_from_slice(kind)?;
    out.push(b' ')?;
    add_number(out, unit)?;
    out.push(b' ')?;
    out.extend_from_slice(name)?;
    out.push(b'\n')?;
    Ok(())
}

/// Appends the line of a unit, after a word.
fn add_head(
    out: &mut Vec<u8>,
    word: &[u8],
    kind: &[u8],
    unit: u64,
    name: &[u8],
) -> Result<(), NoMemory>
    ensures { OnOk result (out.new.items ≡ out.old.items
        ++ head_text word.now kind.now unit name.now) }
{
    out.extend_from_slice(word)?;
    out.push(b' ')?;
    add_title(out, kind, unit, name)
}

/// Appends the line of a cause.
fn add_why(out: &mut Vec<u8>, word: &[u8]) -> Result<(), NoMemory>
    ensures { OnOk result (out.new.items ≡ out.old.items ++ why_text word.now) }
{
    out.extend_from_slice(b"  why ")?;
    out.extend_from_slice(word)?;
    out.push(b'\n')?;
    Ok(())
}

/// Appends the line of an axiom.
pub fn add_axiom(out: &mut Vec<u8>, name: &[u8]) -> Result<(), NoMemory>
    ensures { OnOk result (out.new.items ≡ out.old.items ++ axiom_text name.now) }
{
    out.extend_from_slice(b"  axiom ")?;
    out.extend_from_slice(name)?;
    out.push(b'\n')?;
    Ok(())
}

/// Appends the lines of a unit that isn't accepted.
fn add_no(
    out: &mut Vec<u8>,
    kind: &[u8],
    unit: u64,
    name: &[u8],
    why: &[u8],
) -> Result<(), NoMemory>
    ensures { OnOk result (out.new.items ≡ out.old.items
        ++ (head_text (codes "no") kind.now unit name.now ++ why_text why.now)) }
{
    add_head(out, b"no", kind, unit, name)?;
    add_why(out, why)
}

/// Appends the lines of a unit.
pub fn add_verdict(
    out: &mut Vec<u8>,
    kind: &[u8],
    unit: u64,
    name: &[u8],
    said: Verdict,
) -> Result<(), NoMemory>
    ensures { OnOk result (out.new.items ≡ out.old.items
        ++ verdict_text kind.now unit name.now (verdict said)) }
{
    match said {
        Verdict::Yes => add_head(out, b"yes", kind, unit, name),
        Verdict::No(rule) => add_no(out, kind, unit, name, word_of(rule)),
        Verdict::Steps => add_no(out, kind, unit, name, b"steps"),
        Verdict::Memory => add_no(out, kind, unit, name, b"memory"),
    }
}
