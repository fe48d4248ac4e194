ghost use Rattle.std.specs.Prelude.{◌≡◌, Ok, Err};
ghost use Rattle.lk_lines.specs.Told.{Gives};
ghost use Rattle.lk_token.specs.Fields.{fields_of};
ghost use Rattle.lk_lines.specs.Items.{tag_at};
ghost use Rattle.lk_lines.specs.Tags.{find_tag, numbered_tags, own_numbered_tags, own_tags, rare_tags, plain_tags, plain_tag, numbered_tag};

use crate::steps::{FieldError, is, is_three};
use crate::{Family, Word};
use lk_token::{next_field, short_field};

/// The tags of lines that define a number, which stands in front of the tag.
#[derive(Clone, Copy)]
pub enum EntryTag {
    NameText,
    NameNumber,
    Successor,
    Max,
    Imax,
    Parameter,
    Variable,
    Sort,
    Constant,
    Apply,
    Lambda,
    Pi,
    Let,
    Project,
    NatLiteral,
    TextLiteral,
    Rule,
}

/// The tags of lines that declare something. They begin with their tag.
#[derive(Clone, Copy)]
pub enum DeclarationTag {
    Axiom,
    Definition,
    Theorem,
    Opaque,
    Quotient,
    Inductive,
    Constructor,
    Recursor,
}

/// The kinds of input, which differ in some tags.
#[derive(Clone, Copy)]
pub enum Dialect {
    /// A library. `#BUD` lines may state budgets of its units.
    Export,
    /// A library and changes of it, which `#GO` lines part.
    Rounds,
    /// A library that is put behind others. No line states budgets of its units.
    Text,
    /// A library with budgets, and behind a line `#TR` derivations of the parts of its units. The
    /// lines before and behind `#TR` have the same tags; the numbers of those behind it are wide.
    Trace,
}

/// The kinds of line, by the tag that names each.
#[derive(Clone, Copy)]
pub enum Tag {
    Entry(EntryTag),
    Declaration(DeclarationTag),
    /// The tag of lines that state how many steps a unit may take. They begin with their tag.
    Budget,
    /// The tag of lines that end a part of the input. They hold nothing else.
    Go,
    /// The tag of the line behind which derivations stand. It holds nothing else.
    Trace,
    /// The tag of lines that begin a derivation. They begin with their tag.
    Section,
    /// The tag of lines that end a derivation. They begin with their tag.
    Parts,
    /// The tag of lines that define a Local among the expressions.
    Local,
    /// The tags of lines of derivations.
    Derivation(Family),
}

/// The tags behind a number.
#[derive(Clone, Copy)]
pub enum NumberedTag {
    Entry(EntryTag),
    Local,
    Derivation(Family),
}

/// The tags that lines begin with.
#[derive(Clone, Copy)]
pub enum PlainTag {
    Declaration(DeclarationTag),
    Budget,
    Go,
    Trace,
    Section,
    Parts,
}

// The tag of this word, of those with a number in front. The commonest ones come first.
#[inline(always)]
fn find_entry(dialect: Dialect, word: &[u8]) -> Result<NumberedTag, FieldError>
    ensures { Gives numbered_tag result (find_tag (numbered_tags dialect) word.now) }
{
    if is_three(word, b'#', b'E', b'A') {
        Ok(NumberedTag::Entry(EntryTag::Apply))
    } else if is_three(word, b'#', b'E', b'C') {
        Ok(NumberedTag::Entry(EntryTag::Constant))
    } else if is_three(word, b'#', b'E', b'L') {
        Ok(NumberedTag::Entry(EntryTag::Lambda))
    } else if is_three(word, b'#', b'E', b'P') {
        Ok(NumberedTag::Entry(EntryTag::Pi))
    } else if is_three(word, b'#', b'E', b'V') {
        Ok(NumberedTag::Entry(EntryTag::Variable))
    } else if is_three(word, b'#', b'N', b'S') {
        Ok(NumberedTag::Entry(EntryTag::NameText))
    } else if is_three(word, b'#', b'E', b'S') {
        Ok(NumberedTag::Entry(EntryTag::Sort))
    } else if is_three(word, b'#', b'N', b'I') {
        Ok(NumberedTag::Entry(EntryTag::NameNumber))
    } else {
        find_rare_entry(dialect, word)
    }
}

#[inline(never)]
fn find_rare_entry(dialect: Dialect, word: &[u8]) -> Result<NumberedTag, FieldError>
    ensures { Gives numbered_tag result (find_tag (rare_tags dialect) word.now) }
{
    if is_three(word, b'#', b'U', b'S') {
        Ok(NumberedTag::Entry(EntryTag::Successor))
    } else if is_three(word, b'#', b'U', b'M') {
        Ok(NumberedTag::Entry(EntryTag::Max))
    } else if is(word, b"#UIM") {
        Ok(NumberedTag::Entry(EntryTag::Imax))
    } else if is_three(word, b'#', b'U', b'P') {
        Ok(NumberedTag::Entry(EntryTag::Parameter))
    } else if is_three(word, b'#', b'E', b'Z') {
        Ok(NumberedTag::Entry(EntryTag::Let))
    } else if is_three(word, b'#', b'E', b'J') {
        Ok(NumberedTag::Entry(EntryTag::Project))
    } else if is(word, b"#ELN") {
        Ok(NumberedTag::Entry(EntryTag::NatLiteral))
    } else if is(word, b"#ELS") {
        Ok(NumberedTag::Entry(EntryTag::TextLiteral))
    } else if is_three(word, b'#', b'R', b'R') {
        Ok(NumberedTag::Entry(EntryTag::Rule))
    } else {
        find_own_numbered(dialect, word)
    }
}

// The tag of this word with a number in front, where the dialect has it beside the common ones.
fn find_own_numbered(dialect: Dialect, word: &[u8]) -> Result<NumberedTag, FieldError>
    ensures { Gives numbered_tag result (find_tag (own_numbered_tags dialect) word.now) }
{
    match dialect {
        Dialect::Trace if is_three(word, b'#', b'E', b'F') => Ok(NumberedTag::Local),
        Dialect::Trace if is_three(word, b'#', b'T', b'Y') => {
            Ok(NumberedTag::Derivation(Family::Typing))
        }
        Dialect::Trace if is_three(word, b'#', b'R', b'D') => {
            Ok(NumberedTag::Derivation(Family::Reduction))
        }
        Dialect::Trace if is_three(word, b'#', b'C', b'V') => {
            Ok(NumberedTag::Derivation(Family::Conversion))
        }
        _ => Err(FieldError::Fault(Word::UnknownTag)),
    }
}

// The tag of this word that lines begin with, where the dialect has it beside the common ones.
#[inline(never)]
fn find_own(dialect: Dialect, word: &[u8]) -> Result<PlainTag, FieldError>
    ensures { Gives plain_tag result (find_tag (own_tags dialect) word.now) }
{
    match dialect {
        Dialect::Export if is(word, b"#BUD") => Ok(PlainTag::Budget),
        Dialect::Rounds if is_three(word, b'#', b'G', b'O') => Ok(PlainTag::Go),
        Dialect::Trace if is(word, b"#BUD") => Ok(PlainTag::Budget),
        Dialect::Trace if is_three(word, b'#', b'T', b'R') => Ok(PlainTag::Trace),
        Dialect::Trace if is_three(word, b'#', b'A', b'T') => Ok(PlainTag::Section),
        Dialect::Trace if is_three(word, b'#', b'O', b'K') => Ok(PlainTag::Parts),
        _ => Err(FieldError::Fault(Word::UnknownTag)),
    }
}

#[inline(always)]
fn find_plain(dialect: Dialect, word: &[u8]) -> Result<PlainTag, FieldError>
    ensures { Gives plain_tag result (find_tag (plain_tags dialect) word.now) }
{
    if is(word, b"#THM") {
        Ok(PlainTag::Declaration(DeclarationTag::Theorem))
    } else if is(word, b"#DEF") {
        Ok(PlainTag::Declaration(DeclarationTag::Definition))
    } else if is_three(word, b'#', b'A', b'X') {
        Ok(PlainTag::Declaration(DeclarationTag::Axiom))
    } else if is(word, b"#OPAQ") {
        Ok(PlainTag::Declaration(DeclarationTag::Opaque))
    } else if is(word, b"#QUOT") {
        Ok(PlainTag::Declaration(DeclarationTag::Quotient))
    } else if is(word, b"#IND") {
        Ok(PlainTag::Declaration(DeclarationTag::Inductive))
    } else if is(word, b"#CTOR") {
        Ok(PlainTag::Declaration(DeclarationTag::Constructor))
    } else if is(word, b"#REC") {
        Ok(PlainTag::Declaration(DeclarationTag::Recursor))
    } else {
        find_own(dialect, word)
    }
}

/// The tag behind a line's number, and what is left of the line.
#[inline(always)]
#[tactic(auto, unfolding(crate::specs::Items::tag_at))]
pub(crate) fn tag_behind(dialect: Dialect, line: &[u8]) -> Result<(NumberedTag, &[u8]), FieldError>
    ensures { Gives (λ r. (numbered_tag r.0, fields_of r.1.now)) result
        (tag_at (numbered_tags dialect) (fields_of line.now)) }
{
    if let Some((field, rest)) = short_field(line) {
        return Ok((find_entry(dialect, field)?, rest));
    }
    match next_field(line) {
        None => Err(FieldError::Fault(Word::MissingField)),
        Some((field, rest)) => Ok((find_entry(dialect, field)?, rest)),
    }
}

/// The tag that a line begins with, and what is left of the line.
#[inline(always)]
#[tactic(auto, unfolding(crate::specs::Items::tag_at))]
pub(crate) fn plain_tag(dialect: Dialect, line: &[u8]) -> Result<(PlainTag, &[u8]), FieldError>
    ensures { Gives (λ r. (plain_tag r.0, fields_of r.1.now)) result
        (tag_at (plain_tags dialect) (fields_of line.now)) }
{
    match next_field(line) {
        None => Err(FieldError::Fault(Word::MissingField)),
        Some((field, rest)) => Ok((find_plain(dialect, field)?, rest)),
    }
}
