ghost use Rattle.std.specs.Prelude.{◌≡◌, ◌∷◌, ℕ, List, IfOk, Some, None};
ghost use Rattle.lk_token.specs.Fields.{fields_of, text_behind};
ghost use Rattle.lk_token.specs.Lines.{HasNoLineFeed};
ghost use Rattle.lk_lines.specs.Told.{Gives};
ghost use Rattle.lk_lines.specs.LineFeeds.{NamesHaveNoLineFeed};
ghost use Rattle.lk_lines.specs.Lines.{Tells, TellsBy};
ghost use Rattle.lk_lines.specs.declared.tags.Tag.{Tag};
ghost use Rattle.lk_lines.specs.Items.{is_tag, numbered_at, plain_at, item_behind};
ghost use Rattle.lk_lines.specs.Says.{as_item, item_said, said_at, said_below, said_in, said_of};
ghost use Rattle.lk_lines.specs.Views.{says_of};

use crate::declarations::read_declaration;
use crate::derivations::read_derivation;
use crate::entries::read_entry;
use crate::steps::{FieldError, end, long, number, numbers_left};
use crate::tags::{NumberedTag, PlainTag, plain_tag, tag_behind};
use crate::version::{is_two, version_of};
use crate::{
    DeclarationTag, Dialect, EntryTag, Family, Fault, FileLine, FileNumber, LineError, Statement,
    Tag, Word,
};
use lk_token::first_byte;
use std::alloc::Global;

// What a line defines behind its number and the tag of an entry.
#[inline(always)]
fn entry<'b, N: FileNumber>(
    alloc: Global,
    own: N,
    tag: EntryTag,
    line: &'b [u8],
    rest: &[u8],
) -> Result<Statement<'b, N>, FieldError>
    ensures { Gives (says_of N.view) result (as_item (item_behind N.view.limit
        (Some (N.view.value own)) (Tag.Entry tag) (text_behind line.now) (fields_of rest.now))) }
{
    let entry = read_entry(alloc, tag, line, rest)?;
    Ok(Statement::Entry { own, entry })
}

// What a line defines behind its number and `#EF`.
#[inline(always)]
fn local<N: FileNumber>(own: N, line: &[u8]) -> Result<Statement<'static, N>, FieldError>
    ensures { (text : List ℕ) → Gives (says_of N.view) result (as_item (item_behind N.view.limit
        (Some (N.view.value own)) Tag.Local text (fields_of line.now))) }
{
    let (number_of, rest) = number(line)?;
    let (declared_type, rest) = number(rest)?;
    end(rest)?;
    Ok(Statement::Local {
        own,
        number: number_of,
        declared_type,
    })
}

// What a line states behind its number and the tag of a derivation.
#[inline(always)]
fn derivation<N: FileNumber>(
    alloc: Global,
    own: N,
    family: Family,
    line: &[u8],
) -> Result<Statement<'static, N>, FieldError>
    ensures { (text : List ℕ) → Gives (says_of N.view) result (as_item (item_behind N.view.limit
        (Some (N.view.value own)) (Tag.Derivation family) text (fields_of line.now))) }
{
    let line = read_derivation(alloc, family, line)?;
    let line = Box::new(alloc, line)?;
    Ok(Statement::Derivation { own, line })
}

// A line that begins with a number.
#[inline(always)]
#[tactic(auto, unfolding(crate::specs::Items::numbered_at))]
fn numbered<N: FileNumber>(
    alloc: Global,
    dialect: Dialect,
    line: &[u8],
) -> Result<Statement<'_, N>, FieldError>
    ensures { Gives (says_of N.view) result
        (as_item (numbered_at N.view.limit dialect (text_behind line.now) (fields_of line.now))) }
{
    let (own, rest) = number(line)?;
    let (tag, rest) = tag_behind(dialect, rest)?;
    match tag {
        NumberedTag::Entry(tag) => entry(alloc, own, tag, line, rest),
        NumberedTag::Local => local(own, rest),
        NumberedTag::Derivation(family) => derivation(alloc, own, family, rest),
    }
}

// What a line states behind `#BUD`.
fn budget<N: FileNumber>(line: &[u8]) -> Result<Statement<'static, N>, FieldError>
    ensures { (text : List ℕ) → Gives (says_of N.view) result
        (as_item (item_behind N.view.limit None Tag.Budget text (fields_of line.now))) }
{
    let (name, rest) = number(line)?;
    let (steps, rest) = long(rest)?;
    end(rest)?;
    Ok(Statement::Budget { name, steps })
}

// What a line declares behind its tag.
fn declaration<N: FileNumber>(
    alloc: Global,
    tag: DeclarationTag,
    line: &[u8],
) -> Result<Statement<'static, N>, FieldError>
    ensures { (text : List ℕ) → Gives (says_of N.view) result
        (as_item (item_behind N.view.limit None (Tag.Declaration tag) text (fields_of line.now))) }
{
    let declaration = read_declaration(alloc, tag, line)?;
    Ok(Statement::Declaration(declaration))
}

// What a line states that is `#GO`.
fn go<N: FileNumber>(line: &[u8]) -> Result<Statement<'static, N>, FieldError>
    ensures { (text : List ℕ) → Gives (says_of N.view) result
        (as_item (item_behind N.view.limit None Tag.Go text (fields_of line.now))) }
{
    end(line)?;
    Ok(Statement::Go)
}

// What a line states that is `#TR`.
fn trace<N: FileNumber>(line: &[u8]) -> Result<Statement<'static, N>, FieldError>
    ensures { (text : List ℕ) → Gives (says_of N.view) result
        (as_item (item_behind N.view.limit None Tag.Trace text (fields_of line.now))) }
{
    end(line)?;
    Ok(Statement::Trace)
}

// What a line states behind `#AT`.
fn section<N: FileNumber>(line: &[u8]) -> Result<Statement<'static, N>, FieldError>
    ensures { (text : List ℕ) → Gives (says_of N.view) result
        (as_item (item_behind N.view.limit None Tag.Section text (fields_of line.now))) }
{
    let (unit, rest) = number(line)?;
    end(rest)?;
    Ok(Statement::Section { unit })
}

// What a line states behind `#OK`.
fn parts<N: FileNumber>(alloc: Global, line: &[u8]) -> Result<Statement<'static, N>, FieldError>
    ensures { (text : List ℕ) → Gives (says_of N.view) result
        (as_item (item_behind N.view.limit None Tag.Parts text (fields_of line.now))) }
{
    let premises = numbers_left(alloc, line)?;
    Ok(Statement::Parts { premises })
}

// A line that begins with its tag.
#[inline(never)]
#[tactic(auto, unfolding(crate::specs::Items::plain_at))]
fn plain<N: FileNumber>(
    alloc: Global,
    dialect: Dialect,
    line: &[u8],
) -> Result<Statement<'_, N>, FieldError>
    ensures { (text : List ℕ) → Gives (says_of N.view) result
        (as_item (plain_at N.view.limit dialect text (fields_of line.now))) }
{
    let (tag, rest) = plain_tag(dialect, line)?;
    match tag {
        PlainTag::Declaration(tag) => declaration(alloc, tag, rest),
        PlainTag::Budget => budget(rest),
        PlainTag::Go => go(rest),
        PlainTag::Trace => trace(rest),
        PlainTag::Section => section(rest),
        PlainTag::Parts => parts(alloc, rest),
    }
}

// What a line says that is neither blank nor the version. Its first field begins with `byte`.
#[inline(always)]
#[tactic(auto, unfolding(crate::specs::Items::item_at))]
fn item<N: FileNumber>(
    alloc: Global,
    dialect: Dialect,
    byte: u8,
    line: &[u8],
) -> Result<Statement<'_, N>, FieldError>
    ensures { (field : List ℕ) (fields : List (List ℕ))
        → fields_of line.now ≡ (byte ∷ field) ∷ fields
        → Gives (says_of N.view) result
        (item_said N.view.limit dialect (text_behind line.now) (fields_of line.now)) }
{
    if byte == b'#' {
        plain(alloc, dialect, line)
    } else {
        numbered(alloc, dialect, line)
    }
}

// What a line says.
#[inline(always)]
#[tactic(auto, unfolding(crate::specs::Says::said_at))]
fn read_statement<N: FileNumber>(
    alloc: Global,
    dialect: Dialect,
    first: bool,
    line: &[u8],
) -> Result<Statement<'_, N>, FieldError>
    ensures { Gives (says_of N.view) result
        (said_at N.view.limit dialect first (text_behind line.now) (fields_of line.now)) }
{
    let Some(byte) = first_byte(line) else {
        return Ok(Statement::Blank);
    };
    if first {
        match version_of(alloc, line) {
            Err(_) => return Err(FieldError::NoMemory),
            Ok(Some(n)) => {
                if is_two(n) {
                    return Ok(Statement::Version);
                }
                return Err(FieldError::Fault(Word::BadVersion));
            }
            Ok(None) => {}
        }
    }
    item(alloc, dialect, byte, line)
}

/// What line `number` of a file says in a dialect, or its first fault. Its numbers are of type `N`,
/// and one that is larger is a fault.
///
/// `bytes` are the line up to its line feed or the end of the file; `first` says that only blank
/// lines stand before it, so that it may be the version. Fields are read from left to right: a due
/// field may be missing, then of the wrong kind, then too large; a text is tested behind its last
/// field; a field too many comes last. A tag that the dialect does not have is unknown. The length
/// of the line is not looked at (`limit_fault`).
///
/// The text of a name is a slice of the line, and the fields are found as they are read: memory is
/// taken for lists of numbers, for text literals and for what is boxed alone.
#[inline(always)]
#[tactic(auto, unfolding(crate::specs::Says::said_below))]
pub fn read_line_below<N: FileNumber>(
    alloc: Global,
    dialect: Dialect,
    number: u64,
    first: bool,
    bytes: &[u8],
) -> Result<FileLine<'_, N>, LineError>
    requires { HasNoLineFeed bytes.now }
    ensures tells { TellsBy N.view number result (said_below N.view.limit dialect first bytes.now) }
    ensures names { IfOk result (λ line. NamesHaveNoLineFeed line.statement) }
{
    match read_statement(alloc, dialect, first, bytes) {
        Ok(statement) => Ok(FileLine { number, statement }),
        Err(FieldError::NoMemory) => Err(LineError::NoMemory),
        Err(FieldError::Fault(word)) => Err(LineError::Fault(Fault { line: number, word })),
    }
}

/// The same of a line whose numbers have 32 bits, as all have but those behind `#TR`.
#[inline(always)]
pub fn read_line_in(
    alloc: Global,
    dialect: Dialect,
    number: u64,
    first: bool,
    bytes: &[u8],
) -> Result<FileLine<'_>, LineError>
    requires { HasNoLineFeed bytes.now }
    ensures tells { Tells number result (said_in dialect first bytes.now) }
    ensures names { IfOk result (λ line. NamesHaveNoLineFeed line.statement) }
{
    read_line_below(alloc, dialect, number, first, bytes)
}

/// What line `number` of an export says, or its first fault.
pub fn read_line(
    alloc: Global,
    number: u64,
    first: bool,
    bytes: &[u8],
) -> Result<FileLine<'_>, LineError>
    requires { HasNoLineFeed bytes.now }
    ensures tells { Tells number result (said_of first bytes.now) }
    ensures names { IfOk result (λ line. NamesHaveNoLineFeed line.statement) }
{
    read_line_in(alloc, Dialect::Export, number, first, bytes)
}
