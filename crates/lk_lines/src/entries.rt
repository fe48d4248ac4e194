//! Lines that define a number, one reader for each tag. `line` is what is left of the line behind
//! the tag, and `raw` the whole line. The readers of rarer tags are calls, so that what is left of a
//! line's way is small enough to be one piece of code with what calls it.
ghost use Rattle.std.specs.Prelude.{◌≡◌, ℕ, List, IfOk};
ghost use Rattle.lk_token.specs.Fields.{fields_of, text_behind};
ghost use Rattle.lk_lines.specs.Views.{GivesEntry, entry_tag};

use crate::steps::{FieldError, end, hex, info, literal, long, number, numbers_left, text};
use crate::{EntryLine, EntryTag, FileNumber};
use lk_token::text_behind;
use std::alloc::Global;

#[inline(always)]
fn name_text<'b, N: FileNumber>(raw: &'b [u8], line: &[u8]) -> Result<EntryLine<'b, N>, FieldError>
    ensures values { GivesEntry N.view EntryTag.NameText (text_behind raw.now)
        (fields_of line.now) result }
    ensures tag { IfOk result (λ e. entry_tag e ≡ EntryTag.NameText) }
{
    let (parent, _) = number(line)?;
    let text = text(text_behind(raw))?;
    Ok(EntryLine::NameText { parent, text })
}

#[inline(never)]
fn name_number<N: FileNumber>(line: &[u8]) -> Result<EntryLine<'static, N>, FieldError>
    ensures values { (text : List ℕ) →
        GivesEntry N.view EntryTag.NameNumber text (fields_of line.now) result }
    ensures tag { IfOk result (λ e. entry_tag e ≡ EntryTag.NameNumber) }
{
    let (parent, rest) = number(line)?;
    let (component, rest) = long(rest)?;
    end(rest)?;
    Ok(EntryLine::NameNumber { parent, component })
}

#[inline(never)]
fn successor<N: FileNumber>(line: &[u8]) -> Result<EntryLine<'static, N>, FieldError>
    ensures values { (text : List ℕ) →
        GivesEntry N.view EntryTag.Successor text (fields_of line.now) result }
    ensures tag { IfOk result (λ e. entry_tag e ≡ EntryTag.Successor) }
{
    let (level, rest) = number(line)?;
    end(rest)?;
    Ok(EntryLine::Successor { level })
}

#[inline(never)]
fn max<N: FileNumber>(line: &[u8]) -> Result<EntryLine<'static, N>, FieldError>
    ensures values { (text : List ℕ) →
        GivesEntry N.view EntryTag.Max text (fields_of line.now) result }
    ensures tag { IfOk result (λ e. entry_tag e ≡ EntryTag.Max) }
{
    let (left, rest) = number(line)?;
    let (right, rest) = number(rest)?;
    end(rest)?;
    Ok(EntryLine::Max { left, right })
}

#[inline(never)]
fn imax<N: FileNumber>(line: &[u8]) -> Result<EntryLine<'static, N>, FieldError>
    ensures values { (text : List ℕ) →
        GivesEntry N.view EntryTag.Imax text (fields_of line.now) result }
    ensures tag { IfOk result (λ e. entry_tag e ≡ EntryTag.Imax) }
{
    let (left, rest) = number(line)?;
    let (right, rest) = number(rest)?;
    end(rest)?;
    Ok(EntryLine::Imax { left, right })
}

#[inline(never)]
fn parameter<N: FileNumber>(line: &[u8]) -> Result<EntryLine<'static, N>, FieldError>
    ensures values { (text : List ℕ) →
        GivesEntry N.view EntryTag.Parameter text (fields_of line.now) result }
    ensures tag { IfOk result (λ e. entry_tag e ≡ EntryTag.Parameter) }
{
    let (name, rest) = number(line)?;
    end(rest)?;
    Ok(EntryLine::Parameter { name })
}

#[inline(always)]
fn variable<N: FileNumber>(line: &[u8]) -> Result<EntryLine<'static, N>, FieldError>
    ensures values { (text : List ℕ) →
        GivesEntry N.view EntryTag.Variable text (fields_of line.now) result }
    ensures tag { IfOk result (λ e. entry_tag e ≡ EntryTag.Variable) }
{
    let (index, rest) = number(line)?;
    end(rest)?;
    Ok(EntryLine::Variable { index })
}

#[inline(always)]
fn sort<N: FileNumber>(line: &[u8]) -> Result<EntryLine<'static, N>, FieldError>
    ensures values { (text : List ℕ) →
        GivesEntry N.view EntryTag.Sort text (fields_of line.now) result }
    ensures tag { IfOk result (λ e. entry_tag e ≡ EntryTag.Sort) }
{
    let (level, rest) = number(line)?;
    end(rest)?;
    Ok(EntryLine::Sort { level })
}

#[inline(never)]
fn constant<N: FileNumber>(alloc: Global, line: &[u8]) -> Result<EntryLine<'static, N>, FieldError>
    ensures values { (text : List ℕ) →
        GivesEntry N.view EntryTag.Constant text (fields_of line.now) result }
    ensures tag { IfOk result (λ e. entry_tag e ≡ EntryTag.Constant) }
{
    let (name, rest) = number(line)?;
    let levels = numbers_left(alloc, rest)?;
    Ok(EntryLine::Constant { name, levels })
}

#[inline(always)]
fn apply<N: FileNumber>(line: &[u8]) -> Result<EntryLine<'static, N>, FieldError>
    ensures values { (text : List ℕ) →
        GivesEntry N.view EntryTag.Apply text (fields_of line.now) result }
    ensures tag { IfOk result (λ e. entry_tag e ≡ EntryTag.Apply) }
{
    let (function, rest) = number(line)?;
    let (argument, rest) = number(rest)?;
    end(rest)?;
    Ok(EntryLine::Apply { function, argument })
}

#[inline(always)]
fn lambda<N: FileNumber>(line: &[u8]) -> Result<EntryLine<'static, N>, FieldError>
    ensures values { (text : List ℕ) →
        GivesEntry N.view EntryTag.Lambda text (fields_of line.now) result }
    ensures tag { IfOk result (λ e. entry_tag e ≡ EntryTag.Lambda) }
{
    let (info, rest) = info(line)?;
    let (name, rest) = number(rest)?;
    let (binder_type, rest) = number(rest)?;
    let (body, rest) = number(rest)?;
    end(rest)?;
    Ok(EntryLine::Lambda {
        info,
        name,
        binder_type,
        body,
    })
}

#[inline(always)]
fn pi<N: FileNumber>(line: &[u8]) -> Result<EntryLine<'static, N>, FieldError>
    ensures values { (text : List ℕ) →
        GivesEntry N.view EntryTag.Pi text (fields_of line.now) result }
    ensures tag { IfOk result (λ e. entry_tag e ≡ EntryTag.Pi) }
{
    let (info, rest) = info(line)?;
    let (name, rest) = number(rest)?;
    let (binder_type, rest) = number(rest)?;
    let (body, rest) = number(rest)?;
    end(rest)?;
    Ok(EntryLine::Pi {
        info,
        name,
        binder_type,
        body,
    })
}

#[inline(never)]
fn let_in<N: FileNumber>(line: &[u8]) -> Result<EntryLine<'static, N>, FieldError>
    ensures values { (text : List ℕ) →
        GivesEntry N.view EntryTag.Let text (fields_of line.now) result }
    ensures tag { IfOk result (λ e. entry_tag e ≡ EntryTag.Let) }
{
    let (name, rest) = number(line)?;
    let (binder_type, rest) = number(rest)?;
    let (value, rest) = number(rest)?;
    let (body, rest) = number(rest)?;
    end(rest)?;
    Ok(EntryLine::Let {
        name,
        binder_type,
        value,
        body,
    })
}

#[inline(never)]
fn project<N: FileNumber>(line: &[u8]) -> Result<EntryLine<'static, N>, FieldError>
    ensures values { (text : List ℕ) →
        GivesEntry N.view EntryTag.Project text (fields_of line.now) result }
    ensures tag { IfOk result (λ e. entry_tag e ≡ EntryTag.Project) }
{
    let (structure, rest) = number(line)?;
    let (field, rest) = number(rest)?;
    let (subject, rest) = number(rest)?;
    end(rest)?;
    Ok(EntryLine::Project {
        structure,
        field,
        subject,
    })
}

#[inline(never)]
fn nat_literal<N: FileNumber>(
    alloc: Global,
    line: &[u8],
) -> Result<EntryLine<'static, N>, FieldError>
    ensures values { (text : List ℕ) →
        GivesEntry N.view EntryTag.NatLiteral text (fields_of line.now) result }
    ensures tag { IfOk result (λ e. entry_tag e ≡ EntryTag.NatLiteral) }
{
    let (number, rest) = literal(line)?;
    end(rest)?;
    let number = Box::new(alloc, number)?;
    Ok(EntryLine::NatLiteral(number))
}

#[inline(never)]
fn text_literal<N: FileNumber>(
    alloc: Global,
    line: &[u8],
) -> Result<EntryLine<'static, N>, FieldError>
    ensures values { (text : List ℕ) →
        GivesEntry N.view EntryTag.TextLiteral text (fields_of line.now) result }
    ensures tag { IfOk result (λ e. entry_tag e ≡ EntryTag.TextLiteral) }
{
    let text = hex(alloc, line)?;
    Ok(EntryLine::TextLiteral { text })
}

#[inline(never)]
fn rule<N: FileNumber>(line: &[u8]) -> Result<EntryLine<'static, N>, FieldError>
    ensures values { (text : List ℕ) →
        GivesEntry N.view EntryTag.Rule text (fields_of line.now) result }
    ensures tag { IfOk result (λ e. entry_tag e ≡ EntryTag.Rule) }
{
    let (constructor, rest) = number(line)?;
    let (field_count, rest) = number(rest)?;
    let (value, rest) = number(rest)?;
    end(rest)?;
    Ok(EntryLine::Rule {
        constructor,
        field_count,
        value,
    })
}

/// What stands behind a tag.
#[inline(always)]
pub(crate) fn read_entry<'b, N: FileNumber>(
    alloc: Global,
    tag: EntryTag,
    raw: &'b [u8],
    line: &[u8],
) -> Result<EntryLine<'b, N>, FieldError>
    ensures values { GivesEntry N.view tag (text_behind raw.now) (fields_of line.now) result }
    ensures tag { IfOk result (λ e. entry_tag e ≡ tag) }
{
    match tag {
        EntryTag::NameText => name_text(raw, line),
        EntryTag::NameNumber => name_number(line),
        EntryTag::Successor => successor(line),
        EntryTag::Max => max(line),
        EntryTag::Imax => imax(line),
        EntryTag::Parameter => parameter(line),
        EntryTag::Variable => variable(line),
        EntryTag::Sort => sort(line),
        EntryTag::Constant => constant(alloc, line),
        EntryTag::Apply => apply(line),
        EntryTag::Lambda => lambda(line),
        EntryTag::Pi => pi(line),
        EntryTag::Let => let_in(line),
        EntryTag::Project => project(line),
        EntryTag::NatLiteral => nat_literal(alloc, line),
        EntryTag::TextLiteral => text_literal(alloc, line),
        EntryTag::Rule => rule(line),
    }
}
