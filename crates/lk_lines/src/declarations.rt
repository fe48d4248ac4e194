//! Lines that begin with their tag, one reader for each. `line` is what is left of the line behind
//! the tag.
ghost use Rattle.std.specs.Prelude.{◌≡◌, ℕ, List, IfOk};
ghost use Rattle.lk_token.specs.Fields.{fields_of};
ghost use Rattle.lk_lines.specs.Views.{GivesDeclaration, declaration_tag};

use crate::steps::{FieldError, counted, flag, hint, number, numbers_left};
use crate::{ConstructorLine, DeclarationLine, DeclarationTag, FileNumber, RecursorLine, TypeLine};
use std::alloc::Global;

fn axiom<N: FileNumber>(alloc: Global, line: &[u8]) -> Result<DeclarationLine<N>, FieldError>
    ensures values { (text : List ℕ) →
        GivesDeclaration N.view DeclarationTag.Axiom text (fields_of line.now) result }
    ensures tag { IfOk result (λ e. declaration_tag e ≡ DeclarationTag.Axiom) }
{
    let (name, rest) = number(line)?;
    let (declared_type, rest) = number(rest)?;
    let parameters = numbers_left(alloc, rest)?;
    Ok(DeclarationLine::Axiom {
        name,
        declared_type,
        parameters,
    })
}

fn definition<N: FileNumber>(alloc: Global, line: &[u8]) -> Result<DeclarationLine<N>, FieldError>
    ensures values { (text : List ℕ) →
        GivesDeclaration N.view DeclarationTag.Definition text (fields_of line.now) result }
    ensures tag { IfOk result (λ e. declaration_tag e ≡ DeclarationTag.Definition) }
{
    let (name, rest) = number(line)?;
    let (declared_type, rest) = number(rest)?;
    let (value, rest) = number(rest)?;
    let (hint, rest) = hint(rest)?;
    let parameters = numbers_left(alloc, rest)?;
    Ok(DeclarationLine::Definition {
        name,
        declared_type,
        value,
        hint,
        parameters,
    })
}

fn theorem<N: FileNumber>(alloc: Global, line: &[u8]) -> Result<DeclarationLine<N>, FieldError>
    ensures values { (text : List ℕ) →
        GivesDeclaration N.view DeclarationTag.Theorem text (fields_of line.now) result }
    ensures tag { IfOk result (λ e. declaration_tag e ≡ DeclarationTag.Theorem) }
{
    let (name, rest) = number(line)?;
    let (declared_type, rest) = number(rest)?;
    let (value, rest) = number(rest)?;
    let parameters = numbers_left(alloc, rest)?;
    Ok(DeclarationLine::Theorem {
        name,
        declared_type,
        value,
        parameters,
    })
}

fn opaque<N: FileNumber>(alloc: Global, line: &[u8]) -> Result<DeclarationLine<N>, FieldError>
    ensures values { (text : List ℕ) →
        GivesDeclaration N.view DeclarationTag.Opaque text (fields_of line.now) result }
    ensures tag { IfOk result (λ e. declaration_tag e ≡ DeclarationTag.Opaque) }
{
    let (name, rest) = number(line)?;
    let (declared_type, rest) = number(rest)?;
    let (value, rest) = number(rest)?;
    let parameters = numbers_left(alloc, rest)?;
    Ok(DeclarationLine::Opaque {
        name,
        declared_type,
        value,
        parameters,
    })
}

fn quotient<N: FileNumber>(alloc: Global, line: &[u8]) -> Result<DeclarationLine<N>, FieldError>
    ensures values { (text : List ℕ) →
        GivesDeclaration N.view DeclarationTag.Quotient text (fields_of line.now) result }
    ensures tag { IfOk result (λ e. declaration_tag e ≡ DeclarationTag.Quotient) }
{
    let (name, rest) = number(line)?;
    let (declared_type, rest) = number(rest)?;
    let parameters = numbers_left(alloc, rest)?;
    Ok(DeclarationLine::Quotient {
        name,
        declared_type,
        parameters,
    })
}

fn inductive<N: FileNumber>(alloc: Global, line: &[u8]) -> Result<DeclarationLine<N>, FieldError>
    ensures values { (text : List ℕ) →
        GivesDeclaration N.view DeclarationTag.Inductive text (fields_of line.now) result }
    ensures tag { IfOk result (λ e. declaration_tag e ≡ DeclarationTag.Inductive) }
{
    let (name, rest) = number(line)?;
    let (declared_type, rest) = number(rest)?;
    let (recursive, rest) = number(rest)?;
    let (nested, rest) = number(rest)?;
    let (parameter_count, rest) = number(rest)?;
    let (index_count, rest) = number(rest)?;
    let (types, rest) = counted(alloc, rest)?;
    let (constructors, rest) = counted(alloc, rest)?;
    let parameters = numbers_left(alloc, rest)?;
    let stated = Box::new(
        alloc,
        TypeLine {
            name,
            declared_type,
            recursive,
            nested,
            parameter_count,
            index_count,
            types,
            constructors,
            parameters,
        },
    )?;
    Ok(DeclarationLine::Inductive(stated))
}

fn constructor<N: FileNumber>(alloc: Global, line: &[u8]) -> Result<DeclarationLine<N>, FieldError>
    ensures values { (text : List ℕ) →
        GivesDeclaration N.view DeclarationTag.Constructor text (fields_of line.now) result }
    ensures tag { IfOk result (λ e. declaration_tag e ≡ DeclarationTag.Constructor) }
{
    let (name, rest) = number(line)?;
    let (declared_type, rest) = number(rest)?;
    let (parent, rest) = number(rest)?;
    let (place, rest) = number(rest)?;
    let (parameter_count, rest) = number(rest)?;
    let (field_count, rest) = number(rest)?;
    let parameters = numbers_left(alloc, rest)?;
    let stated = Box::new(
        alloc,
        ConstructorLine {
            name,
            declared_type,
            parent,
            place,
            parameter_count,
            field_count,
            parameters,
        },
    )?;
    Ok(DeclarationLine::Constructor(stated))
}

fn recursor<N: FileNumber>(alloc: Global, line: &[u8]) -> Result<DeclarationLine<N>, FieldError>
    ensures values { (text : List ℕ) →
        GivesDeclaration N.view DeclarationTag.Recursor text (fields_of line.now) result }
    ensures tag { IfOk result (λ e. declaration_tag e ≡ DeclarationTag.Recursor) }
{
    let (name, rest) = number(line)?;
    let (declared_type, rest) = number(rest)?;
    let (types, rest) = counted(alloc, rest)?;
    let (parameter_count, rest) = number(rest)?;
    let (index_count, rest) = number(rest)?;
    let (motive_count, rest) = number(rest)?;
    let (minor_count, rest) = number(rest)?;
    let (rules, rest) = counted(alloc, rest)?;
    let (k, rest) = flag(rest)?;
    let parameters = numbers_left(alloc, rest)?;
    let stated = Box::new(
        alloc,
        RecursorLine {
            name,
            declared_type,
            types,
            parameter_count,
            index_count,
            motive_count,
            minor_count,
            rules,
            k,
            parameters,
        },
    )?;
    Ok(DeclarationLine::Recursor(stated))
}

/// What stands behind a tag.
pub(crate) fn read_declaration<N: FileNumber>(
    alloc: Global,
    tag: DeclarationTag,
    line: &[u8],
) -> Result<DeclarationLine<N>, FieldError>
    ensures values { (text : List ℕ) →
        GivesDeclaration N.view tag text (fields_of line.now) result }
    ensures tag { IfOk result (λ d. declaration_tag d ≡ tag) }
{
    match tag {
        DeclarationTag::Axiom => axiom(alloc, line),
        DeclarationTag::Definition => definition(alloc, line),
        DeclarationTag::Theorem => theorem(alloc, line),
        DeclarationTag::Opaque => opaque(alloc, line),
        DeclarationTag::Quotient => quotient(alloc, line),
        DeclarationTag::Inductive => inductive(alloc, line),
        DeclarationTag::Constructor => constructor(alloc, line),
        DeclarationTag::Recursor => recursor(alloc, line),
    }
}
