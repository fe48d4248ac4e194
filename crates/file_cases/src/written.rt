//! What a line tells, written as the format writes it: one space between fields, and numbers
//! without leading zeros. Of the tags those are written whose fields are all the kinds that a field
//! may be due.
use lk_lines::{
    BinderInfo, DeclarationLine, EntryLine, LineError, ReducibilityHint, Statement, read_line,
};
use lk_num::Nat;
use lk_token::next_line;
use std::alloc::Global;
use std::io;

/// Writes numbers behind what is written.
fn write_numbers(rt: &impl Print, numbers: &[u32]) -> io::Result<()> {
    for number in numbers {
        print!(rt; " {number}")?;
    }
    Ok(())
}

/// Writes a tag and the numbers behind it.
fn write_tagged(rt: &impl Print, tag: &'static str, numbers: &[u32]) -> io::Result<()> {
    print!(rt; "{tag}")?;
    write_numbers(rt, numbers)
}

/// Writes a count, and as many numbers.
fn write_counted(rt: &impl Print, numbers: &[u32]) -> io::Result<()> {
    let count = numbers.len();
    print!(rt; " {count}")?;
    write_numbers(rt, numbers)
}

/// Writes a text in quotes, since it may end in spaces.
fn write_text(rt: &impl Print, text: &[u8]) -> io::Result<()> {
    match std::str::from_utf8(text) {
        Ok(text) => print!(rt; " '{text}'"),
        Err(_) => print!(rt; " no text"),
    }
}

/// Writes a number literal. Of one above 2^128 - 1 it is not known which it is.
fn write_literal(rt: &impl Print, number: Nat) -> io::Result<()> {
    match number {
        Nat::Fits(n) => print!(rt; "#ELN {n}"),
        Nat::Wide => print!(rt; "#ELN wide"),
    }
}

/// The tag of a lambda with this info.
fn lambda_tag(info: BinderInfo) -> &'static str {
    match info {
        BinderInfo::Default => "#EL #BD",
        BinderInfo::Implicit => "#EL #BI",
        BinderInfo::StrictImplicit => "#EL #BS",
        BinderInfo::InstImplicit => "#EL #BC",
    }
}

/// Writes an entry behind its number.
fn write_entry(rt: &impl Print, entry: &EntryLine<'_>) -> io::Result<()> {
    match entry {
        EntryLine::NameText { parent, text } => {
            write_tagged(rt, "#NS", &[*parent])?;
            write_text(rt, text)
        }
        EntryLine::NameNumber { parent, component } => print!(rt; "#NI {parent} {component}"),
        EntryLine::Variable { index } => write_tagged(rt, "#EV", &[*index]),
        EntryLine::Constant { name, levels } => {
            write_tagged(rt, "#EC", &[*name])?;
            write_numbers(rt, levels)
        }
        EntryLine::Apply { function, argument } => write_tagged(rt, "#EA", &[*function, *argument]),
        EntryLine::Lambda {
            info,
            name,
            binder_type,
            body,
        } => write_tagged(rt, lambda_tag(*info), &[*name, *binder_type, *body]),
        EntryLine::Project {
            structure,
            field,
            subject,
        } => write_tagged(rt, "#EJ", &[*structure, *field, *subject]),
        EntryLine::NatLiteral(number) => write_literal(rt, **number),
        EntryLine::TextLiteral { text } => {
            write_tagged(rt, "#ELS", &[])?;
            write_text(rt, text)
        }
        _ => print!(rt; "another entry"),
    }
}

fn write_hint(rt: &impl Print, hint: ReducibilityHint) -> io::Result<()> {
    match hint {
        ReducibilityHint::Opaque => print!(rt; " O"),
        ReducibilityHint::Abbreviation => print!(rt; " A"),
        ReducibilityHint::Regular(height) => print!(rt; " R {height}"),
    }
}

/// Writes what a line declares.
fn write_declaration(rt: &impl Print, declaration: &DeclarationLine) -> io::Result<()> {
    match declaration {
        DeclarationLine::Axiom {
            name,
            declared_type,
            parameters,
        } => {
            write_tagged(rt, "#AX", &[*name, *declared_type])?;
            write_numbers(rt, parameters)
        }
        DeclarationLine::Definition {
            name,
            declared_type,
            value,
            hint,
            parameters,
        } => {
            write_tagged(rt, "#DEF", &[*name, *declared_type, *value])?;
            write_hint(rt, *hint)?;
            write_numbers(rt, parameters)
        }
        DeclarationLine::Theorem {
            name,
            declared_type,
            value,
            parameters,
        } => {
            write_tagged(rt, "#THM", &[*name, *declared_type, *value])?;
            write_numbers(rt, parameters)
        }
        DeclarationLine::Quotient {
            name,
            declared_type,
            parameters,
        } => {
            write_tagged(rt, "#QUOT", &[*name, *declared_type])?;
            write_numbers(rt, parameters)
        }
        DeclarationLine::Recursor(line) => {
            let counts = [
                line.parameter_count,
                line.index_count,
                line.motive_count,
                line.minor_count,
            ];
            write_tagged(rt, "#REC", &[line.name, line.declared_type])?;
            write_counted(rt, &line.types)?;
            write_numbers(rt, &counts)?;
            write_counted(rt, &line.rules)?;
            write_numbers(rt, &[u32::from(line.k)])?;
            write_numbers(rt, &line.parameters)
        }
        _ => print!(rt; "another declaration"),
    }
}

/// Writes what a line tells.
fn write_statement(rt: &impl Print, statement: &Statement<'_>) -> io::Result<()> {
    match statement {
        Statement::Blank => print!(rt; "blank"),
        Statement::Version => print!(rt; "version"),
        Statement::Entry { own, entry } => {
            print!(rt; "{own} ")?;
            write_entry(rt, entry)
        }
        Statement::Declaration(declaration) => write_declaration(rt, declaration),
        Statement::Budget { name, steps } => print!(rt; "#BUD {name} {steps}"),
        Statement::Go => print!(rt; "#GO"),
        _ => print!(rt; "another statement"),
    }
}

/// Writes what the first line of a text tells as a line that is not the file's first one, or its
/// fault.
pub fn write_line(rt: &impl Print, alloc: Global, text: &[u8]) -> io::Result<()> {
    let Ok(Some(end)) = next_line(text, true) else {
        return print!(rt; "no line");
    };
    let (line, _) = text.split_at(end);
    match read_line(alloc, 2, false, line) {
        Ok(line) => write_statement(rt, &line.statement),
        Err(LineError::NoMemory) => print!(rt; "no memory"),
        Err(LineError::Fault(fault)) => print!(rt; "{}", fault.word.text()),
    }
}
