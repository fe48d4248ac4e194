//! The lines of levels.

ghost use Rattle.std.specs.Prelude.{◌≡◌, ◌<◌, ◌++◌, ◌∷◌, length, map, OnOk};
ghost use Rattle.lk_store.specs.Contents.{level_at, level_of, list_at, IsLevelIn};
ghost use Rattle.lk_trim.specs.Written.{fields};
ghost use Rattle.lk_trim.specs.Levels.{has_level, level_number, level_fields, add_level};
ghost use Rattle.lk_trim.specs.Levels.{write_level, write_levels};
ghost use Rattle.lk_trim.specs.Stored.{written_at, file_at, AreNumbersIn, Writes, is_zero};
ghost use Rattle.lk_trim.specs.Walks.{IsEntered, level_walk, level_parts, level_label};
ghost use Rattle.lk_trim.specs.declared.visit.Visit.TheVariants as visit;

use crate::fields::{add_field, add_number, add_row};
use crate::names::{name_number, write_name};
use crate::numbers::{Numbers, Writer};
use crate::visit::{Visit, push};
use lk_store::memory::NoMemory;
use lk_store::node::{LevelNode, ListNode};
use lk_store::terms::Terms;
use std::alloc::Global;

/// Whether a level is level 0 itself, which has no line.
fn is_zero<T: Terms>(store: &T, level: u64) -> bool
    requires { level < length (T.contents store.now).levels }
    ensures { result ≡ is_zero (level_at (T.contents store.now) level) }
{
    matches!(store.level(level), LevelNode::Zero)
}

/// Whether a level has its line, or needs none.
fn has_level<T: Terms>(store: &T, numbers: &Numbers, level: u64) -> bool
    requires numbers { AreNumbersIn (T.contents store.now) numbers.now }
    requires level_in { level < length (T.contents store.now).levels }
    ensures { let c = T.contents store.now in
        result ≡ has_level (written_at c numbers.now) (level_at c level) }
{
    if is_zero(store, level) {
        return true;
    }
    numbers.levels.has(level)
}

/// The number of a level.
pub(crate) fn level_number<T: Terms>(store: &T, numbers: &Numbers, level: u64) -> u64
    requires numbers { AreNumbersIn (T.contents store.now) numbers.now }
    requires level_in { level < length (T.contents store.now).levels }
    ensures { let c = T.contents store.now in
        result ≡ level_number (written_at c numbers.now) (level_at c level) }
{
    if is_zero(store, level) {
        return 0;
    }
    numbers.levels.place_from_one(level)
}

/// Appends the numbers of a list of levels.
pub(crate) fn add_level_numbers<T: Terms>(
    out: &mut Vec<u8>,
    store: &T,
    numbers: &Numbers,
    list: u64,
) -> Result<(), NoMemory>
    requires numbers { AreNumbersIn (T.contents store.now) numbers.now }
    requires list_in { list < length (T.contents store.now).lists }
    ensures { let c = T.contents store.now in
        OnOk result (out.new.items ≡ out.old.items
        ++ fields (map (level_number (written_at c numbers.now)) (list_at c list))) }
{
    let mut at = list;
    'all: loop {
        match store.levels(at) {
            ListNode::Empty => return Ok(()),
            ListNode::Cons(level, rest) => {
                add_field(out, level_number(store, numbers, level))?;
                at = rest;
            }
        }
    }
}

/// Appends what the line of a level says behind its number.
fn add_node<T: Terms>(
    out: &mut Vec<u8>,
    store: &T,
    numbers: &Numbers,
    node: LevelNode,
) -> Result<(), NoMemory>
    requires numbers { AreNumbersIn (T.contents store.now) numbers.now }
    requires node_in { IsLevelIn (T.contents store.now) node }
    ensures { let c = T.contents store.now in
        OnOk result (out.new.items ≡ out.old.items
        ++ level_fields (written_at c numbers.now) (level_of c node)) }
{
    match node {
        LevelNode::Zero => Ok(()),
        LevelNode::Succ(l) => add_row(out, b" #US", &[level_number(store, numbers, l)]),
        LevelNode::Max(l, m) => {
            let parts = [
                level_number(store, numbers, l),
                level_number(store, numbers, m),
            ];
            add_row(out, b" #UM", &parts)
        }
        LevelNode::IMax(l, m) => {
            let parts = [
                level_number(store, numbers, l),
                level_number(store, numbers, m),
            ];
            add_row(out, b" #UIM", &parts)
        }
        LevelNode::Param(n) => add_row(out, b" #UP", &[name_number(store, numbers, n)]),
    }
}

/// Writes the line of a level.
fn add_line<T: Terms>(store: &T, writer: &mut Writer, level: u64) -> Result<(), NoMemory>
    requires numbers { AreNumbersIn (T.contents store.now) writer.old.numbers }
    requires level_in { level < length (T.contents store.now).levels }
    ensures { OnOk result (Writes (T.contents store.now)
        (add_level (level_at (T.contents store.now) level)) writer.old writer.new) }
{
    let node = store.level(level);
    add_number(&mut writer.out, writer.numbers.levels.len_from_one())?;
    add_node(&mut writer.out, store, &writer.numbers, node)?;
    writer.out.push(b'\n')?;
    writer.numbers.levels.note(level)?;
    Ok(())
}

/// Puts a level on the stack again, and the levels of its node above it, the first of them on top.
fn open(stack: &mut Vec<Visit>, level: u64, node: LevelNode) -> Result<(), NoMemory>
    ensures { OnOk result (stack.new.items
        ≡ stack.old.items ++ visit.Leave level ∷ map visit.Enter (level_parts node)) }
{
    push(stack, Visit::Leave(level))?;
    match node {
        LevelNode::Zero | LevelNode::Param(_) => {}
        LevelNode::Succ(l) => push(stack, Visit::Enter(l))?,
        LevelNode::Max(l, m) | LevelNode::IMax(l, m) => {
            push(stack, Visit::Enter(m))?;
            push(stack, Visit::Enter(l))?;
        }
    }
    Ok(())
}

/// Writes the lines of the name of a level's node, if it has one.
fn write_label<T: Terms>(
    alloc: Global,
    store: &T,
    writer: &mut Writer,
    node: LevelNode,
) -> Result<(), NoMemory>
    requires numbers { AreNumbersIn (T.contents store.now) writer.old.numbers }
    requires node_in { IsLevelIn (T.contents store.now) node }
    ensures { OnOk result (Writes (T.contents store.now)
        (level_label (T.contents store.now) node) writer.old writer.new) }
{
    match node {
        LevelNode::Param(n) => write_name(alloc, store, writer, n),
        LevelNode::Zero => Ok(()),
        LevelNode::Succ(_) => Ok(()),
        LevelNode::Max(_, _) => Ok(()),
        LevelNode::IMax(_, _) => Ok(()),
    }
}

/// Enters a level: it is opened, unless it has its line.
fn enter<T: Terms>(
    alloc: Global,
    store: &T,
    writer: &mut Writer,
    stack: &mut Vec<Visit>,
    level: u64,
) -> Result<(), NoMemory>
    requires numbers { AreNumbersIn (T.contents store.now) writer.old.numbers }
    requires level_in { level < length (T.contents store.now).levels }
    ensures numbers { OnOk result (AreNumbersIn (T.contents store.now) writer.new.numbers) }
    ensures entered { let c = T.contents store.now in
        OnOk result (IsEntered (level_walk c) level stack.old.items stack.new.items
        (file_at c writer.old) (file_at c writer.new)) }
{
    if has_level(store, &writer.numbers, level) {
        return Ok(());
    }
    let node = store.level(level);
    open(stack, level, node)?;
    write_label(alloc, store, writer, node)?;
    Ok(())
}

/// Writes the lines of a level and of its parts that have none yet.
pub(crate) fn write_level<T: Terms>(
    alloc: Global,
    store: &T,
    writer: &mut Writer,
    level: u64,
) -> Result<(), NoMemory>
    requires numbers { AreNumbersIn (T.contents store.now) writer.old.numbers }
    requires level_in { level < length (T.contents store.now).levels }
    ensures { OnOk result (Writes (T.contents store.now)
        (write_level (level_at (T.contents store.now) level)) writer.old writer.new) }
{
    let mut stack: Vec<Visit> = Vec::new(alloc);
    push(&mut stack, Visit::Enter(level))?;
    'walk: while let Some(visit) = stack.pop() {
        match visit {
            Visit::Enter(l) => enter(alloc, store, writer, &mut stack, l)?,
            Visit::Leave(l) => add_line(store, writer, l)?,
        }
    }
    Ok(())
}

/// Writes the lines of a list of levels.
pub(crate) fn write_levels<T: Terms>(
    alloc: Global,
    store: &T,
    writer: &mut Writer,
    list: u64,
) -> Result<(), NoMemory>
    requires numbers { AreNumbersIn (T.contents store.now) writer.old.numbers }
    requires list_in { list < length (T.contents store.now).lists }
    ensures { OnOk result (Writes (T.contents store.now)
        (write_levels (list_at (T.contents store.now) list)) writer.old writer.new) }
{
    let mut at = list;
    'all: loop {
        match store.levels(at) {
            ListNode::Empty => return Ok(()),
            ListNode::Cons(level, rest) => {
                write_level(alloc, store, writer, level)?;
                at = rest;
            }
        }
    }
}
