//! The lines of recursors and of their rules.

ghost use Rattle.std.specs.Prelude.{◌≡◌, ◌<◌, ◌+◌, ◌-◌, ◌++◌, length, map, All, OnOk};
ghost use Rattle.std.specs.List.{range_with_len};
ghost use Rattle.lk_store.specs.Contents.{name_at};
ghost use Rattle.lk_env.specs.Units.{rule_at, recursor_at, IsRuleIn, IsRecursorIn};
ghost use Rattle.lk_trim.specs.Written.{fields, counted};
ghost use Rattle.lk_trim.specs.Units.{rule_line, write_rule, write_rules, k_field, shape_fields};
ghost use Rattle.lk_trim.specs.Units.{rec_head, rec_line, write_rec, write_recs};
ghost use Rattle.lk_trim.specs.Stored.{written_at, AreNumbersIn, Writes};

use crate::fields::{add_field, add_fields, add_number, add_row};
use crate::names::{add_counted, add_names, name_number, write_name, write_names};
use crate::numbers::{Numbers, Writer};
use crate::trees::{tree_number, write_tree};
use lk_env::unit::{Recursor, RecursorRule};
use lk_store::memory::NoMemory;
use lk_store::terms::Terms;
use std::alloc::Global;

/// Appends the line of a rule, without its end.
fn add_rule<T: Terms>(
    out: &mut Vec<u8>,
    store: &T,
    numbers: &Numbers,
    rule: &RecursorRule,
) -> Result<(), NoMemory>
    requires numbers { AreNumbersIn (T.contents store.now) numbers.now }
    requires rule_in { IsRuleIn (T.contents store.now) rule.now }
    ensures { let c = T.contents store.now in
        OnOk result (out.new.items
        ≡ out.old.items ++ rule_line (rule_at c rule.now) (written_at c numbers.now)) }
{
    add_number(out, numbers.rules)?;
    let name = name_number(store, numbers, rule.constructor);
    let value = tree_number(store, numbers, rule.value);
    add_row(out, b" #RR", &[name, rule.fields, value])
}

/// One rule more has its line.
fn count_rule(numbers: &mut Numbers) -> Result<(), NoMemory>
    ensures names { numbers.new.names ≡ numbers.old.names }
    ensures levels { numbers.new.levels ≡ numbers.old.levels }
    ensures trees { numbers.new.trees ≡ numbers.old.trees }
    ensures rules { OnOk result (numbers.new.rules ≡ numbers.old.rules + 1) }
{
    let Some(rules) = numbers.rules.checked_add(1) else {
        return Err(NoMemory);
    };
    numbers.rules = rules;
    Ok(())
}

/// Writes the line of a rule behind those of its parts.
fn write_rule<T: Terms>(
    alloc: Global,
    store: &T,
    writer: &mut Writer,
    rule: &RecursorRule,
) -> Result<(), NoMemory>
    requires numbers { AreNumbersIn (T.contents store.now) writer.old.numbers }
    requires rule_in { IsRuleIn (T.contents store.now) rule.now }
    ensures { OnOk result (Writes (T.contents store.now)
        (write_rule (rule_at (T.contents store.now) rule.now)) writer.old writer.new) }
{
    write_name(alloc, store, writer, rule.constructor)?;
    write_tree(alloc, store, writer, rule.value)?;
    add_rule(&mut writer.out, store, &writer.numbers, rule)?;
    writer.out.push(b'\n')?;
    count_rule(&mut writer.numbers)?;
    Ok(())
}

/// Writes the lines of rules.
fn write_rules<T: Terms>(
    alloc: Global,
    store: &T,
    writer: &mut Writer,
    rules: &[RecursorRule],
) -> Result<(), NoMemory>
    requires numbers { AreNumbersIn (T.contents store.now) writer.old.numbers }
    requires rules_in { All (IsRuleIn (T.contents store.now)) rules.now }
    ensures { let c = T.contents store.now in
        OnOk result (Writes c (write_rules (map (rule_at c) rules.now)) writer.old writer.new) }
{
    let mut rest = rules;
    while let Some((rule, more)) = rest.split_first() {
        write_rule(alloc, store, writer, rule)?;
        rest = more;
    }
    Ok(())
}

/// Appends the numbers from one up to another.
fn add_range(out: &mut Vec<u8>, first: u64, end: u64) -> Result<(), NoMemory>
    ensures { OnOk result (out.new.items
        ≡ out.old.items ++ fields (range_with_len first (end - first))) }
{
    let mut number = first;
    'each: while number < end {
        add_field(out, number)?;
        number += 1;
    }
    Ok(())
}

/// Appends how many numbers there are from one up to another, and each.
fn add_counted_range(out: &mut Vec<u8>, first: u64, end: u64) -> Result<(), NoMemory>
    ensures { OnOk result (out.new.items
        ≡ out.old.items ++ counted (range_with_len first (end - first))) }
{
    add_field(out, end.saturating_sub(first))?;
    add_range(out, first, end)?;
    Ok(())
}

/// The last number of a recursor's line.
fn k_field(k: bool) -> u64
    ensures { result ≡ k_field k }
{
    if k { 1 } else { 0 }
}

/// Appends the numbers of a recursor, its rules and its last number. Its rules are those from
/// number `first` on.
#[tactic(auto, unfolding(crate::specs::Units::shape_fields))]
fn add_shape<T: Terms>(
    out: &mut Vec<u8>,
    store: &T,
    numbers: &Numbers,
    first: u64,
    r: &Recursor,
) -> Result<(), NoMemory>
    ensures { let c = T.contents store.now in
        OnOk result (out.new.items ≡ out.old.items
        ++ shape_fields first (recursor_at c r.now).recursor (written_at c numbers.now)) }
{
    let _store = store;
    add_fields(out, &[r.parameters, r.indices, r.motives, r.minors])?;
    add_counted_range(out, first, numbers.rules)?;
    add_field(out, k_field(r.k))
}

/// Appends the tag of a recursor and its own numbers.
#[tactic(auto, unfolding(crate::specs::Units::rec_head))]
fn add_head<T: Terms>(
    out: &mut Vec<u8>,
    store: &T,
    numbers: &Numbers,
    r: &Recursor,
) -> Result<(), NoMemory>
    requires numbers { AreNumbersIn (T.contents store.now) numbers.now }
    requires recursor_in { IsRecursorIn (T.contents store.now) r.now }
    ensures { let c = T.contents store.now in
        OnOk result (out.new.items
        ≡ out.old.items ++ rec_head (recursor_at c r.now) (written_at c numbers.now)) }
{
    let name = name_number(store, numbers, r.name);
    add_row(out, b"#REC", &[name, tree_number(store, numbers, r.ty)])
}

/// Appends the line of a recursor, without its end.
fn add_recursor<T: Terms>(
    out: &mut Vec<u8>,
    store: &T,
    numbers: &Numbers,
    family: &[u64],
    first: u64,
    r: &Recursor,
) -> Result<(), NoMemory>
    requires numbers { AreNumbersIn (T.contents store.now) numbers.now }
    requires family_in { All (λ n. n < length (T.contents store.now).names) family.now }
    requires recursor_in { IsRecursorIn (T.contents store.now) r.now }
    ensures { let c = T.contents store.now in
        OnOk result (out.new.items ≡ out.old.items
        ++ rec_line (map (name_at c) family.now) first (recursor_at c r.now)
        (written_at c numbers.now)) }
{
    add_head(out, store, numbers, r)?;
    add_counted(out, store, numbers, family)?;
    add_shape(out, store, numbers, first, r)?;
    add_names(out, store, numbers, &r.levels)?;
    Ok(())
}

/// Writes the line of a recursor behind those of its parts.
fn write_recursor<T: Terms>(
    alloc: Global,
    store: &T,
    writer: &mut Writer,
    family: &[u64],
    r: &Recursor,
) -> Result<(), NoMemory>
    requires numbers { AreNumbersIn (T.contents store.now) writer.old.numbers }
    requires family_in { All (λ n. n < length (T.contents store.now).names) family.now }
    requires recursor_in { IsRecursorIn (T.contents store.now) r.now }
    ensures { let c = T.contents store.now in
        OnOk result (Writes c (write_rec (map (name_at c) family.now) (recursor_at c r.now))
        writer.old writer.new) }
{
    let first = writer.numbers.rules;
    write_name(alloc, store, writer, r.name)?;
    write_tree(alloc, store, writer, r.ty)?;
    write_names(alloc, store, writer, family)?;
    write_rules(alloc, store, writer, &r.rules)?;
    write_names(alloc, store, writer, &r.levels)?;
    add_recursor(&mut writer.out, store, &writer.numbers, family, first, r)?;
    writer.out.push(b'\n')?;
    Ok(())
}

/// Writes the lines of recursors.
pub(crate) fn write_recursors<T: Terms>(
    alloc: Global,
    store: &T,
    writer: &mut Writer,
    family: &[u64],
    recursors: &[Recursor],
) -> Result<(), NoMemory>
    requires numbers { AreNumbersIn (T.contents store.now) writer.old.numbers }
    requires family_in { All (λ n. n < length (T.contents store.now).names) family.now }
    requires recursors_in { All (IsRecursorIn (T.contents store.now)) recursors.now }
    ensures { let c = T.contents store.now in
        OnOk result (Writes c
        (write_recs (map (name_at c) family.now) (map (recursor_at c) recursors.now))
        writer.old writer.new) }
{
    let mut rest = recursors;
    while let Some((r, more)) = rest.split_first() {
        write_recursor(alloc, store, writer, family, r)?;
        rest = more;
    }
    Ok(())
}
