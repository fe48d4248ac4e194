//! The entry of a unit's member, by the number of the member.

ghost use Rattle.std.specs.Prelude.{◌≡◌, ℕ, ◌+◌, ◌<◌, length, option_map, slice_get, IfOk, IfErr, IfSome};
ghost use Rattle.std.specs.List.{flat_map};
ghost use Rattle.lk_store.specs.Contents.{Contents};
ghost use Rattle.lk_env.specs.Index.{constructor_names};
ghost use Rattle.lk_env.specs.Member.{recursor_entry_at, IsConstructorAt, IsMember, IsMemberIfAny, IsPartialIfAny, bare_kind, is_type_kind};

use crate::entry::{Entry, Kind, Partial};
use crate::unit::{Block, BlockType, Declaration, Recursor, Unit};

fn declaration_entry(unit: u32, declaration: &Declaration) -> Entry
    ensures unit { result.unit ≡ unit }
    ensures origin { result.origin ≡ unit }
    ensures member { (c : Contents) → IsMember c (Unit.Declaration declaration.now) 0 result }
{
    Entry {
        kind: Kind::Declared(declaration.body),
        stated: u64::from(declaration.ty),
        unit,
        origin: unit,
    }
}

/// The entry of the constructor at a place among the constructors of all types. Where there are not so many, how many
/// places remain.
fn constructor_entry(unit: u32, types: &[BlockType], place: usize) -> Result<Entry, usize>
    ensures unit { IfOk result (λ e. e.unit ≡ unit) }
    ensures origin { IfOk result (λ e. e.origin ≡ unit) }
    ensures found { IfOk result (IsConstructorAt types.now place) }
    ensures past { IfErr result (λ rest. length (flat_map constructor_names types.now) + rest
        ≡ place) }
{
    let mut rest = place;
    for (i, t) in types.iter().enumerate() {
        let constructors = t.constructors.as_slice();
        if rest < constructors.len() {
            let kind = Kind::Constructor {
                parent: i,
                number: rest,
            };
            return Ok(Entry {
                kind,
                stated: constructors[rest].ty,
                unit,
                origin: unit,
            });
        }
        rest -= constructors.len();
    }
    Err(rest)
}

fn recursor_entry(unit: u32, recursors: &[Recursor], i: usize) -> Option<Entry>
    ensures unit { IfSome result (λ e. e.unit ≡ unit) }
    ensures origin { IfSome result (λ e. e.origin ≡ unit) }
    ensures entry { result ≡ option_map (recursor_entry_at unit i) (slice_get recursors.now i) }
{
    match recursors.get(i) {
        Some(r) => Some(Entry {
            kind: Kind::Recursor(i),
            stated: r.ty,
            unit,
            origin: unit,
        }),
        None => None,
    }
}

/// The entry of a member of a block, if it has so many.
fn block_entry(unit: u32, block: &Block, member: usize) -> Option<Entry>
    ensures unit { IfSome result (λ e. e.unit ≡ unit) }
    ensures origin { IfSome result (λ e. e.origin ≡ unit) }
    ensures member { (c : Contents) → IsMemberIfAny c (Unit.Block block.now) member result }
{
    let types = block.types.as_slice();
    if member < types.len() {
        return Some(Entry {
            kind: Kind::Type(member),
            stated: types[member].ty,
            unit,
            origin: unit,
        });
    }
    match constructor_entry(unit, types, member - types.len()) {
        Ok(entry) => Some(entry),
        Err(rest) => recursor_entry(unit, &block.recursors, rest),
    }
}

/// The entry of a unit's member, if it has so many.
pub(crate) fn member_entry(number: u32, unit: &Unit, member: usize) -> Option<Entry>
    ensures unit { IfSome result (λ e. e.unit ≡ number) }
    ensures origin { IfSome result (λ e. e.origin ≡ number) }
    ensures member { (c : Contents) → IsMemberIfAny c unit.now member result }
{
    match unit {
        Unit::Declaration(declaration) => {
            if member == 0 {
                Some(declaration_entry(number, declaration))
            } else {
                None
            }
        }
        Unit::Block(block) => block_entry(number, block, member),
    }
}

/// The entry as it is while its unit is partial: a recursor without its rules.
fn bare(entry: Entry) -> Entry
    ensures unit { result.unit ≡ entry.unit }
    ensures origin { result.origin ≡ entry.origin }
    ensures stated { result.stated ≡ entry.stated }
    ensures kind { result.kind ≡ bare_kind entry.kind }
{
    match entry.kind {
        Kind::Recursor(i) => Entry {
            kind: Kind::BareRecursor(i),
            stated: entry.stated,
            unit: entry.unit,
            origin: entry.origin,
        },
        _ => entry,
    }
}

fn is_type(kind: Kind) -> bool
    ensures { result ≡ is_type_kind kind }
{
    match kind {
        Kind::Type(_) => true,
        _ => false,
    }
}

/// The entry as it is partial, if it is.
fn as_partial(partial: Partial, entry: Entry) -> Option<Entry>
    ensures unit { IfSome result (λ e. e.unit ≡ entry.unit) }
    ensures origin { IfSome result (λ e. e.origin ≡ entry.origin) }
    ensures member { (c : Contents) (b : Block) (j : ℕ) → IsMember c (Unit.Block b) j entry
        → IsPartialIfAny c (Unit.Block b) partial j result }
{
    match partial {
        Partial::Nothing => None,
        Partial::Types => {
            if is_type(entry.kind) {
                Some(entry)
            } else {
                None
            }
        }
        Partial::Members => Some(bare(entry)),
    }
}

/// The entry of a unit's member as it is partial, if it is.
pub(crate) fn partial_entry(
    number: u32,
    unit: &Unit,
    partial: Partial,
    member: usize,
) -> Option<Entry>
    ensures unit { IfSome result (λ e. e.unit ≡ number) }
    ensures origin { IfSome result (λ e. e.origin ≡ number) }
    ensures member { (c : Contents) → IsPartialIfAny c unit.now partial member result }
{
    match unit {
        Unit::Declaration(_) => None,
        Unit::Block(block) => match block_entry(number, block, member) {
            Some(entry) => as_partial(partial, entry),
            None => None,
        },
    }
}
