//! Texts that expand.

ghost use Rattle.std.specs.Prelude.{◌≡◌, ◌<◌, ◌&&◌, Some, IfOk, IfSome, length, map, option_map, All};
ghost use Rattle.std.specs.Str.{chars};
ghost use Rattle.lk_rulebook.specs.Place.{Entry as PlainEntry};
ghost use Rattle.lk_rulebook.specs.Literals.{expansion_names};
ghost use Rattle.lk_questions.specs.Strings.{look_all, is_mk_alone, expansion_by, expansion_of};
ghost use Rattle.lk_store.specs.Contents.{text_at, tree_at};
ghost use Rattle.lk_store.specs.Store.{contents_of};
ghost use Rattle.lk_env.specs.Entries.{IsEntryIn};
ghost use Rattle.lk_env.specs.Units.{constructor_at, IsConstructorIn};
ghost use Rattle.lk_env.specs.Lent.{type_in};
ghost use Rattle.lk_ask.specs.Looks.{entry_at, IsOver};
ghost use Rattle.lk_ask.specs.Settles.{Settles};
ghost use Rattle.lk_lit.specs.Builtins.{builtin_name};
ghost use Rattle.lk_lit.specs.Expansions.{expanded, expanded_text};
ghost use Rattle.lk_lit.specs.Shapes.{has_mk};

use crate::builtin::{Builtin, is_builtin};
use crate::characters::{characters_of, make_expansion};
use crate::given::look_builtin;
use crate::shapes::{has_string_shape, inductive};
use lk_ask::looks::Looks;
use lk_env::entry::Entry;
use lk_env::only::only;
use lk_env::unit::Constructor;
use lk_store::memory::NoMemory;
use lk_tree::rule::Rule;

/// Whether the only one of these constructors is `String.mk`.
fn is_mk_alone<L: Looks>(looks: &L, constructors: &[Constructor]) -> bool
    requires over { IsOver L.contents L.rest L.sight looks.now }
    requires known { let b = contents_of (L.sight (L.rest looks.now)).basis.library.tables in
        All (IsConstructorIn b) constructors.now }
    ensures { let b = contents_of (L.sight (L.rest looks.now)).basis.library.tables in
        result ≡ is_mk_alone (map (constructor_at b) constructors.now) }
{
    match only(constructors) {
        Some(constructor) => is_builtin(looks, constructor.name, Builtin::StringMk),
        None => false,
    }
}

/// Whether an entry is a type whose only constructor is `String.mk`.
fn has_mk_alone<L: Looks>(looks: &L, entry: Entry) -> bool
    ensures { (g : PlainEntry) → entry_at (L.sight (L.rest looks.now)).basis entry ≡ Some g
        → result ≡ has_mk (type_in g.kind) }
{
    match inductive(looks, entry) {
        Some((_, ty)) => is_mk_alone(looks, &ty.constructors),
        None => false,
    }
}

/// The names that stand in the expansion of a text, which may be empty.
fn names_of(characters: &[char]) -> &'static [Builtin]
    ensures { map builtin_name result.now ≡ expansion_names characters.now }
{
    if characters.is_empty() {
        &[Builtin::StringMk, Builtin::ListNil, Builtin::Char]
    } else {
        &[
            Builtin::StringMk,
            Builtin::ListNil,
            Builtin::Char,
            Builtin::ListCons,
            Builtin::CharOfNat,
        ]
    }
}

/// Looks names up, each of which must be given.
fn look_all<L: Looks>(looks: &mut L, names: &[Builtin]) -> Result<Result<(), Rule>, NoMemory>
    ensures { Settles L.contents L.rest L.sight looks.old looks.new result (λ _ _. tt)
        (λ _. look_all (map builtin_name names.now)) }
{
    let mut rest = names;
    'names: while let Some((name, more)) = rest.split_first() {
        match look_builtin(looks, *name)? {
            Ok(_) => rest = more,
            Err(rule) => return Ok(Err(rule)),
        }
    }
    Ok(Ok(()))
}

/// The expansion of the text of these characters. Each name in it must be given.
fn expand<L: Looks>(
    looks: &mut L,
    characters: Vec<char>,
) -> Result<Result<Option<u64>, Rule>, NoMemory>
    ensures settles { Settles L.contents L.rest L.sight looks.old looks.new result
        (λ c r. option_map (tree_at c) r) (λ _. expanded characters.items) }
    ensures known { IfOk result (λ r. IfOk r (λ e. IfSome e
        (λ x. x < length (L.contents looks.new).trees))) }
{
    match look_all(looks, names_of(&characters))? {
        Ok(()) => {
            let e = make_expansion(looks.alloc(), looks, characters)?;
            Ok(Ok(Some(e)))
        }
        Err(rule) => Ok(Err(rule)),
    }
}

/// The expansion of a text, where the entry of `String` allows it and it is UTF-8.
fn expand_text<L: Looks>(
    looks: &mut L,
    text: u64,
    shaped: bool,
    made: bool,
) -> Result<Result<Option<u64>, Rule>, NoMemory>
    requires { text < length (L.contents looks.old).texts }
    ensures settles { Settles L.contents L.rest L.sight looks.old looks.new result
        (λ c r. option_map (tree_at c) r) (λ c. expanded_text (text_at c text) shaped made) }
    ensures known { IfOk result (λ r. IfOk r (λ e. IfSome e
        (λ x. x < length (L.contents looks.new).trees))) }
{
    if !shaped || !made {
        return Ok(Ok(None));
    }
    match characters_of(looks.alloc(), looks.text(text).as_bytes())? {
        Some(characters) => expand(looks, characters),
        None => Ok(Ok(None)),
    }
}

/// The expansion of a text, by the entry of `String`.
fn expansion_by<L: Looks>(
    looks: &mut L,
    entry: Entry,
    text: u64,
) -> Result<Result<Option<u64>, Rule>, NoMemory>
    requires over { IsOver L.contents L.rest L.sight looks.old }
    requires entry_in { let b = contents_of (L.sight (L.rest looks.old)).basis.library.tables in
        IsEntryIn b entry }
    requires text_in { text < length (L.contents looks.old).texts }
    ensures settles { (g : PlainEntry)
        → entry_at (L.sight (L.rest looks.old)).basis entry ≡ Some g
        → Settles L.contents L.rest L.sight looks.old looks.new result
        (λ c r. option_map (tree_at c) r) (λ c. expansion_by (text_at c text) g g.kind) }
    ensures known { IfOk result (λ r. IfOk r (λ e. IfSome e
        (λ x. x < length (L.contents looks.new).trees))) }
{
    let made = has_mk_alone(looks, entry);
    match has_string_shape(looks, entry)? {
        Ok(shaped) => expand_text(looks, text, shaped, made),
        Err(rule) => Ok(Err(rule)),
    }
}

/// The expansion of a text, where it expands.
pub fn expansion_of<L: Looks>(
    looks: &mut L,
    text: u64,
) -> Result<Result<Option<u64>, Rule>, NoMemory>
    requires { text < length (L.contents looks.old).texts }
    ensures settles { Settles L.contents L.rest L.sight looks.old looks.new result
        (λ c r. option_map (tree_at c) r) (λ c. expansion_of (text_at c text)) }
    ensures known { IfOk result (λ r. IfOk r (λ e. IfSome e
        (λ x. x < length (L.contents looks.new).trees))) }
{
    match look_builtin(looks, Builtin::String)? {
        Ok(string) => expansion_by(looks, string.entry, text),
        Err(rule) => Ok(Err(rule)),
    }
}
