//! `Eq` as it has to be: a type of one level parameter whose block has just the constructor
//! `Eq.refl`.

ghost use Rattle.std.specs.Prelude.{◌≡◌, ◌<◌, [], ◌∷◌, length, nat_eq, option_map, Some};
ghost use Rattle.std.specs.Prelude.{IfOk, IfSome};
ghost use Rattle.std.specs.List.{sum_by};
ghost use Rattle.lk_tree.specs.Tree.{var, app, pi};
ghost use Rattle.lk_rulebook.specs.Place.{Entry as PlainEntry};
ghost use Rattle.lk_rulebook.specs.Quotients.{eq_type, eq_refl_type};
ghost use Rattle.lk_questions.specs.QuotientUnits.{is_eq as plain_is_eq, is_refl_alone};
ghost use Rattle.lk_questions.specs.QuotientUnits.{is_eq_type, is_refl_type};
ghost use Rattle.lk_store.specs.Contents.{Contents, name_at, tree_at};
ghost use Rattle.lk_store.specs.Store.{contents_of};
ghost use Rattle.lk_env.specs.Units.{type_at, IsTypeIn};
ghost use Rattle.lk_env.specs.Entries.{IsEntryIn, library_entry};
ghost use Rattle.lk_ask.specs.Looks.{entry_at, Made, MakesTree};
ghost use Rattle.lk_quot.specs.Equality.{constructor_count, is_refl_shape, is_eq_shape};
ghost use Rattle.lk_quot.specs.Equality.{IsReflShapeIn, IsEqShapeIn};

use crate::due::eq_at;
use crate::names::is_dotted;
use crate::types::{at_variable, over_elements, relation};
use lk_ask::looks::Looks;
use lk_env::entry::Entry;
use lk_env::lends::Lends;
use lk_env::lent::{levels_of, type_of};
use lk_env::only::only;
use lk_env::unit::BlockType;
use lk_store::memory::NoMemory;
use lk_store::node::{LevelNode, Node};
use lk_store::terms::Terms;

/// What is read of a constructor that may be `Eq.refl`. It has one level parameter.
#[derive(Clone, Copy)]
struct ReflShape {
    name: u64,
    level: u64,
    ty: u64,
}

/// What is read of a type that may be `Eq`. It has one level parameter and one constructor.
#[derive(Clone, Copy)]
struct EqShape {
    level: u64,
    ty: u64,
    constructor: ReflShape,
}

/// Whether the types of a block have just one constructor, all together.
fn have_one_constructor(types: &[BlockType]) -> bool
    ensures { result ≡ nat_eq (sum_by constructor_count types.now) 1 }
{
    let mut found = false;
    for ty in types {
        let count = ty.constructors.len();
        if count > 1 || (count == 1 && found) {
            return false;
        }
        found = found || count == 1;
    }
    found
}

/// What is read of the only constructor of a type.
fn refl_shape(ty: &BlockType) -> Option<ReflShape>
    ensures known { (c : Contents) → IsTypeIn c ty.now → IfSome result (IsReflShapeIn c) }
    ensures is { (c : Contents)
        → is_refl_alone (type_at c ty.now).ctors ≡ is_refl_shape c result }
{
    let constructor = only(&ty.constructors)?;
    let level = only(&constructor.levels)?;
    Some(ReflShape {
        name: constructor.name,
        level: *level,
        ty: constructor.ty,
    })
}

/// What is read of an entry that may be `Eq`. There is none where it cannot be.
fn eq_shape<L: Lends>(library: &L, entry: Entry) -> Option<EqShape>
    requires { IsEntryIn (contents_of (L.lent library.now).tables) entry }
    ensures known { IfSome result (IsEqShapeIn (contents_of (L.lent library.now).tables)) }
    ensures is { (g : PlainEntry) → library_entry (L.lent library.now) entry ≡ Some g
        → plain_is_eq g g.kind ≡ is_eq_shape (contents_of (L.lent library.now).tables) result }
{
    let level = only(levels_of(library, entry))?;
    let (block, ty) = type_of(library, entry)?;
    let constructor = refl_shape(ty)?;
    if !have_one_constructor(&block.types) {
        return None;
    }
    Some(EqShape {
        level: *level,
        ty: entry.stated,
        constructor,
    })
}

/// The type that is due of `Eq`.
fn type_of_eq<L: Looks>(looks: &mut L, u: u64) -> Result<u64, NoMemory>
    requires { u < length (L.contents looks.old).names }
    ensures { MakesTree L.contents L.rest looks.old looks.new result
        (λ t. eq_type (name_at (L.contents looks.old) u)) }
{
    let under = relation(looks)?;
    let level = looks.make_level(LevelNode::Param(u))?;
    let ty = looks.make(Node::Sort(level))?;
    looks.make(Node::Pi(ty, under))
}

/// For each element of the last variable that it is equal to itself, where `eq` is `Eq`.
fn equal_to_itself<T: Terms>(terms: &mut T, eq: u64) -> Result<u64, NoMemory>
    requires { eq < length (T.contents terms.old).trees }
    ensures { MakesTree T.contents T.rest terms.old terms.new result
        (λ t. pi (var 0) (app (app (app (t eq) (var 1)) (var 0)) (var 0))) }
{
    let at_type = at_variable(terms, eq, 1)?;
    let front = at_variable(terms, at_type, 0)?;
    let equal = at_variable(terms, front, 0)?;
    over_elements(terms, 0, equal)
}

/// The type that is due of `Eq.refl`.
fn type_of_refl<L: Looks>(looks: &mut L, u: u64) -> Result<u64, NoMemory>
    requires { u < length (L.contents looks.old).names }
    ensures { MakesTree L.contents L.rest looks.old looks.new result
        (λ t. eq_refl_type (name_at (L.contents looks.old) u)) }
{
    let level = looks.make_level(LevelNode::Param(u))?;
    let eq = eq_at(looks, level)?;
    let under = equal_to_itself(looks, eq)?;
    let ty = looks.make(Node::Sort(level))?;
    looks.make(Node::Pi(ty, under))
}

/// Whether it is the type of `Eq`, at this level parameter.
fn is_type_of_eq<L: Looks>(looks: &mut L, u: u64, ty: u64) -> Result<bool, NoMemory>
    requires u_in { u < length (L.contents looks.old).names }
    requires ty_in { ty < length (L.contents looks.old).trees }
    ensures made { Made L.contents L.rest looks.old looks.new }
    ensures ok { IfOk result (λ b. b ≡ is_eq_type (name_at (L.contents looks.old) u ∷ [])
        (tree_at (L.contents looks.old) ty)) }
{
    let due = type_of_eq(looks, u)?;
    Ok(looks.same(ty, due))
}

/// Whether it is the type of `Eq.refl`, at this level parameter.
fn is_type_of_refl<L: Looks>(looks: &mut L, u: u64, ty: u64) -> Result<bool, NoMemory>
    requires u_in { u < length (L.contents looks.old).names }
    requires ty_in { ty < length (L.contents looks.old).trees }
    ensures made { Made L.contents L.rest looks.old looks.new }
    ensures ok { IfOk result (λ b. b ≡ is_refl_type (name_at (L.contents looks.old) u ∷ [])
        (tree_at (L.contents looks.old) ty)) }
{
    let due = type_of_refl(looks, u)?;
    Ok(looks.same(ty, due))
}

/// Whether the constructor is `Eq.refl`.
fn is_shape_of_refl<L: Looks>(looks: &mut L, shape: ReflShape) -> Result<bool, NoMemory>
    requires { IsReflShapeIn (L.contents looks.old) shape }
    ensures made { Made L.contents L.rest looks.old looks.new }
    ensures ok { IfOk result (λ b. b ≡ is_refl_shape (L.contents looks.old) (Some shape)) }
{
    if is_dotted(looks, shape.name, b"Eq", b"refl") {
        is_type_of_refl(looks, shape.level, shape.ty)
    } else {
        Ok(false)
    }
}

/// Whether the type is `Eq`, and its only constructor `Eq.refl`.
fn is_shape_of_eq<L: Looks>(looks: &mut L, shape: EqShape) -> Result<bool, NoMemory>
    requires { IsEqShapeIn (L.contents looks.old) shape }
    ensures made { Made L.contents L.rest looks.old looks.new }
    ensures ok { IfOk result (λ b. b ≡ is_eq_shape (L.contents looks.old) (Some shape)) }
{
    if is_type_of_eq(looks, shape.level, shape.ty)? {
        is_shape_of_refl(looks, shape.constructor)
    } else {
        Ok(false)
    }
}

/// Whether an entry is `Eq` as it has to be.
pub(crate) fn is_eq<L: Looks>(looks: &mut L, entry: Entry) -> Result<bool, NoMemory>
    requires { IsEntryIn (contents_of (L.sight (L.rest looks.old)).basis.library.tables) entry }
    ensures made { Made L.contents L.rest looks.old looks.new }
    ensures ok { IfOk result (λ b. (g : PlainEntry)
        → entry_at (L.sight (L.rest looks.old)).basis entry ≡ Some g
        → b ≡ plain_is_eq g g.kind) }
{
    match eq_shape(looks.scope(), entry) {
        Some(shape) => is_shape_of_eq(looks, shape),
        None => Ok(false),
    }
}
