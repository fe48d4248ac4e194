//! Projections.

ghost use Rattle.std.specs.Prelude.{◌≡◌, ◌<◌, Some, length, map, All};
ghost use Rattle.lk_tree.specs.Tree.{proj};
ghost use Rattle.lk_rulebook.specs.Place.{Entry as PlainEntry, BlockType as PlainType, Ctor};
ghost use Rattle.lk_written.specs.Typing.{type_proj};
ghost use Rattle.lk_store.specs.Contents.{name_at, list_at, tree_at};
ghost use Rattle.lk_store.specs.Store.{contents_of};
ghost use Rattle.lk_ask.specs.Looks.{entry_at, IsOver};
ghost use Rattle.lk_structure.specs.Structures.{IsStructure};
ghost use Rattle.lk_premises.specs.Claims.{claims_at, AreClaimsIn};
ghost use Rattle.lk_premises.specs.Testing.{Tests};
ghost use Rattle.lk_replay_types.specs.Subjects.{fields_read, past_read, sort_read, one_read};
ghost use Rattle.lk_replay_types.specs.Subjects.{kind_read, name_read, head_read};
ghost use Rattle.lk_replay_types.specs.Projections.{projection_at, IsProjectionIn};

use crate::fields::{Projected, field_type};
use crate::parameters::past_parameters;
use lk_ask::looks::Looks;
use lk_constructor::levels_of_type;
use lk_env::entry::Entry;
use lk_premises::{Claim, comes_to, meaning_of, reduced, sorted, typed};
use lk_spine::args;
use lk_store::memory::NoMemory;
use lk_store::node::Node;
use lk_structure::structure::{Structure, fits, structure_of};

/// A projection: the name of its structure, the place of the field, and the tree.
#[derive(Clone, Copy)]
pub struct Projection {
    pub structure: u64,
    pub field: u64,
    pub subject: u64,
}

/// Whether the type of the field is the line's, where the first Pi of a type is that of the first field.
#[tactic(auto, using(lk_premises::proofs::Staying::claims_known, lk_premises::proofs::Staying::claims_same))]
fn is_field_type<L: Looks>(
    looks: &mut L,
    claims: &[Claim],
    left: &[u32],
    p: Projection,
    prop: bool,
    constructor: u64,
    ty: u64,
) -> Result<bool, NoMemory>
    requires claims_in { AreClaimsIn (L.contents looks.old) claims.now }
    requires p_in { IsProjectionIn (L.contents looks.old) p }
    requires constructor_in { constructor < length (L.contents looks.old).trees }
    requires ty_in { ty < length (L.contents looks.old).trees }
    ensures { let c = L.contents looks.old in
        Tests L.contents L.rest looks.old looks.new result
        (fields_read (claims_at c claims.now) left.now (projection_at c p) prop
        (tree_at c constructor) (tree_at c ty)) }
{
    let of = Projected {
        structure: p.structure,
        subject: p.subject,
    };
    match field_type(looks, claims, left, of, prop, p.field, constructor)? {
        Some(found) => Ok(comes_to(looks, ty, found.tree, found.after)),
        None => Ok(false),
    }
}

/// The same, where the type is the constructor's, and these are put for its parameters.
#[tactic(auto, using(lk_premises::proofs::Staying::claims_known, lk_premises::proofs::Staying::claims_same))]
fn with_parameters<L: Looks>(
    looks: &mut L,
    claims: &[Claim],
    left: &[u32],
    arguments: &[u64],
    parameters: u64,
    p: Projection,
    prop: bool,
    constructor: u64,
    ty: u64,
) -> Result<bool, NoMemory>
    requires claims_in { AreClaimsIn (L.contents looks.old) claims.now }
    requires arguments_in { All (λ x. x < length (L.contents looks.old).trees) arguments.now }
    requires p_in { IsProjectionIn (L.contents looks.old) p }
    requires constructor_in { constructor < length (L.contents looks.old).trees }
    requires ty_in { ty < length (L.contents looks.old).trees }
    ensures { let c = L.contents looks.old in
        Tests L.contents L.rest looks.old looks.new result
        (past_read (claims_at c claims.now) left.now (map (tree_at c) arguments.now) parameters
        (projection_at c p) prop (tree_at c constructor) (tree_at c ty)) }
{
    let alloc = looks.alloc();
    match past_parameters(
        alloc,
        looks,
        claims,
        left,
        arguments,
        parameters,
        constructor,
    )? {
        Some(behind) => { is_field_type(looks, claims, behind.after, p, prop, behind.tree, ty) }
        None => Ok(false),
    }
}

/// The same, where the subject is of this type, whose sort is read first.
fn with_sort<L: Looks>(
    looks: &mut L,
    claims: &[Claim],
    left: &[u32],
    own: u64,
    arguments: &[u64],
    parameters: u64,
    p: Projection,
    constructor: u64,
    ty: u64,
) -> Result<bool, NoMemory>
    requires claims_in { AreClaimsIn (L.contents looks.old) claims.now }
    requires own_in { own < length (L.contents looks.old).trees }
    requires arguments_in { All (λ x. x < length (L.contents looks.old).trees) arguments.now }
    requires p_in { IsProjectionIn (L.contents looks.old) p }
    requires constructor_in { constructor < length (L.contents looks.old).trees }
    requires ty_in { ty < length (L.contents looks.old).trees }
    ensures { let c = L.contents looks.old in
        Tests L.contents L.rest looks.old looks.new result
        (sort_read (claims_at c claims.now) left.now (tree_at c own)
        (map (tree_at c) arguments.now) parameters (projection_at c p) (tree_at c constructor)
        (tree_at c ty)) }
{
    match sorted(looks, claims, left, own) {
        Some(sort) => {
            let prop = looks.level_is_zero(sort.level);
            with_parameters(
                looks,
                claims,
                sort.after,
                arguments,
                parameters,
                p,
                prop,
                constructor,
                ty,
            )
        }
        None => Ok(false),
    }
}

/// The same, where the subject's type is this structure at these levels.
fn with_structure<L: Looks>(
    looks: &mut L,
    claims: &[Claim],
    left: &[u32],
    p: Projection,
    own: u64,
    levels: u64,
    structure: Structure,
    ty: u64,
) -> Result<bool, NoMemory>
    requires over { IsOver L.contents L.rest L.sight looks.old }
    requires claims_in { AreClaimsIn (L.contents looks.old) claims.now }
    requires p_in { IsProjectionIn (L.contents looks.old) p }
    requires own_in { own < length (L.contents looks.old).trees }
    requires levels_in { levels < length (L.contents looks.old).lists }
    requires structure_in { let b = contents_of (L.sight (L.rest looks.old)).basis.library.tables in
        structure.constructor.stated < length b.trees }
    requires ty_in { ty < length (L.contents looks.old).trees }
    ensures { let c = L.contents looks.old in (ind : PlainType) (k : Ctor)
        → IsStructure (L.sight (L.rest looks.old)).basis.library structure (ind, k)
        → Tests L.contents L.rest looks.old looks.new result
        (one_read (claims_at c claims.now) left.now (projection_at c p) (tree_at c own)
        (list_at c levels) ind k (tree_at c ty)) }
{
    let arguments = args(looks.alloc(), looks, own)?;
    if !fits(structure, p.field, arguments.len()) {
        return Ok(false);
    }
    match looks.at_levels(structure.constructor, levels, structure.constructor.stated)? {
        Some(constructor) => with_sort(
            looks,
            claims,
            left,
            own,
            &arguments,
            structure.parameters,
            p,
            constructor,
            ty,
        ),
        None => Ok(false),
    }
}

/// The same, where the subject's type has this entry for its head, at these levels.
fn with_entry<L: Looks>(
    looks: &mut L,
    claims: &[Claim],
    left: &[u32],
    p: Projection,
    own: u64,
    levels: u64,
    entry: Entry,
    ty: u64,
) -> Result<bool, NoMemory>
    requires over { IsOver L.contents L.rest L.sight looks.old }
    requires claims_in { AreClaimsIn (L.contents looks.old) claims.now }
    requires p_in { IsProjectionIn (L.contents looks.old) p }
    requires own_in { own < length (L.contents looks.old).trees }
    requires levels_in { levels < length (L.contents looks.old).lists }
    requires ty_in { ty < length (L.contents looks.old).trees }
    ensures { let c = L.contents looks.old in (g : PlainEntry)
        → entry_at (L.sight (L.rest looks.old)).basis entry ≡ Some g
        → Tests L.contents L.rest looks.old looks.new result
        (kind_read (claims_at c claims.now) left.now (projection_at c p) (tree_at c own)
        (list_at c levels) g.kind (tree_at c ty)) }
{
    match structure_of(looks.scope(), entry) {
        Some(structure) => with_structure(looks, claims, left, p, own, levels, structure, ty),
        None => Ok(false),
    }
}

/// The same, where the subject's type has the structure's name for its head, at these levels.
fn with_levels<L: Looks>(
    looks: &mut L,
    claims: &[Claim],
    left: &[u32],
    p: Projection,
    own: u64,
    levels: u64,
    ty: u64,
) -> Result<bool, NoMemory>
    requires claims_in { AreClaimsIn (L.contents looks.old) claims.now }
    requires p_in { IsProjectionIn (L.contents looks.old) p }
    requires own_in { own < length (L.contents looks.old).trees }
    requires levels_in { levels < length (L.contents looks.old).lists }
    requires ty_in { ty < length (L.contents looks.old).trees }
    ensures { let c = L.contents looks.old in
        Tests L.contents L.rest looks.old looks.new result
        (name_read (L.sight (L.rest looks.old)).basis.place (claims_at c claims.now) left.now
        (projection_at c p) (tree_at c own) (list_at c levels) (tree_at c ty)) }
{
    match meaning_of(looks, p.structure) {
        Some(entry) => with_entry(looks, claims, left, p, own, levels, entry, ty),
        None => Ok(false),
    }
}

/// The same, where the subject is of this type.
fn with_type<L: Looks>(
    looks: &mut L,
    claims: &[Claim],
    left: &[u32],
    p: Projection,
    own: u64,
    ty: u64,
) -> Result<bool, NoMemory>
    requires claims_in { AreClaimsIn (L.contents looks.old) claims.now }
    requires p_in { IsProjectionIn (L.contents looks.old) p }
    requires own_in { own < length (L.contents looks.old).trees }
    requires ty_in { ty < length (L.contents looks.old).trees }
    ensures { let c = L.contents looks.old in
        Tests L.contents L.rest looks.old looks.new result
        (head_read (L.sight (L.rest looks.old)).basis.place (claims_at c claims.now) left.now
        (projection_at c p) (tree_at c own) (tree_at c ty)) }
{
    match levels_of_type(looks, p.structure, own) {
        Some(levels) => with_levels(looks, claims, left, p, own, levels, ty),
        None => Ok(false),
    }
}

/// A line of this projection.
fn projected<L: Looks>(
    looks: &mut L,
    claims: &[Claim],
    left: &[u32],
    p: Projection,
    ty: u64,
) -> Result<bool, NoMemory>
    requires claims_in { AreClaimsIn (L.contents looks.old) claims.now }
    requires p_in { IsProjectionIn (L.contents looks.old) p }
    requires ty_in { ty < length (L.contents looks.old).trees }
    ensures { let c = L.contents looks.old in
        Tests L.contents L.rest looks.old looks.new result
        (type_proj (L.sight (L.rest looks.old)).basis.place (claims_at c claims.now) left.now
        (proj (name_at c p.structure) p.field (tree_at c p.subject)) (tree_at c ty)) }
{
    match typed(looks, claims, left, p.subject) {
        Some(own) => {
            let form = reduced(looks, claims, own.after, own.tree);
            with_type(looks, claims, form.after, p, form.tree, ty)
        }
        None => Ok(false),
    }
}

/// A line of a projection.
pub fn test_projection<L: Looks>(
    looks: &mut L,
    claims: &[Claim],
    left: &[u32],
    e: u64,
    ty: u64,
) -> Result<bool, NoMemory>
    requires claims_in { AreClaimsIn (L.contents looks.old) claims.now }
    requires e_in { e < length (L.contents looks.old).trees }
    requires ty_in { ty < length (L.contents looks.old).trees }
    ensures { let c = L.contents looks.old in
        Tests L.contents L.rest looks.old looks.new result
        (type_proj (L.sight (L.rest looks.old)).basis.place (claims_at c claims.now) left.now
        (tree_at c e) (tree_at c ty)) }
{
    match looks.view(e) {
        Node::Proj(structure, field, subject) => projected(
            looks,
            claims,
            left,
            Projection {
                structure,
                field,
                subject,
            },
            ty,
        ),
        _ => Ok(false),
    }
}
