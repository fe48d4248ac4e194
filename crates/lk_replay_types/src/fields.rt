//! The Pis of the fields in a constructor's type.

ghost use Rattle.std.specs.Prelude.{◌≡◌, ◌<◌, ◌&&◌, length, option_map, IfOk, IfSome};
ghost use Rattle.lk_tree.specs.Bind.{has_var};
ghost use Rattle.lk_written.specs.Typing.{prop_if, field_of};
ghost use Rattle.lk_store.specs.Contents.{name_at, tree_at};
ghost use Rattle.lk_ask.specs.Looks.{Made};
ghost use Rattle.lk_premises.specs.Claims.{claims_at, AreClaimsIn};
ghost use Rattle.lk_premises.specs.Reading.{read_at};
ghost use Rattle.lk_premises.specs.Sorts.{pi_read_at};
ghost use Rattle.lk_premises.specs.Testing.{ReadsTree};
ghost use Rattle.lk_replay_types.specs.Fields.{last_read, field_allowed, field_pi, field_once};

use lk_ask::looks::Looks;
use lk_premises::{Claim, PiRead, Read, proposition, to_pi};
use lk_store::memory::NoMemory;
use lk_store::node::Node;
use lk_store::terms::Terms;
use lk_structure::occurs::occurs;
use lk_subst::opening::open_with;

/// Whose fields are projected: the name of its structure, and the tree.
#[derive(Clone, Copy)]
pub(crate) struct Projected {
    pub structure: u64,
    pub subject: u64,
}

/// The premises after those that a tree is a proposition by, where that is due.
fn proposition_if<'a, T: Terms>(
    terms: &T,
    due: bool,
    claims: &[Claim],
    left: &'a [u32],
    e: u64,
) -> Option<&'a [u32]>
    requires claims_in { AreClaimsIn (T.contents terms.now) claims.now }
    requires e_in { e < length (T.contents terms.now).trees }
    ensures { let c = T.contents terms.now in
        prop_if due (claims_at c claims.now) left.now (tree_at c e)
        ≡ option_map (λ r. r.now) result }
{
    if due {
        proposition(terms, claims, left, e)
    } else {
        Some(left)
    }
}

/// The type of the field that is asked for.
#[tactic(auto, unfolding(crate::specs::Fields::last_read))]
fn last_field<'a, T: Terms>(
    terms: &T,
    claims: &[Claim],
    left: &'a [u32],
    prop: bool,
    ty: u64,
) -> Option<Read<'a>>
    requires claims_in { AreClaimsIn (T.contents terms.now) claims.now }
    requires ty_in { ty < length (T.contents terms.now).trees }
    ensures read { let c = T.contents terms.now in
        last_read (claims_at c claims.now) left.now prop (tree_at c ty)
        ≡ option_map (read_at c) result }
    ensures known { IfSome result (λ r. r.tree < length (T.contents terms.now).trees) }
{
    let pi = to_pi(terms, claims, left, ty)?;
    let after = proposition_if(terms, prop, claims, pi.after, pi.domain)?;
    Some(Read {
        tree: pi.domain,
        after,
    })
}

/// Whether the domain of a field is to be a proposition: what stands behind it depends on the field.
fn is_due<L: Looks>(looks: &mut L, prop: bool, body: u64) -> Result<bool, NoMemory>
    requires { body < length (L.contents looks.old).trees }
    ensures made { Made L.contents L.rest looks.old looks.new }
    ensures ok { IfOk result (λ r. r ≡ (prop && has_var 0 (tree_at (L.contents looks.old) body))) }
{
    if prop { occurs(looks, body) } else { Ok(false) }
}

/// What stands behind the Pi of a field whose domain is to be a proposition or not.
fn behind_allowed<'a, L: Looks>(
    looks: &mut L,
    claims: &[Claim],
    pi: PiRead<'a>,
    of: Projected,
    due: bool,
    number: u64,
) -> Result<Option<Read<'a>>, NoMemory>
    requires claims_in { AreClaimsIn (L.contents looks.old) claims.now }
    requires domain_in { pi.domain < length (L.contents looks.old).trees }
    requires body_in { pi.body < length (L.contents looks.old).trees }
    requires structure_in { of.structure < length (L.contents looks.old).names }
    requires subject_in { of.subject < length (L.contents looks.old).trees }
    ensures { let c = L.contents looks.old in
        ReadsTree L.contents L.rest looks.old looks.new result
        (field_allowed (claims_at c claims.now) (name_at c of.structure) (tree_at c of.subject)
        due number (pi_read_at c pi.entry)) }
{
    match proposition_if(looks, due, claims, pi.after, pi.domain) {
        Some(after) => {
            let value = looks.make(Node::Proj(of.structure, number, of.subject))?;
            let tree = open_with(looks.alloc(), looks, pi.body, value)?;
            Ok(Some(Read { tree, after }))
        }
        None => Ok(None),
    }
}

/// What stands behind the Pi of a field, which is not the one that is asked for.
#[tactic(auto, using(lk_premises::proofs::Staying::claims_known, lk_premises::proofs::Staying::claims_same))]
fn behind_field<'a, L: Looks>(
    looks: &mut L,
    claims: &[Claim],
    pi: PiRead<'a>,
    of: Projected,
    prop: bool,
    number: u64,
) -> Result<Option<Read<'a>>, NoMemory>
    requires claims_in { AreClaimsIn (L.contents looks.old) claims.now }
    requires domain_in { pi.domain < length (L.contents looks.old).trees }
    requires body_in { pi.body < length (L.contents looks.old).trees }
    requires structure_in { of.structure < length (L.contents looks.old).names }
    requires subject_in { of.subject < length (L.contents looks.old).trees }
    ensures { let c = L.contents looks.old in
        ReadsTree L.contents L.rest looks.old looks.new result
        (field_pi (claims_at c claims.now) (name_at c of.structure) (tree_at c of.subject)
        prop number (pi_read_at c pi.entry)) }
{
    let due = is_due(looks, prop, pi.body)?;
    behind_allowed(looks, claims, pi, of, due, number)
}

/// What stands behind the first Pi of a type, which is that of a field.
#[tactic(auto, unfolding(crate::specs::Fields::field_pi))]
fn next_field<'a, L: Looks>(
    looks: &mut L,
    claims: &[Claim],
    left: &'a [u32],
    of: Projected,
    prop: bool,
    number: u64,
    ty: u64,
) -> Result<Option<Read<'a>>, NoMemory>
    requires claims_in { AreClaimsIn (L.contents looks.old) claims.now }
    requires ty_in { ty < length (L.contents looks.old).trees }
    requires structure_in { of.structure < length (L.contents looks.old).names }
    requires subject_in { of.subject < length (L.contents looks.old).trees }
    ensures { let c = L.contents looks.old in
        ReadsTree L.contents L.rest looks.old looks.new result
        (field_once (claims_at c claims.now) left.now (name_at c of.structure)
        (tree_at c of.subject) prop number (tree_at c ty)) }
{
    match to_pi(looks, claims, left, ty) {
        Some(pi) => behind_field(looks, claims, pi, of, prop, number),
        None => Ok(None),
    }
}

/// The type of a field, where the first Pi of a type is that of the first field.
pub(crate) fn field_type<'a, L: Looks>(
    looks: &mut L,
    claims: &[Claim],
    left: &'a [u32],
    of: Projected,
    prop: bool,
    field: u64,
    ty: u64,
) -> Result<Option<Read<'a>>, NoMemory>
    requires claims_in { AreClaimsIn (L.contents looks.old) claims.now }
    requires ty_in { ty < length (L.contents looks.old).trees }
    requires structure_in { of.structure < length (L.contents looks.old).names }
    requires subject_in { of.subject < length (L.contents looks.old).trees }
    ensures { let c = L.contents looks.old in
        ReadsTree L.contents L.rest looks.old looks.new result
        (field_of (claims_at c claims.now) left.now (name_at c of.structure)
        (tree_at c of.subject) prop 0 field (tree_at c ty)) }
{
    let mut at = Read {
        tree: ty,
        after: left,
    };
    'fields: for number in 0..field {
        match next_field(looks, claims, at.after, of, prop, number, at.tree)? {
            Some(next) => at = next,
            None => return Ok(None),
        }
    }
    Ok(last_field(looks, claims, at.after, prop, at.tree))
}
