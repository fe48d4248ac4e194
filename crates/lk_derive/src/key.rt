//! Claims as keys.

ghost use Rattle.std.specs.Prelude.{◌≡◌};
ghost use Rattle.lk_derive.specs.Keys.{kind_of, claim_key};

use lk_premises::{Claim, Relation};

/// How a claim relates its two trees.
#[derive(Clone, Copy, PartialEq, Eq, Hash)]
pub enum ClaimKind {
    Typing,
    Reduction,
    Equality,
}

/// A claim, as that by which its line is looked up.
#[derive(Clone, Copy, PartialEq, Eq, Hash)]
pub struct ClaimKey {
    pub kind: ClaimKind,
    pub left: u64,
    pub right: u64,
}

/// The kind of a relation.
fn kind_of(relation: Relation) -> ClaimKind
    ensures { result ≡ kind_of relation }
{
    match relation {
        Relation::Typing => ClaimKind::Typing,
        Relation::Reduction => ClaimKind::Reduction,
        Relation::Equality => ClaimKind::Equality,
    }
}

/// The key of a claim.
pub(crate) fn claim_key(claim: Claim) -> ClaimKey
    ensures { result ≡ claim_key claim }
{
    ClaimKey {
        kind: kind_of(claim.relation),
        left: claim.left,
        right: claim.right,
    }
}
