//! Whether two units are the same, by their numbers.

ghost use Rattle.std.specs.Prelude.{◌≡◌, ◌↔◌, IsTrue};
ghost use Rattle.std.specs.List.{AllZip};
ghost use Rattle.lk_store.specs.Contents.{Contents};
ghost use Rattle.lk_env.specs.Units.{unit_at, IsUnitIn};
ghost use Rattle.lk_recheck.specs.Same.{SameDeclaration, SameConstructor, SameType, SameRule};
ghost use Rattle.lk_recheck.specs.Same.{SameRecursor, SameBlock, SameUnit, StandsOnce};

use lk_env::unit::{
    Block, BlockType, Body, Constructor, Declaration, Hint, Recursor, RecursorRule, Unit,
};

/// What is compared with its kind, by numbers alone. The types are another crate's, so that they
/// cannot have `PartialEq` here.
trait Compared {
    ghost Same: { Self → Self → Type 0 };

    fn is_same(&self, other: &Self) -> bool
        ensures { IsTrue result ↔ Same self.now other.now };
}

/// Whether two lists are as long and have the same at each place.
fn all_same<T: Compared>(a: &[T], b: &[T]) -> bool
    ensures { IsTrue result ↔ AllZip T.Same a.now b.now }
{
    if a.len() != b.len() {
        return false;
    }
    for (x, y) in a.iter().zip(b) {
        if !x.is_same(y) {
            return false;
        }
    }
    true
}

fn same_hint(a: Hint, b: Hint) -> bool
    ensures { IsTrue result ↔ (a ≡ b) }
{
    match (a, b) {
        (Hint::Opaque, Hint::Opaque) => true,
        (Hint::Abbreviation, Hint::Abbreviation) => true,
        (Hint::Regular(m), Hint::Regular(n)) => m == n,
        _ => false,
    }
}

fn same_body(a: Body, b: Body) -> bool
    ensures { IsTrue result ↔ (a ≡ b) }
{
    match (a, b) {
        (Body::Axiom, Body::Axiom) => true,
        (Body::Definition { hint: g, value: v }, Body::Definition { hint: h, value: w }) => {
            same_hint(g, h) && v == w
        }
        (Body::Theorem { proof: p }, Body::Theorem { proof: q }) => p == q,
        (Body::Opaque { value: v }, Body::Opaque { value: w }) => v == w,
        (Body::Quotient, Body::Quotient) => true,
        _ => false,
    }
}

impl Compared for Declaration {
    ghost Same = { SameDeclaration };

    fn is_same(&self, other: &Self) -> bool {
        self.name == other.name
            && self.levels.as_slice() == other.levels.as_slice()
            && self.ty == other.ty
            && same_body(self.body, other.body)
    }
}

impl Compared for Constructor {
    ghost Same = { SameConstructor };

    fn is_same(&self, other: &Self) -> bool {
        self.name == other.name
            && self.levels == other.levels
            && self.ty == other.ty
            && self.parent == other.parent
            && self.place == other.place
            && self.parameters == other.parameters
            && self.fields == other.fields
    }
}

impl Compared for BlockType {
    ghost Same = { SameType };

    fn is_same(&self, other: &Self) -> bool {
        self.name == other.name
            && self.levels == other.levels
            && self.ty == other.ty
            && self.parameters == other.parameters
            && self.indices == other.indices
            && all_same(&self.constructors, &other.constructors)
    }
}

impl Compared for RecursorRule {
    ghost Same = { SameRule };

    fn is_same(&self, other: &Self) -> bool {
        self.constructor == other.constructor
            && self.fields == other.fields
            && self.value == other.value
    }
}

impl Compared for Recursor {
    ghost Same = { SameRecursor };

    fn is_same(&self, other: &Self) -> bool {
        self.name == other.name
            && self.levels == other.levels
            && self.ty == other.ty
            && self.parameters == other.parameters
            && self.indices == other.indices
            && self.motives == other.motives
            && self.minors == other.minors
            && self.k == other.k
            && all_same(&self.rules, &other.rules)
    }
}

impl Compared for Block {
    ghost Same = { SameBlock };

    fn is_same(&self, other: &Self) -> bool {
        all_same(&self.types, &other.types) && all_same(&self.recursors, &other.recursors)
    }
}

impl Compared for Unit {
    ghost Same = { SameUnit };

    fn is_same(&self, other: &Self) -> bool {
        match (self, other) {
            (Unit::Declaration(a), Unit::Declaration(b)) => a.is_same(b),
            (Unit::Block(a), Unit::Block(b)) => a.is_same(b),
            _ => false,
        }
    }
}

/// Whether two units of a store are equal. Names and trees have one number each there, so that
/// these are compared.
pub(crate) fn same_unit(a: &Unit, b: &Unit) -> bool
    ensures { (c : Contents) → StandsOnce c → IsUnitIn c a.now → IsUnitIn c b.now
        → (IsTrue result ↔ (unit_at c a.now ≡ unit_at c b.now)) }
{
    a.is_same(b)
}
