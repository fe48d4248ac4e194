//! What is asked of two levels.

ghost use Rattle.std.specs.Prelude.{◌≡◌};
ghost use Rattle.lk_level_order.specs.Values.{relation_test};

/// What is asked of two levels: whether they are equal, or the left one at most the right one.
#[derive(Clone, Copy)]
pub enum Relation {
    Equal,
    AtMost,
}

/// Whether it holds of two numbers.
pub fn relates(relation: Relation, left: u64, right: u64) -> bool
    ensures { result ≡ relation_test relation left right }
{
    match relation {
        Relation::Equal => left == right,
        Relation::AtMost => left <= right,
    }
}
