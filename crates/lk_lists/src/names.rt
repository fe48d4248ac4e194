//! Names under numbers, compared.

ghost use Rattle.std.specs.Prelude.{◌≡◌, ◌<◌, length};
ghost use Rattle.lk_tree.specs.Mentions.{same_name};
ghost use Rattle.lk_store.specs.Contents.{name_at};

use lk_store::terms::Terms;

/// Whether two names are equal.
#[tactic(auto, using(crate::proofs::Named::name_decides))]
pub fn names_equal<T: Terms>(terms: &T, name: u64, other: u64) -> bool
    requires name_in { name < length (T.contents terms.now).names }
    requires other_in { other < length (T.contents terms.now).names }
    ensures { result ≡ same_name (name_at (T.contents terms.now) name)
        (name_at (T.contents terms.now) other) }
{
    terms.same_name(name, other)
}
