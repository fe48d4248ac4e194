//! What constants of the larger block stand for.

ghost use Rattle.std.specs.Prelude.{◌≡◌, ◌<◌, length, IfSome, option_map};
ghost use Rattle.lk_store.specs.Contents.{name_at};
ghost use Rattle.lk_restore.specs.Originals.{number_of, read_name, AreOriginalsIn, IsOriginalIn};
ghost use Rattle.lk_restore.specs.Marks.{mark_at, marks_at, first};

use lk_lists::names::names_equal;
use lk_store::terms::Terms;

/// What a constant of the larger block stands for. All numbers are those of one store.
#[derive(Clone, Copy)]
pub enum Original {
    /// The constant at the block's levels, applied to the parameters, is `from`. It stands for `to`, which is the constant of
    /// the name `original` at some levels, applied to some terms.
    Applied {
        name: u64,
        original: u64,
        from: u64,
        to: u64,
    },
    /// A recursor, which has the name `to` in the file.
    Renamed {
        name: u64,
        to: u64,
    },
}

/// The name of the constant that stands for something.
fn name_of(original: Original) -> u64
    ensures { result ≡ number_of original }
{
    match original {
        Original::Applied { name, .. } => name,
        Original::Renamed { name, .. } => name,
    }
}

/// What the constant of this name stands for. Of several of one name the first counts.
pub(crate) fn first<T: Terms>(terms: &T, originals: &[Original], name: u64) -> Option<Original>
    requires originals_in { AreOriginalsIn (T.contents terms.now) originals.now }
    requires name_in { name < length (T.contents terms.now).names }
    ensures known { IfSome result (IsOriginalIn (T.contents terms.now)) }
    ensures is { option_map (mark_at (T.contents terms.now)) result
        ≡ first (marks_at (T.contents terms.now) originals.now)
        (name_at (T.contents terms.now) name) }
{
    let mut rest = originals;
    'originals: while let Some((original, more)) = rest.split_first() {
        if names_equal(terms, name_of(*original), name) {
            return Some(*original);
        }
        rest = more;
    }
    None
}

/// The name that the constant of this name has in the file.
pub fn original_name<T: Terms>(terms: &T, originals: &[Original], name: u64) -> u64
    requires originals_in { AreOriginalsIn (T.contents terms.now) originals.now }
    requires name_in { name < length (T.contents terms.now).names }
    ensures known { result < length (T.contents terms.now).names }
    ensures is { name_at (T.contents terms.now) result
        ≡ read_name (T.contents terms.now) originals.now (name_at (T.contents terms.now) name) }
{
    match first(terms, originals, name) {
        None => name,
        Some(Original::Applied { original, .. }) => original,
        Some(Original::Renamed { to, .. }) => to,
    }
}
