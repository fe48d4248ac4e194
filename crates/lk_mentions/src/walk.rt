//! Whether a term mentions one of some names: a walk over its parts, each once.

ghost use Rattle.std.specs.Prelude.{◌≡◌, ◌<◌, All, length, IfOk};
ghost use Rattle.lk_tree.specs.Mentions.{mentions};
ghost use Rattle.lk_store.specs.Contents.{tree_at};
ghost use Rattle.lk_mentions.specs.Names.{names_at};
ghost use Rattle.lk_mentions.specs.Walks.{AreClear, is_clear};

use crate::mentioned::Mentioned;
use crate::names::Names;
use crate::part::Met;
use lk_rows::table::Table;
use lk_seek::walk::seek;
use lk_store::memory::NoMemory;
use lk_store::terms::Terms;
use std::alloc::Global;

/// Whether a term mentions none of the names. What was met in terms that mention none of them is not
/// walked again.
pub fn is_clear<T: Terms>(
    alloc: Global,
    terms: &T,
    names: &Names,
    met: &mut Table<Met>,
    e: u64,
) -> Result<bool, NoMemory>
    requires names_in { All (λ n. n < length (T.contents terms.now).names) names.now }
    requires tree_in { e < length (T.contents terms.now).trees }
    requires met { AreClear (T.contents terms.now) names.now met.old }
    ensures clear { IfOk result (λ r. r ≡ is_clear (T.contents terms.now) names.now e) }
    ensures met { IfOk result (λ r. AreClear (T.contents terms.now) names.now met.new) }
{
    let seeker = Mentioned { terms, names };
    let found = seek(alloc, &seeker, met, e)?;
    Ok(!found)
}

/// Whether a term mentions one of the names, as that of a constant or of the structure of a
/// projection. The types of Locals do not count. Each part is looked at once, however often it
/// stands in the term.
pub fn mentions<T: Terms>(alloc: Global, terms: &T, names: &Names, e: u64) -> Result<bool, NoMemory>
    requires names_in { All (λ n. n < length (T.contents terms.now).names) names.now }
    requires tree_in { e < length (T.contents terms.now).trees }
    ensures { IfOk result (λ r. r ≡ mentions (names_at (T.contents terms.now) names.now)
        (tree_at (T.contents terms.now) e)) }
{
    let mut met: Table<Met> = Table::new(alloc);
    let clear = is_clear(alloc, terms, names, &mut met, e)?;
    Ok(!clear)
}
