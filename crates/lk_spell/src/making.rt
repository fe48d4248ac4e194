//! A spelled term is made in an overlay.

ghost use Rattle.std.specs.Prelude.{◌≡◌, IfOk};
ghost use Rattle.lk_store.specs.Contents.{Extends, IsTree};
ghost use Rattle.lk_store.specs.Store.{contents_of};
ghost use Rattle.lk_store.specs.Layers.{layers_contents};
ghost use Rattle.lk_spell.specs.Moved.{AreDone, moved};
ghost use Rattle.lk_spell.specs.Spelled.{IsOwnIn, IsSpelled, spelled_tree};
ghost use Rattle.lk_spell.specs.Standing.{own_parts, IsNumberOf};

use crate::moved::{moved_level, moved_list, moved_name, moved_term};
use crate::numbers::Numbers;
use crate::part::Part;
use crate::sizes::number_next;
use crate::spelled::{OwnNode, Spelled};
use crate::speller::copied;
use lk_store::memory::NoMemory;
use lk_store::overlay::Overlay;
use lk_store::terms::Terms;
use std::alloc::Global;

/// Makes what an own node stands for, where its parts are made.
fn make_own(
    alloc: Global,
    terms: &mut Overlay,
    numbers: &Numbers,
    node: &OwnNode,
) -> Result<u64, NoMemory>
    requires done { AreDone numbers.now (own_parts node.now) }
    requires known { IsOwnIn (layers_contents terms.old) (moved numbers.now node.now) }
    ensures keeps { Extends (layers_contents terms.old) (layers_contents terms.new) }
    ensures base { terms.new.base ≡ terms.old.base }
    ensures made { IfOk result (IsNumberOf (layers_contents terms.old)
        (layers_contents terms.new) (moved numbers.now node.now)) }
{
    match node {
        OwnNode::Name(x) => terms.make_name(moved_name(numbers, *x)),
        OwnNode::Text(s) => {
            let text = copied(alloc, s)?;
            terms.make_text(text)
        }
        OwnNode::Level(x) => terms.make_level(moved_level(numbers, *x)),
        OwnNode::List(x) => terms.make_levels(moved_list(numbers, *x)),
        OwnNode::Term(x) => terms.make(moved_term(numbers, *x)),
    }
}

/// The number of a spelled term in an overlay of the library that it is spelled over. Its own nodes
/// are made in turn; a term of the library is its number.
pub fn unspell(alloc: Global, terms: &mut Overlay, spelled: &Spelled) -> Result<u64, NoMemory>
    requires spelled { IsSpelled (contents_of terms.old.base) spelled.now }
    requires over { Extends (contents_of terms.old.base) (layers_contents terms.old) }
    ensures keeps { Extends (layers_contents terms.old) (layers_contents terms.new) }
    ensures base { terms.new.base ≡ terms.old.base }
    ensures tree { IfOk result (λ e. IsTree (layers_contents terms.new) e
        (spelled_tree (contents_of terms.old.base) spelled.now)) }
{
    let mut sizes = terms.base_sizes();
    let mut numbers = Numbers::new(alloc, sizes);
    let mut rest = spelled.own.as_slice();
    'make: while let Some((node, more)) = rest.split_first() {
        let number = make_own(alloc, terms, &numbers, node)?;
        let part = number_next(&mut sizes, node)?;
        numbers.add(part, number)?;
        rest = more;
    }
    Ok(numbers.get(Part::Term(spelled.root)))
}
