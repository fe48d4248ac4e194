//! The parts of an auxiliary type, and the auxiliary type of them.

ghost use Rattle.std.specs.Prelude.{◌≡◌, ◌<◌, length, map, All, IfOk};
ghost use Rattle.lk_tree.specs.Tree.{const};
ghost use Rattle.lk_tree.specs.Spine.{apply as applied};
ghost use Rattle.lk_store.specs.Contents.{name_at, list_at, tree_at, Extends, IsTree};
ghost use Rattle.lk_env.specs.Units.{type_at, IsTypeIn};
ghost use Rattle.lk_declaration.specs.Courses.{Settles};
ghost use Rattle.lk_auxiliary.specs.Parts.{parts_form, parts_at, ArePartsIn};
ghost use Rattle.lk_auxiliary.specs.Places.{IsAtIn, levels_of, arguments_of};

use crate::ends::end_of;
use crate::instance::{At, ctors_at};
use lk_ask::stop::Stop;
use lk_env::unit::BlockType;
use lk_spine::apply;
use lk_store::memory::NoMemory;
use lk_store::node::Node;
use lk_store::terms::Terms;
use std::alloc::Global;

/// A type past its parameters, the Locals of its indices, the level of its sort, and its constructors' types past their
/// parameters.
#[derive(Drop)]
pub struct Parts {
    pub ty: u64,
    pub indices: Vec<u64>,
    pub sort: u64,
    pub constructors: Vec<u64>,
}

/// The parts of a type at levels and arguments, that has become `ty` there.
pub fn parts_of<T: Terms>(
    alloc: Global,
    terms: &mut T,
    at: &At<'_>,
    own: &BlockType,
    ty: u64,
) -> Result<Parts, Stop>
    requires at_in { IsAtIn (T.contents terms.old) at.now }
    requires own_in { IsTypeIn (T.contents terms.old) own.now }
    requires ty_in { ty < length (T.contents terms.old).trees }
    ensures keeps { Extends (T.contents terms.old) (T.contents terms.new) }
    ensures rest { T.rest terms.new ≡ T.rest terms.old }
    ensures known { IfOk result (ArePartsIn (T.contents terms.new)) }
    ensures parts { Settles (parts_form at.now.first (levels_of (T.contents terms.old) at.now)
        (arguments_of (T.contents terms.old) at.now) (type_at (T.contents terms.old) own.now)
        (tree_at (T.contents terms.old) ty)) (parts_at (T.contents terms.new)) result }
{
    let end = end_of(alloc, terms, at.first, own.indices, ty)?;
    let constructors = ctors_at(alloc, terms, at, &own.constructors)?;
    Ok(Parts {
        ty,
        indices: end.0,
        sort: end.1,
        constructors,
    })
}

/// The constant of a name at levels, applied.
pub fn instance_of<T: Terms>(
    terms: &mut T,
    name: u64,
    list: u64,
    arguments: &[u64],
) -> Result<u64, NoMemory>
    requires name_in { name < length (T.contents terms.old).names }
    requires list_in { list < length (T.contents terms.old).lists }
    requires arguments_in { All (λ x. x < length (T.contents terms.old).trees) arguments.now }
    ensures keeps { Extends (T.contents terms.old) (T.contents terms.new) }
    ensures rest { T.rest terms.new ≡ T.rest terms.old }
    ensures ok { IfOk result (λ e. IsTree (T.contents terms.new) e
        (applied (const (name_at (T.contents terms.old) name)
        (list_at (T.contents terms.old) list))
        (map (tree_at (T.contents terms.old)) arguments.now))) }
{
    let front = terms.make(Node::Const(name, list))?;
    apply(terms, front, arguments)
}
