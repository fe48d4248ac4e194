//! Whether a term is a type of the block, applied to the block's parameters and to indices.

ghost use Rattle.std.specs.Prelude.{◌≡◌, ◌<◌, ◌&&◌, nat_eq, length, map, All, IfOk, IfNone, IfSome, None, Some};
ghost use Rattle.lk_tree.specs.Mentions.{same_name};
ghost use Rattle.lk_tree.specs.Spine.{head, args};
ghost use Rattle.lk_store.specs.Contents.{name_at, list_at, tree_at, Extends};
ghost use Rattle.lk_env.specs.Units.{IsTypeIn};
ghost use Rattle.lk_mentions.specs.Names.{names_at};
ghost use Rattle.lk_inductive.specs.BlockSteps.{after_params, mention_none, is_listed, plain_indices, as_member};
ghost use Rattle.lk_block.specs.Frames.{listed_at, frame_at, IsFrameIn};
ghost use Rattle.lk_lists.specs.Names.{named_at};
ghost use Rattle.lk_block.specs.Members.{own_name, member_at, IsMemberIn};

use crate::frame::Frame;
use lk_ask::asks::Asks;
use lk_ask::building::build;
use lk_env::unit::BlockType;
use lk_lists::names::names_equal;
use lk_mentions::names::Names;
use lk_mentions::part::Met;
use lk_mentions::walk::is_clear;
use lk_rows::table::Table;
use lk_spine::{args, head};
use lk_store::memory::NoMemory;
use lk_store::node::Node;
use lk_store::terms::Terms;
use std::alloc::Global;

/// A type of the block, by its name, with the indices that it is applied to after the block's parameters.
#[derive(Drop)]
pub struct Member {
    pub name: u64,
    pub indices: Vec<u64>,
}

/// Whether this type has this name and so many indices.
fn is_listing<T: Terms>(terms: &T, listed: &BlockType, name: u64, count: u64) -> bool
    requires listed_in { IsTypeIn (T.contents terms.now) listed.now }
    requires name_in { name < length (T.contents terms.now).names }
    ensures { result ≡ (same_name (name_at (T.contents terms.now) listed.now.name)
        (name_at (T.contents terms.now) name) && nat_eq listed.now.indices count) }
{
    if !names_equal(terms, listed.name, name) {
        return false;
    }
    listed.indices == count
}

/// Whether a type of this name is one of the types, with so many indices.
fn is_listed<T: Terms>(terms: &T, types: &[BlockType], name: u64, count: u64) -> bool
    requires types_in { All (IsTypeIn (T.contents terms.now)) types.now }
    requires name_in { name < length (T.contents terms.now).names }
    ensures { result ≡ is_listed (listed_at (T.contents terms.now) types.now)
        (name_at (T.contents terms.now) name) count }
{
    let mut rest = types;
    'types: while let Some((listed, more)) = rest.split_first() {
        if is_listing(terms, listed, name, count) {
            return true;
        }
        rest = more;
    }
    false
}

/// Whether the terms mention none of the names. Parts that several of them share are looked at once.
fn mention_none<T: Terms>(
    alloc: Global,
    terms: &T,
    names: &Names,
    trees: &[u64],
) -> Result<bool, NoMemory>
    requires names_in { All (λ n. n < length (T.contents terms.now).names) names.now }
    requires trees_in { All (λ x. x < length (T.contents terms.now).trees) trees.now }
    ensures { IfOk result (λ r. r ≡ mention_none (names_at (T.contents terms.now) names.now)
        (map (tree_at (T.contents terms.now)) trees.now)) }
{
    let mut met: Table<Met> = Table::new(alloc);
    let mut rest = trees;
    'trees: while let Some((tree, more)) = rest.split_first() {
        if !is_clear(alloc, terms, names, &mut met, *tree)? {
            return Ok(false);
        }
        rest = more;
    }
    Ok(true)
}

/// The arguments after the parameters, where they begin with these.
fn after_parameters<'a, T: Terms>(
    terms: &T,
    parameters: &[u64],
    arguments: &'a [u64],
) -> Option<&'a [u64]>
    requires parameters_in { All (λ x. x < length (T.contents terms.now).trees) parameters.now }
    requires arguments_in { All (λ x. x < length (T.contents terms.now).trees) arguments.now }
    ensures known { IfSome result (λ r. All (λ x. x < length (T.contents terms.now).trees) r.now) }
    ensures none { IfNone result (after_params (map (tree_at (T.contents terms.now)) parameters.now)
        (map (tree_at (T.contents terms.now)) arguments.now) ≡ None) }
    ensures rest { IfSome result (λ r. after_params
        (map (tree_at (T.contents terms.now)) parameters.now)
        (map (tree_at (T.contents terms.now)) arguments.now)
        ≡ Some (map (tree_at (T.contents terms.now)) r.now)) }
{
    let mut left = parameters;
    let mut right = arguments;
    'parameters: while let Some((parameter, left_rest)) = left.split_first() {
        match right.split_first() {
            None => return None,
            Some((argument, right_rest)) => {
                if !terms.same(*parameter, *argument) {
                    return None;
                }
                left = left_rest;
                right = right_rest;
            }
        }
    }
    Some(right)
}

/// Whether these arguments, after the parameters, are the indices of the type of this name: as many as it has, and none of
/// them mentions a type of the block.
fn are_indices<T: Terms>(
    alloc: Global,
    terms: &T,
    frame: &Frame,
    name: u64,
    indices: &[u64],
) -> Result<bool, NoMemory>
    requires frame_in { IsFrameIn (T.contents terms.now) frame.now }
    requires name_in { name < length (T.contents terms.now).names }
    requires indices_in { All (λ x. x < length (T.contents terms.now).trees) indices.now }
    ensures { IfOk result (λ r. r ≡ (is_listed
        (listed_at (T.contents terms.now) frame.now.types.now) (name_at (T.contents terms.now) name)
        (length indices.now) && mention_none (names_at (T.contents terms.now) frame.now.names)
        (map (tree_at (T.contents terms.now)) indices.now))) }
{
    if !is_listed(terms, frame.types, name, indices.len() as u64) {
        return Ok(false);
    }
    mention_none(alloc, terms, &frame.names, indices)
}

/// The type of this name with these indices.
fn member_of(alloc: Global, name: u64, indices: &[u64]) -> Result<Member, NoMemory>
    ensures name { IfOk result (λ m. m.name ≡ name) }
    ensures indices { IfOk result (λ m. m.indices.items ≡ indices.now) }
{
    let mut kept: Vec<u64> = Vec::new(alloc);
    kept.extend_from_slice(indices)?;
    Ok(Member {
        name,
        indices: kept,
    })
}

/// The type of this name with the arguments past the parameters, where they begin with these and the others are indices.
fn member_with<T: Terms>(
    alloc: Global,
    terms: &T,
    frame: &Frame,
    name: u64,
    arguments: &[u64],
) -> Result<Option<Member>, NoMemory>
    requires frame_in { IsFrameIn (T.contents terms.now) frame.now }
    requires name_in { name < length (T.contents terms.now).names }
    requires arguments_in { All (λ x. x < length (T.contents terms.now).trees) arguments.now }
    ensures known { IfOk result (λ o. IfSome o (IsMemberIn (T.contents terms.now))) }
    ensures member { IfOk result (λ o. member_at (T.contents terms.now) o
        ≡ plain_indices (frame_at (T.contents terms.now) frame.now)
        (name_at (T.contents terms.now) name)
        (after_params (map (tree_at (T.contents terms.now)) frame.now.parameters.now)
        (map (tree_at (T.contents terms.now)) arguments.now))) }
{
    let indices = match after_parameters(terms, frame.parameters, arguments) {
        None => return Ok(None),
        Some(indices) => indices,
    };
    if !are_indices(alloc, terms, frame, name, indices)? {
        return Ok(None);
    }
    let found = member_of(alloc, name, indices)?;
    Ok(Some(found))
}

/// The type of this name with the arguments of a term past the parameters, where they begin with these and the others are
/// indices.
fn member_in<T: Terms>(
    alloc: Global,
    terms: &T,
    frame: &Frame,
    name: u64,
    e: u64,
) -> Result<Option<Member>, NoMemory>
    requires frame_in { IsFrameIn (T.contents terms.now) frame.now }
    requires name_in { name < length (T.contents terms.now).names }
    requires e_in { e < length (T.contents terms.now).trees }
    ensures known { IfOk result (λ o. IfSome o (IsMemberIn (T.contents terms.now))) }
    ensures member { IfOk result (λ o. member_at (T.contents terms.now) o
        ≡ plain_indices (frame_at (T.contents terms.now) frame.now)
        (name_at (T.contents terms.now) name)
        (after_params (map (tree_at (T.contents terms.now)) frame.now.parameters.now)
        (args (tree_at (T.contents terms.now) e)))) }
{
    let arguments = args(alloc, terms, e)?;
    member_with(alloc, terms, frame, name, &arguments)
}

/// The name of a constant that stands at these levels.
fn own_name<A: Asks>(asks: &mut A, levels: u64, head: u64) -> Result<Option<u64>, NoMemory>
    requires levels_in { levels < length (A.contents asks.old).lists }
    requires head_in { head < length (A.contents asks.old).trees }
    ensures keeps { Extends (A.contents asks.old) (A.contents asks.new) }
    ensures stays { A.standing asks.new ≡ A.standing asks.old }
    ensures left { A.left asks.new ≡ A.left asks.old }
    ensures known { IfOk result (λ o. IfSome o (λ n. n < length (A.contents asks.new).names)) }
    ensures name { IfOk result (λ o. named_at (A.contents asks.new) o
        ≡ own_name (list_at (A.contents asks.old) levels) (tree_at (A.contents asks.old) head)) }
{
    let name = match asks.view(head) {
        Node::Const(name, _) => name,
        _ => return Ok(None),
    };
    let own = build(asks, Node::Const(name, levels))?;
    if asks.same(head, own) {
        Ok(Some(name))
    } else {
        Ok(None)
    }
}

/// The type of the block that a term is, applied to the block's parameters and to indices that mention no type of the
/// block; none where the term is something else.
pub(crate) fn as_member<A: Asks>(
    alloc: Global,
    asks: &mut A,
    frame: &Frame,
    e: u64,
) -> Result<Option<Member>, NoMemory>
    requires frame_in { IsFrameIn (A.contents asks.old) frame.now }
    requires e_in { e < length (A.contents asks.old).trees }
    ensures keeps { Extends (A.contents asks.old) (A.contents asks.new) }
    ensures stays { A.standing asks.new ≡ A.standing asks.old }
    ensures left { A.left asks.new ≡ A.left asks.old }
    ensures known { IfOk result (λ o. IfSome o (IsMemberIn (A.contents asks.new))) }
    ensures member { IfOk result (λ o. member_at (A.contents asks.new) o
        ≡ as_member (frame_at (A.contents asks.old) frame.now)
        (head (tree_at (A.contents asks.old) e)) (args (tree_at (A.contents asks.old) e))) }
{
    let start = head(asks, e);
    let name = match own_name(asks, frame.levels, start)? {
        None => return Ok(None),
        Some(name) => name,
    };
    member_in(alloc, asks, frame, name, e)
}
