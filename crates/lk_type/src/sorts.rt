//! Sorts.

ghost use Rattle.std.specs.Prelude.{◌<◌, IfOk, length};
ghost use Rattle.lk_tree.specs.Tree.{sort as tree_sort, imax_level};
ghost use Rattle.lk_questions.specs.Program.{done};
ghost use Rattle.lk_questions.specs.Infer.{infer_steps};
ghost use Rattle.lk_store.specs.Contents.{level_at, tree_at, IsLevel};
ghost use Rattle.lk_ask.specs.Looks.{Made, MakesTree};
ghost use Rattle.lk_type.specs.Types.{level_in, pi_end, Infers};

use crate::infer::TypeNext;
use lk_ask::looks::Looks;
use lk_ask::next::Next;
use lk_ask::query::Answer;
use lk_store::memory::NoMemory;
use lk_store::node::{LevelNode, Node};
use lk_tree::rule::Rule;

/// The sort above that of a level.
pub(crate) fn next_sort<L: Looks>(looks: &mut L, level: u64) -> Result<TypeNext, NoMemory>
    requires { level < length (L.contents looks.old).levels }
    ensures { Infers L.contents L.rest L.sight looks.old looks.new result
        (λ t. infer_steps (tree_sort (level_at (L.contents looks.old) level))) }
{
    let above = looks.make_level(LevelNode::Succ(level))?;
    let e = looks.make(Node::Sort(above))?;
    Ok(Next::Done(Answer::Term(e)))
}

/// The level of a sort.
fn level_of<L: Looks>(looks: &mut L, sort: u64) -> Result<u64, NoMemory>
    requires { sort < length (L.contents looks.old).trees }
    ensures made { Made L.contents L.rest looks.old looks.new }
    ensures ok { IfOk result
        (λ l. IsLevel (L.contents looks.new) l (level_in (tree_at (L.contents looks.old) sort))) }
{
    match looks.view(sort) {
        Node::Sort(level) => Ok(level),
        _ => looks.make_level(LevelNode::Zero),
    }
}

/// The sort of a Pi, from those of its domain and its body.
pub(crate) fn sort_of_pi<L: Looks>(looks: &mut L, sort: u64, level: u64) -> Result<u64, NoMemory>
    requires sort_in { sort < length (L.contents looks.old).trees }
    requires level_in { level < length (L.contents looks.old).levels }
    ensures { MakesTree L.contents L.rest looks.old looks.new result
        (λ t. tree_sort (imax_level (level_in (t sort)) (level_at (L.contents looks.old) level))) }
{
    let domain = level_of(looks, sort)?;
    let above = looks.make_level(LevelNode::IMax(domain, level))?;
    looks.make(Node::Sort(above))
}

/// The sort of a Pi, as its type.
fn pi_sort<L: Looks>(looks: &mut L, sort: u64, level: u64) -> Result<TypeNext, NoMemory>
    requires sort_in { sort < length (L.contents looks.old).trees }
    requires level_in { level < length (L.contents looks.old).levels }
    ensures { Infers L.contents L.rest L.sight looks.old looks.new result
        (λ t. done (tree_sort
        (imax_level (level_in (t sort)) (level_at (L.contents looks.old) level)))) }
{
    let e = sort_of_pi(looks, sort, level)?;
    Ok(Next::Done(Answer::Term(e)))
}

/// Goes on with the sort of a Pi's body.
pub(crate) fn pi_body_sort<L: Looks>(looks: &mut L, sort: u64, e: u64) -> Result<TypeNext, NoMemory>
    requires sort_in { sort < length (L.contents looks.old).trees }
    requires e_in { e < length (L.contents looks.old).trees }
    ensures { Infers L.contents L.rest L.sight looks.old looks.new result
        (λ t. pi_end (level_in (t sort)) (t e)) }
{
    match looks.view(e) {
        Node::Sort(level) => pi_sort(looks, sort, level),
        _ => Ok(Next::No(Rule::NotASort)),
    }
}
