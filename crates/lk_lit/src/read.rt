//! Literals read as constructors.

ghost use Rattle.std.specs.Prelude.{◌<◌, suc, IfOk, length};
ghost use Rattle.lk_tree.specs.Tree.{lit};
ghost use Rattle.lk_questions.specs.Strings.{text_to_ctor, literal_to_ctor};
ghost use Rattle.lk_store.specs.Contents.{tree_at};
ghost use Rattle.lk_ask.specs.Settles.{Settles};

use crate::builtin::Builtin;
use crate::constant::make_named;
use crate::expansion::expansion_of;
use crate::given::look_builtin;
use lk_ask::looks::Looks;
use lk_store::memory::NoMemory;
use lk_store::node::Node;
use lk_store::terms::Terms;
use lk_tree::rule::Rule;

/// `Nat.zero`, which must be given.
fn zero_to_ctor<L: Looks>(looks: &mut L) -> Result<Result<u64, Rule>, NoMemory>
    ensures settles { Settles L.contents L.rest L.sight looks.old looks.new result tree_at
        (λ _. literal_to_ctor (lit 0)) }
    ensures known { IfOk result (λ r. IfOk r (λ e. e < length (L.contents looks.new).trees)) }
{
    match look_builtin(looks, Builtin::NatZero)? {
        Ok(zero) => {
            let e = make_named(looks, zero.name)?;
            Ok(Ok(e))
        }
        Err(rule) => Ok(Err(rule)),
    }
}

/// The successor of a number. `Nat.succ` must be given.
fn successor_to_ctor<L: Looks>(looks: &mut L, below: u128) -> Result<Result<u64, Rule>, NoMemory>
    ensures settles { Settles L.contents L.rest L.sight looks.old looks.new result tree_at
        (λ _. literal_to_ctor (lit (suc below))) }
    ensures known { IfOk result (λ r. IfOk r (λ e. e < length (L.contents looks.new).trees)) }
{
    match look_builtin(looks, Builtin::NatSucc)? {
        Ok(successor) => {
            let constant = make_named(looks, successor.name)?;
            let number = looks.make(Node::Lit(below))?;
            let e = looks.make(Node::App(constant, number))?;
            Ok(Ok(e))
        }
        Err(rule) => Ok(Err(rule)),
    }
}

/// A number as a constructor.
fn number_to_ctor<L: Looks>(looks: &mut L, number: u128) -> Result<Result<u64, Rule>, NoMemory>
    ensures settles { Settles L.contents L.rest L.sight looks.old looks.new result tree_at
        (λ _. literal_to_ctor (lit number)) }
    ensures known { IfOk result (λ r. IfOk r (λ e. e < length (L.contents looks.new).trees)) }
{
    if number == 0 {
        zero_to_ctor(looks)
    } else {
        successor_to_ctor(looks, number - 1)
    }
}

/// A text as its expansion, where it expands; each other term is left as it is.
pub fn text_to_ctor<L: Looks>(looks: &mut L, e: u64) -> Result<Result<u64, Rule>, NoMemory>
    requires { e < length (L.contents looks.old).trees }
    ensures settles { Settles L.contents L.rest L.sight looks.old looks.new result tree_at
        (λ c. text_to_ctor (tree_at c e)) }
    ensures known { IfOk result (λ r. IfOk r (λ x. x < length (L.contents looks.new).trees)) }
{
    match looks.view(e) {
        Node::Str(text) => match expansion_of(looks, text)? {
            Ok(expansion) => Ok(Ok(expansion.unwrap_or(e))),
            Err(rule) => Ok(Err(rule)),
        },
        _ => Ok(Ok(e)),
    }
}

/// A literal as a constructor: a number is zero or a successor, and a text is its expansion, where it expands. Each other
/// term is left as it is.
pub fn literal_to_ctor<L: Looks>(looks: &mut L, e: u64) -> Result<Result<u64, Rule>, NoMemory>
    requires { e < length (L.contents looks.old).trees }
    ensures settles { Settles L.contents L.rest L.sight looks.old looks.new result tree_at
        (λ c. literal_to_ctor (tree_at c e)) }
    ensures known { IfOk result (λ r. IfOk r (λ x. x < length (L.contents looks.new).trees)) }
{
    match looks.view(e) {
        Node::Lit(number) => number_to_ctor(looks, number),
        _ => text_to_ctor(looks, e),
    }
}
