//! The sides of laws, and the terms that they are of a definition's value.

ghost use Rattle.std.specs.Prelude.{◌<◌, length};
ghost use Rattle.lk_tree.specs.Tree.{app, local};
ghost use Rattle.lk_rulebook.specs.Names.{named, nat};
ghost use Rattle.lk_ask.specs.Looks.{MakesTree};
ghost use Rattle.lk_laws.specs.Sides.{constant, number_tree, of_two, of_both, side_tree};

use crate::constant::{Constant, make_constant, make_nat};
use lk_store::memory::NoMemory;
use lk_store::node::Node;
use lk_store::terms::Terms;
use std::alloc::Global;

/// A number in a law: one of the two of which nothing is known, 0, 1, or the successor of one of the two.
#[derive(Clone, Copy)]
pub enum Number {
    X,
    Y,
    Zero,
    One,
    AfterX,
    AfterY,
}

/// A side of a law.
#[derive(Clone, Copy)]
pub enum Side {
    Plain(Number),
    /// A truth value.
    Truth(Constant),
    /// What the definition's value gives of two numbers.
    Value(Number, Number),
    /// The predecessor of a number.
    Before(Number),
    /// The successor of what the value gives of the two numbers.
    AfterValue,
    /// The predecessor of the same.
    BeforeValue,
    /// What a constant gives of the same and the first number.
    WithValue(Constant),
}

/// One of the two numbers of which nothing is known.
fn variable<T: Terms>(alloc: Global, terms: &mut T, number: u64) -> Result<u64, NoMemory>
    ensures { MakesTree T.contents T.rest terms.old terms.new result
        (λ _. local number (named nat)) }
{
    let ty = make_nat(alloc, terms)?;
    terms.make(Node::Local(number, ty))
}

/// A constant applied to a term.
fn applied<T: Terms>(
    alloc: Global,
    terms: &mut T,
    function: Constant,
    e: u64,
) -> Result<u64, NoMemory>
    requires { e < length (T.contents terms.old).trees }
    ensures { MakesTree T.contents T.rest terms.old terms.new result
        (λ t. app (constant function) (t e)) }
{
    let front = make_constant(alloc, terms, function)?;
    terms.make(Node::App(front, e))
}

/// The successor of one of the two numbers.
fn after<T: Terms>(alloc: Global, terms: &mut T, number: u64) -> Result<u64, NoMemory>
    ensures { MakesTree T.contents T.rest terms.old terms.new result
        (λ _. app (constant Constant.Succ) (local number (named nat))) }
{
    let e = variable(alloc, terms, number)?;
    applied(alloc, terms, Constant::Succ, e)
}

/// 1, as the successor of 0.
fn one<T: Terms>(alloc: Global, terms: &mut T) -> Result<u64, NoMemory>
    ensures { MakesTree T.contents T.rest terms.old terms.new result
        (λ _. app (constant Constant.Succ) (constant Constant.Zero)) }
{
    let zero = make_constant(alloc, terms, Constant::Zero)?;
    applied(alloc, terms, Constant::Succ, zero)
}

fn make_number<T: Terms>(alloc: Global, terms: &mut T, number: Number) -> Result<u64, NoMemory>
    ensures { MakesTree T.contents T.rest terms.old terms.new result (λ _. number_tree number) }
{
    match number {
        Number::X => variable(alloc, terms, 0),
        Number::Y => variable(alloc, terms, 1),
        Number::Zero => make_constant(alloc, terms, Constant::Zero),
        Number::One => one(alloc, terms),
        Number::AfterX => after(alloc, terms, 0),
        Number::AfterY => after(alloc, terms, 1),
    }
}

/// A term applied to another one and a number.
fn of_two<T: Terms>(
    alloc: Global,
    terms: &mut T,
    function: u64,
    first: u64,
    second: Number,
) -> Result<u64, NoMemory>
    requires function_in { function < length (T.contents terms.old).trees }
    requires first_in { first < length (T.contents terms.old).trees }
    ensures { MakesTree T.contents T.rest terms.old terms.new result
        (λ t. of_two (t function) (t first) (number_tree second)) }
{
    let front = terms.make(Node::App(function, first))?;
    let last = make_number(alloc, terms, second)?;
    terms.make(Node::App(front, last))
}

/// What the value gives of two numbers.
fn value_of<T: Terms>(
    alloc: Global,
    terms: &mut T,
    value: u64,
    first: Number,
    second: Number,
) -> Result<u64, NoMemory>
    requires { value < length (T.contents terms.old).trees }
    ensures { MakesTree T.contents T.rest terms.old terms.new result
        (λ t. of_two (t value) (number_tree first) (number_tree second)) }
{
    let number = make_number(alloc, terms, first)?;
    of_two(alloc, terms, value, number, second)
}

/// A constant applied to what the value gives of the two numbers.
fn applied_to_value<T: Terms>(
    alloc: Global,
    terms: &mut T,
    function: Constant,
    value: u64,
) -> Result<u64, NoMemory>
    requires { value < length (T.contents terms.old).trees }
    ensures { MakesTree T.contents T.rest terms.old terms.new result
        (λ t. app (constant function) (of_both (t value))) }
{
    let e = value_of(alloc, terms, value, Number::X, Number::Y)?;
    applied(alloc, terms, function, e)
}

/// The same, and to the first number.
fn with_value<T: Terms>(
    alloc: Global,
    terms: &mut T,
    function: Constant,
    value: u64,
) -> Result<u64, NoMemory>
    requires { value < length (T.contents terms.old).trees }
    ensures { MakesTree T.contents T.rest terms.old terms.new result
        (λ t. of_two (constant function) (of_both (t value)) (number_tree Number.X)) }
{
    let front = applied_to_value(alloc, terms, function, value)?;
    let last = make_number(alloc, terms, Number::X)?;
    terms.make(Node::App(front, last))
}

/// The predecessor of a number.
fn before<T: Terms>(alloc: Global, terms: &mut T, number: Number) -> Result<u64, NoMemory>
    ensures { MakesTree T.contents T.rest terms.old terms.new result
        (λ _. app (constant Constant.Pred) (number_tree number)) }
{
    let e = make_number(alloc, terms, number)?;
    applied(alloc, terms, Constant::Pred, e)
}

/// The term that a side is of this value.
pub fn make_side<T: Terms>(
    alloc: Global,
    terms: &mut T,
    side: Side,
    value: u64,
) -> Result<u64, NoMemory>
    requires { value < length (T.contents terms.old).trees }
    ensures { MakesTree T.contents T.rest terms.old terms.new result
        (λ t. side_tree (t value) side) }
{
    match side {
        Side::Plain(number) => make_number(alloc, terms, number),
        Side::Truth(holds) => make_constant(alloc, terms, holds),
        Side::Value(first, second) => value_of(alloc, terms, value, first, second),
        Side::Before(number) => before(alloc, terms, number),
        Side::AfterValue => applied_to_value(alloc, terms, Constant::Succ, value),
        Side::BeforeValue => applied_to_value(alloc, terms, Constant::Pred, value),
        Side::WithValue(function) => with_value(alloc, terms, function, value),
    }
}
