//! The value of an operation, as a term.

ghost use Rattle.std.specs.Prelude.{◌≡◌, Option, Some, length, option_map, IfOk};
ghost use Rattle.lk_tree.specs.Operations.{Value as PlainValue, truth};
ghost use Rattle.lk_rulebook.specs.Names.{bool_name};
ghost use Rattle.lk_questions.specs.Literals.{result_of};
ghost use Rattle.lk_op.specs.Ops.{value_at, fitting};
ghost use Rattle.lk_ask.specs.Settles.{Settles};
ghost use Rattle.lk_lit.specs.Builtins.{builtin_name};
ghost use Rattle.lk_lit.specs.Values.{tree_if, value_program, IsKnownTerm};

use crate::builtin::Builtin;
use crate::constant::make_named;
use crate::given::look_builtin;
use crate::shapes::nat_shape;
use lk_ask::looks::Looks;
use lk_op::Value;
use lk_store::memory::NoMemory;
use lk_store::node::Node;
use lk_tree::rule::Rule;

fn bool_constant(holds: bool) -> Builtin
    ensures { builtin_name result ≡ bool_name holds }
{
    if holds {
        Builtin::BoolTrue
    } else {
        Builtin::BoolFalse
    }
}

/// `Bool.true` or `Bool.false`, which must be given.
fn truth_term<L: Looks>(looks: &mut L, holds: bool) -> Result<Result<Option<u64>, Rule>, NoMemory>
    ensures known { IfOk result (IsKnownTerm (length (L.contents looks.new).trees)) }
    ensures settles { Settles L.contents L.rest L.sight looks.old looks.new result tree_if
        (λ _. result_of (Some (truth holds))) }
{
    match look_builtin(looks, bool_constant(holds))? {
        Ok(given) => {
            let e = make_named(looks, given.name)?;
            Ok(Ok(Some(e)))
        }
        Err(rule) => Ok(Err(rule)),
    }
}

/// A value as a term; none where it is a number above 2^128 - 1, which is no value here.
fn value_term<L: Looks>(
    looks: &mut L,
    value: Option<Value>,
) -> Result<Result<Option<u64>, Rule>, NoMemory>
    ensures known { IfOk result (IsKnownTerm (length (L.contents looks.new).trees)) }
    ensures settles { (o : Option PlainValue) → option_map value_at value ≡ fitting o
        → Settles L.contents L.rest L.sight looks.old looks.new result tree_if
        (λ _. result_of o) }
{
    match value {
        Some(value) => match value {
            Value::Number(n) => {
                let e = looks.make(Node::Lit(n))?;
                Ok(Ok(Some(e)))
            }
            Value::Truth(holds) => truth_term(looks, holds),
        },
        None => Ok(Ok(None)),
    }
}

/// The value of an operation whose arguments are numerals, as a term: `Nat` must have its shape.
pub(crate) fn computed_term<L: Looks>(
    looks: &mut L,
    value: Option<Value>,
) -> Result<Result<Option<u64>, Rule>, NoMemory>
    ensures known { IfOk result (IsKnownTerm (length (L.contents looks.new).trees)) }
    ensures settles { (o : Option PlainValue) → option_map value_at value ≡ fitting o
        → Settles L.contents L.rest L.sight looks.old looks.new result tree_if
        (λ _. value_program o) }
{
    match nat_shape(looks)? {
        Ok(()) => value_term(looks, value),
        Err(rule) => Ok(Err(rule)),
    }
}
