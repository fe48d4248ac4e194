//! The laws of each operation, in the order in which they are asked.

ghost use Rattle.std.specs.Prelude.{◌≡◌, map};
ghost use Rattle.lk_tree.specs.Tree.{Tree};
ghost use Rattle.lk_rulebook.specs.NumberLaws.{laws_of};
ghost use Rattle.lk_laws.specs.Operations.{op_at};
ghost use Rattle.lk_laws.specs.Sides.{law_at};

use crate::constant::Constant;
use crate::operation::LawfulOp;
use crate::sides::{Number, Side};

/// Two sides that have to be equal, and the built-in name in them, beside those of `Nat` itself, that has to be given.
#[derive(Clone, Copy)]
pub struct Law {
    pub holds: Option<Constant>,
    pub left: Side,
    pub right: Side,
}

const ADD: &[Law] = &[
    Law {
        holds: None,
        left: Side::Value(Number::X, Number::Zero),
        right: Side::Plain(Number::X),
    },
    Law {
        holds: None,
        left: Side::Value(Number::X, Number::AfterY),
        right: Side::AfterValue,
    },
];

const SUB: &[Law] = &[
    Law {
        holds: Some(Constant::Pred),
        left: Side::Before(Number::Zero),
        right: Side::Plain(Number::Zero),
    },
    Law {
        holds: Some(Constant::Pred),
        left: Side::Before(Number::AfterX),
        right: Side::Plain(Number::X),
    },
    Law {
        holds: None,
        left: Side::Value(Number::X, Number::Zero),
        right: Side::Plain(Number::X),
    },
    Law {
        holds: Some(Constant::Pred),
        left: Side::Value(Number::X, Number::AfterY),
        right: Side::BeforeValue,
    },
];

const MUL: &[Law] = &[
    Law {
        holds: None,
        left: Side::Value(Number::X, Number::Zero),
        right: Side::Plain(Number::Zero),
    },
    Law {
        holds: Some(Constant::Operation(LawfulOp::Add)),
        left: Side::Value(Number::X, Number::AfterY),
        right: Side::WithValue(Constant::Operation(LawfulOp::Add)),
    },
];

const POW: &[Law] = &[
    Law {
        holds: None,
        left: Side::Value(Number::X, Number::Zero),
        right: Side::Plain(Number::One),
    },
    Law {
        holds: Some(Constant::Operation(LawfulOp::Mul)),
        left: Side::Value(Number::X, Number::AfterY),
        right: Side::WithValue(Constant::Operation(LawfulOp::Mul)),
    },
];

const BEQ: &[Law] = &[
    Law {
        holds: Some(Constant::True),
        left: Side::Value(Number::Zero, Number::Zero),
        right: Side::Truth(Constant::True),
    },
    Law {
        holds: Some(Constant::False),
        left: Side::Value(Number::Zero, Number::AfterY),
        right: Side::Truth(Constant::False),
    },
    Law {
        holds: Some(Constant::False),
        left: Side::Value(Number::AfterX, Number::Zero),
        right: Side::Truth(Constant::False),
    },
    Law {
        holds: None,
        left: Side::Value(Number::AfterX, Number::AfterY),
        right: Side::Value(Number::X, Number::Y),
    },
];

const BLE: &[Law] = &[
    Law {
        holds: Some(Constant::True),
        left: Side::Value(Number::Zero, Number::Zero),
        right: Side::Truth(Constant::True),
    },
    Law {
        holds: Some(Constant::True),
        left: Side::Value(Number::Zero, Number::AfterY),
        right: Side::Truth(Constant::True),
    },
    Law {
        holds: Some(Constant::False),
        left: Side::Value(Number::AfterX, Number::Zero),
        right: Side::Truth(Constant::False),
    },
    Law {
        holds: None,
        left: Side::Value(Number::AfterX, Number::AfterY),
        right: Side::Value(Number::X, Number::Y),
    },
];

/// The laws of an operation.
pub fn laws_of(op: LawfulOp) -> &'static [Law]
    ensures { (v : Tree) → map (law_at v) result.now ≡ laws_of (op_at op) v }
{
    match op {
        LawfulOp::Add => ADD,
        LawfulOp::Sub => SUB,
        LawfulOp::Mul => MUL,
        LawfulOp::Pow => POW,
        LawfulOp::Beq => BEQ,
        LawfulOp::Ble => BLE,
    }
}
