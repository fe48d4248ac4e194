//! A spelled term.

use lk_store::memory::NoMemory;
use lk_store::node::{LevelNode, ListNode, NameNode, Node};
use lk_store::text::Text;

/// A node that the library's store lacks. A number in it that is below the library's size of its kind
/// is the library's; size + i is the i-th own node of that kind before it.
#[derive(Drop)]
pub enum OwnNode {
    Name(NameNode),
    Text(Text),
    Level(LevelNode),
    List(ListNode),
    Term(Node),
}

/// A term over the library's store: the nodes that the store lacks, each after its parts, and the
/// number of the term.
#[derive(Drop)]
pub struct Spelled {
    pub own: Vec<OwnNode>,
    pub root: u64,
}

/// Why a term is not spelled.
#[derive(Clone, Copy)]
pub enum SpellError {
    /// It has more than 4,096 terms and levels that the library lacks.
    TooWide,
    NoMemory,
}

impl From<NoMemory> for SpellError {
    ghost use Rattle.std.specs.Prelude.{◌≡◌};
    ghost use Rattle.lk_spell.specs.declared.spelled.SpellError.TheVariants.{NoMemory};

    ghost from_gives = { λ _ e. e ≡ NoMemory };

    fn from(_e: NoMemory) -> SpellError {
        SpellError::NoMemory
    }
}
