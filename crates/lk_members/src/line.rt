//! Lines that declare something. Names and trees are numbers of a store.

ghost use Rattle.std.specs.Prelude.{◌≡◌};
ghost use Rattle.lk_members.specs.Stored.{said_of};
ghost use Rattle.lk_members.specs.Taking.{states_list};

use crate::lists::are_same;
use lk_env::unit::{Constructor, Declaration, Recursor};

/// A type of a block as its line states it, without the list of the block's types.
#[derive(Drop)]
pub struct TypeHead {
    pub name: u64,
    pub levels: Vec<u64>,
    pub ty: u64,
    pub parameters: u64,
    pub indices: u64,
    /// The names of its constructors.
    pub constructors: Vec<u64>,
}

/// What a line declares. What is rare and large is boxed, so that the line of a declaration alone takes no room for it.
#[derive(Drop)]
pub enum StoredMember {
    /// A declaration that is a unit alone.
    Alone(Declaration),
    /// A type, with the types of its block.
    Type {
        head: Box<TypeHead>,
        types: Vec<u64>,
    },
    /// A constructor.
    Constructor(Box<Constructor>),
    /// A recursor of the block with these types.
    Recursor {
        types: Vec<u64>,
        recursor: Box<Recursor>,
    },
}

/// A line, with its number in the file.
#[derive(Drop)]
pub struct StoredLine {
    pub number: u64,
    pub said: StoredMember,
}

impl StoredLine {
    /// Whether the line is a type's, with this list of the types of its block.
    pub(crate) fn has_list(&self, names: &[u64]) -> bool
        ensures { result ≡ states_list (said_of self.now.said) names.now }
    {
        match &self.said {
            StoredMember::Type { types, .. } => are_same(types, names),
            _ => false,
        }
    }
}
