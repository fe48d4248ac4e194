//! Parts that terms are made of, by their numbers in a store.

ghost use Rattle.std.specs.Prelude.{◌≡◌};
ghost use Rattle.lk_spell.specs.Parts.{number_of};

/// A name, a text, a level, a list of levels or a term, by its number.
#[derive(Clone, Copy, PartialEq, Eq, Hash)]
pub enum Part {
    Name(u64),
    Text(u64),
    Level(u64),
    List(u64),
    Term(u64),
}

impl Part {
    /// Its number among those of its kind.
    pub fn number(self) -> u64
        ensures { result ≡ number_of self }
    {
        match self {
            Part::Name(n) | Part::Text(n) | Part::Level(n) | Part::List(n) | Part::Term(n) => n,
        }
    }
}
