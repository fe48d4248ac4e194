//! Sets of names.

ghost use Rattle.std.specs.Prelude.{◌≡◌, ◌<◌, ℕ, ◌==◌, All, IfOk, OnOk, true, if◌then◌else◌};
ghost use Rattle.std.specs.Prelude.{◌++◌, length, map, nat_eq};
ghost use Rattle.std.specs.HashSet.{contains};
ghost use Rattle.lk_tree.specs.Mentions.{is_one_of};
ghost use Rattle.lk_store.specs.Contents.{name_at};
ghost use Rattle.lk_mentions.specs.Names.{any_number, names_at};

use lk_env::unit::BlockType;
use lk_store::memory::NoMemory;
use lk_store::terms::Terms;
use std::alloc::Global;
use std::collections::HashSet;
use std::marker::Model;

fn add(set: &mut HashSet<u64>, number: u64) -> Result<(), NoMemory>
    ensures { OnOk result ((q : ℕ) → contains nat_eq set.new q
        ≡ (if number == q then true else contains nat_eq set.old q)) }
{
    match set.insert(number) {
        Ok(_) => {}
        Err(_) => return Err(NoMemory),
    }
    Ok(())
}

fn set_of(alloc: Global, numbers: &[u64]) -> Result<HashSet<u64>, NoMemory>
    ensures { IfOk result (λ set. (q : ℕ) → contains nat_eq set q ≡ any_number q numbers.now) }
{
    let mut set: HashSet<u64> = HashSet::new(alloc);
    for number in numbers {
        add(&mut set, *number)?;
    }
    Ok(set)
}

/// Names by their numbers, as a list and as a set. They are put together once, and then asked for many names.
#[derive(Drop)]
pub struct Names {
    numbers: Vec<u64>,
    set: HashSet<u64>,
}

impl Model for Names {
    ghost use Rattle.std.specs.Prelude.{◌≡◌, ℕ, List, nat_eq};
    ghost use Rattle.std.specs.HashSet.{contains};
    ghost use Rattle.lk_mentions.specs.Names.{any_number};

    ghost Value = { List ℕ };

    ghost view = { λ n. n.numbers.items };

    ghost invariant = { λ n. (q : ℕ) → contains nat_eq n.set q ≡ any_number q n.numbers.items };
}

impl Names {
    /// These names.
    pub fn new(alloc: Global, numbers: &[u64]) -> Result<Names, NoMemory>
        ensures { IfOk result (λ names. names ≡ numbers.now) }
    {
        let set = set_of(alloc, numbers)?;
        let mut kept: Vec<u64> = Vec::new(alloc);
        kept.extend_from_slice(numbers)?;
        Ok(Names { numbers: kept, set })
    }

    /// Whether the number is one of theirs.
    pub fn has(&self, number: u64) -> bool
        ensures { result ≡ any_number number self.now }
    {
        self.set.contains(&number)
    }
}

/// Whether a name is one of the names. A store has each name once, so that its number tells.
pub fn is_one_of<T: Terms>(terms: &T, names: &Names, name: u64) -> bool
    requires names_in { All (λ n. n < length (T.contents terms.now).names) names.now }
    requires name_in { name < length (T.contents terms.now).names }
    ensures { result ≡ is_one_of (names_at (T.contents terms.now) names.now)
        (name_at (T.contents terms.now) name) }
{
    let _names = terms.count_names();
    names.has(name)
}

fn push_names(names: &mut Vec<u64>, types: &[BlockType]) -> Result<(), NoMemory>
    ensures { OnOk result (names.new.items ≡ names.old.items ++ map (λ t. t.name) types.now) }
{
    for t in types {
        names.push(t.name)?;
    }
    Ok(())
}

/// The names of a block's types.
pub fn names_of(alloc: Global, types: &[BlockType]) -> Result<Names, NoMemory>
    ensures { IfOk result (λ names. names ≡ map (λ t. t.name) types.now) }
{
    let mut names = Vec::new(alloc);
    push_names(&mut names, types)?;
    Names::new(alloc, &names)
}
