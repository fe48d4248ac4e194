//! Texts as lists of characters.

ghost use Rattle.std.specs.Prelude.{◌≡◌, ◌<◌, [], ◌∷◌, option_map, IfOk, length};
ghost use Rattle.lk_tree.specs.Tree.{zero_level, const, app};
ghost use Rattle.lk_rulebook.specs.Literals.{char_list, expansion};
ghost use Rattle.lk_ask.specs.Looks.{MakesTree};
ghost use Rattle.lk_store.specs.Contents.{list_at, Extends, IsList};
ghost use Rattle.lk_lit.specs.Builtins.{builtin_name};
ghost use Rattle.lk_lit.specs.Characters.{AreCharacters, prepended, IsMaker};

use crate::builtin::{Builtin, make_builtin};
use crate::constant::make_constant;
use lk_store::memory::NoMemory;
use lk_store::node::{LevelNode, ListNode, Node};
use lk_store::terms::Terms;
use std::alloc::Global;

/// The characters of a text, in order; none where it is not UTF-8.
pub(crate) fn characters_of(alloc: Global, bytes: &[u8]) -> Result<Option<Vec<char>>, NoMemory>
    ensures { IfOk result (λ r. AreCharacters bytes.now (option_map (λ v. v.items) r)) }
{
    match str::from_utf8(bytes) {
        Ok(text) => Ok(Some(text.chars().collect(alloc)?)),
        Err(_) => Ok(None),
    }
}

/// What lists of characters are made with.
#[derive(Clone, Copy)]
pub(crate) struct Maker {
    /// The empty list.
    nil: u64,
    /// `List.cons` at characters.
    cons: u64,
    /// `Char.ofNat`.
    of_nat: u64,
}

/// A constant of lists, at characters.
fn at_char<T: Terms>(
    alloc: Global,
    terms: &mut T,
    name: Builtin,
    levels: u64,
    char_type: u64,
) -> Result<u64, NoMemory>
    requires levels_in { levels < length (T.contents terms.old).lists }
    requires type_in { char_type < length (T.contents terms.old).trees }
    ensures { MakesTree T.contents T.rest terms.old terms.new result
        (λ t. app (const (builtin_name name) (list_at (T.contents terms.old) levels))
        (t char_type)) }
{
    let number = make_builtin(alloc, terms, name)?;
    let constant = terms.make(Node::Const(number, levels))?;
    let e = terms.make(Node::App(constant, char_type))?;
    Ok(e)
}

/// The list of levels whose only one is 0.
fn make_zero<T: Terms>(terms: &mut T) -> Result<u64, NoMemory>
    ensures keeps { Extends (T.contents terms.old) (T.contents terms.new) }
    ensures rest { T.rest terms.new ≡ T.rest terms.old }
    ensures ok { IfOk result (λ ls. IsList (T.contents terms.new) ls (zero_level ∷ [])) }
{
    let zero = terms.make_level(LevelNode::Zero)?;
    let none = terms.make_levels(ListNode::Empty)?;
    let levels = terms.make_levels(ListNode::Cons(zero, none))?;
    Ok(levels)
}

/// Makes what lists of characters are made with.
fn make_maker<T: Terms>(alloc: Global, terms: &mut T) -> Result<Maker, NoMemory>
    ensures keeps { Extends (T.contents terms.old) (T.contents terms.new) }
    ensures rest { T.rest terms.new ≡ T.rest terms.old }
    ensures ok { IfOk result (IsMaker (T.contents terms.new)) }
{
    let levels = make_zero(terms)?;
    let char_type = make_constant(alloc, terms, Builtin::Char)?;
    let nil = at_char(alloc, terms, Builtin::ListNil, levels, char_type)?;
    let cons = at_char(alloc, terms, Builtin::ListCons, levels, char_type)?;
    let of_nat = make_constant(alloc, terms, Builtin::CharOfNat)?;
    Ok(Maker { nil, cons, of_nat })
}

/// A list with one more character before it.
fn prepend<T: Terms>(
    terms: &mut T,
    maker: Maker,
    character: char,
    list: u64,
) -> Result<u64, NoMemory>
    requires maker_in { IsMaker (T.contents terms.old) maker }
    requires list_in { list < length (T.contents terms.old).trees }
    ensures { MakesTree T.contents T.rest terms.old terms.new result
        (λ t. prepended character (t list)) }
{
    let code = terms.make(Node::Lit(character as u128))?;
    let item = terms.make(Node::App(maker.of_nat, code))?;
    let front = terms.make(Node::App(maker.cons, item))?;
    let e = terms.make(Node::App(front, list))?;
    Ok(e)
}

/// The list of these characters.
fn list_of<T: Terms>(terms: &mut T, maker: Maker, characters: Vec<char>) -> Result<u64, NoMemory>
    requires { IsMaker (T.contents terms.old) maker }
    ensures { MakesTree T.contents T.rest terms.old terms.new result
        (λ _. char_list characters.items) }
{
    let mut rest = characters;
    let mut list = maker.nil;
    'characters: while let Some(character) = rest.pop() {
        list = prepend(terms, maker, character, list)?;
    }
    Ok(list)
}

/// The expansion of the text of these characters.
pub(crate) fn make_expansion<T: Terms>(
    alloc: Global,
    terms: &mut T,
    characters: Vec<char>,
) -> Result<u64, NoMemory>
    ensures { MakesTree T.contents T.rest terms.old terms.new result
        (λ _. expansion characters.items) }
{
    let maker = make_maker(alloc, terms)?;
    let list = list_of(terms, maker, characters)?;
    let mk = make_constant(alloc, terms, Builtin::StringMk)?;
    let e = terms.make(Node::App(mk, list))?;
    Ok(e)
}
