//! What is added to the tables of a store. A row is added only where none has its key, so that each
//! thing stands once. The base is looked into only where it has all parts of the key.

ghost use Rattle.std.specs.Prelude.{◌≡◌, ◌≢◌, ◌<◌, ◌≤◌, ◌^◌, ℕ, List, length};
ghost use Rattle.std.specs.Prelude.{IfOk, OnErr, IfNone, IfSome, IsTrue};
ghost use Rattle.lk_rows.specs.Rows.{NoRowHas};
ghost use Rattle.lk_store.specs.Measures.{list_has_params};
ghost use Rattle.lk_store.specs.Contents.{name_at, name_of, level_of, list_of, tree_of};
ghost use Rattle.lk_store.specs.Contents.{IsNameIn, IsLevelIn, IsListIn, IsIn};
ghost use Rattle.lk_store.specs.Contents.{IsName, IsText, IsLevel, IsList, IsTree};
ghost use Rattle.lk_store.specs.Keys.{IsCodeOf, IsMarkedLevel, hash_of_tree};
ghost use Rattle.lk_store.specs.declared.key.TreeRow.{TreeRow};
ghost use Rattle.lk_store.specs.declared.key.Number.{Number};
ghost use Rattle.lk_store.specs.Nodes.{name_node, level_node, list_node, number_in, IsKeyOf};
ghost use Rattle.lk_store.specs.Nodes.{NameFits, LevelFits, ListFits, NodeFits};
ghost use Rattle.lk_store.specs.RowFor.{IsRowFor, IsShort, IsJoined};
ghost use Rattle.lk_store.specs.Store.{over, contents_of, IsStore, Recoded, Grown};

use crate::key::{LevelKey, LevelRow, ListKey, ListRow, NameKey, Number, TreeKey, TreeRow};
use crate::memory::NoMemory;
use crate::node::{LevelNode, ListNode, NameNode, Node};
use crate::parts::{has_level_parts, has_list_parts, has_name_parts, has_tree_parts};
use crate::reading::{level_params_in, level_row, list_params_in, marks_of, tree_row};
use crate::stored::StoredTree;
use crate::tables::Tables;
use crate::text::Text;
use lk_rows::layers::{add, count, find};
use lk_rows::row::Row;

/// The code of a number, which is kept where it takes more than 31 bits.
#[inline]
fn encode(base: &Tables, own: &mut Tables, n: u128) -> Result<u32, NoMemory>
    requires { IsStore (over base.now own.old) }
    ensures recoded { Recoded (over base.now own.old) (over base.now own.new) }
    ensures ok { IfOk result (λ code. IsCodeOf (over base.now own.new).numbers code n) }
    ensures same_trees { own.new.trees ≡ own.old.trees }
{
    if n < 0x8000_0000 {
        return Ok(n as u32);
    }
    encode_large(base, own, n)
}

/// The code of a number that takes more than 31 bits.
#[cold]
fn encode_large(base: &Tables, own: &mut Tables, n: u128) -> Result<u32, NoMemory>
    requires store { IsStore (over base.now own.old) }
    requires large { 2 ^ 31 ≤ n }
    ensures recoded { Recoded (over base.now own.old) (over base.now own.new) }
    ensures ok { IfOk result (λ code. IsCodeOf (over base.now own.new).numbers code n) }
    ensures same_trees { own.new.trees ≡ own.old.trees }
{
    let number = Number { value: n };
    let hash = Number::hash_of(0, &number);
    match find(&base.numbers, &own.numbers, &number, hash, true) {
        Some(i) => Ok(i as u32 + 0x8000_0000),
        None => {
            if count(&base.numbers, &own.numbers) + 1 >= 0x8000_0000 {
                return Err(NoMemory);
            }
            let i = add(&base.numbers, &mut own.numbers, number, hash)?;
            Ok(i as u32 + 0x8000_0000)
        }
    }
}

#[inline]
fn name_key(node: NameNode) -> NameKey
    requires { NameFits node }
    ensures { name_node result ≡ node }
{
    match node {
        NameNode::Anonymous => NameKey::Anonymous,
        NameNode::Text(n, s) => NameKey::Text(n as u32, s as u32),
        NameNode::Number(n, i) => NameKey::Number(n as u32, i),
    }
}

#[inline]
fn level_key(node: LevelNode) -> LevelKey
    requires { LevelFits node }
    ensures { level_node result ≡ node }
{
    match node {
        LevelNode::Zero => LevelKey::Zero,
        LevelNode::Succ(l) => LevelKey::Succ(l as u32),
        LevelNode::Max(l, m) => LevelKey::Max(l as u32, m as u32),
        LevelNode::IMax(l, m) => LevelKey::IMax(l as u32, m as u32),
        LevelNode::Param(n) => LevelKey::Param(n as u32),
    }
}

#[inline]
fn list_key(node: ListNode) -> ListKey
    requires { ListFits node }
    ensures { list_node result ≡ node }
{
    match node {
        ListNode::Empty => ListKey::Empty,
        ListNode::Cons(l, ls) => ListKey::Cons(l as u32, ls as u32),
    }
}

/// A row for a level that has none.
fn level_row_for(base: &Tables, own: &Tables, key: LevelKey, node: LevelNode) -> LevelRow
    requires store { IsStore (over base.now own.now) }
    requires known { IsLevelIn (contents_of (over base.now own.now)) node }
    ensures key { result.key ≡ key }
    ensures marks { IsMarkedLevel (level_of (contents_of (over base.now own.now)) node) result }
{
    let (params, zero) = match node {
        LevelNode::Zero => (false, true),
        LevelNode::Succ(l) => (level_row(base, own, l).params, false),
        LevelNode::Max(l, m) => {
            let (first, second) = (level_row(base, own, l), level_row(base, own, m));
            (first.params || second.params, first.zero && second.zero)
        }
        LevelNode::IMax(l, m) => {
            let (first, second) = (level_row(base, own, l), level_row(base, own, m));
            (first.params || second.params, second.zero)
        }
        LevelNode::Param(_) => (true, false),
    };
    LevelRow { key, params, zero }
}

/// Whether a parameter stands in the list of a node.
fn params_of_list(base: &Tables, own: &Tables, node: ListNode) -> bool
    requires store { IsStore (over base.now own.now) }
    requires known { IsListIn (contents_of (over base.now own.now)) node }
    ensures { result ≡ list_has_params (list_of (contents_of (over base.now own.now)) node) }
{
    match node {
        ListNode::Empty => false,
        ListNode::Cons(l, ls) => level_params_in(base, own, l) || list_params_in(base, own, ls),
    }
}

/// The number of a level.
pub(crate) fn make_level_in(
    base: &Tables,
    own: &mut Tables,
    node: LevelNode,
) -> Result<u64, NoMemory>
    requires base { IsStore base.now }
    requires store { IsStore (over base.now own.old) }
    requires known { IsLevelIn (contents_of (over base.now own.old)) node }
    ensures grown { Grown (over base.now own.old) (over base.now own.new) }
    ensures ok { let c = contents_of (over base.now own.old) in
        IfOk result (λ l. IsLevel (contents_of (over base.now own.new)) l (level_of c node)) }
    ensures err { OnErr result (own.new ≡ own.old) }
{
    let key = level_key(node);
    let hash = LevelRow::hash_of(0, &key);
    let in_base = has_level_parts(base, key);
    match find(&base.levels, &own.levels, &key, hash, in_base) {
        Some(l) => Ok(l),
        None => {
            let row = level_row_for(base, own, key, node);
            let l = add(&base.levels, &mut own.levels, row, hash)?;
            Ok(l)
        }
    }
}

/// The number of a list of levels.
pub(crate) fn make_list_in(base: &Tables, own: &mut Tables, node: ListNode) -> Result<u64, NoMemory>
    requires base { IsStore base.now }
    requires store { IsStore (over base.now own.old) }
    requires known { IsListIn (contents_of (over base.now own.old)) node }
    ensures grown { Grown (over base.now own.old) (over base.now own.new) }
    ensures ok { let c = contents_of (over base.now own.old) in
        IfOk result (λ ls. IsList (contents_of (over base.now own.new)) ls (list_of c node)) }
    ensures err { OnErr result (own.new ≡ own.old) }
{
    let key = list_key(node);
    let hash = ListRow::hash_of(0, &key);
    let in_base = has_list_parts(base, key);
    match find(&base.lists, &own.lists, &key, hash, in_base) {
        Some(ls) => Ok(ls),
        None => {
            let params = params_of_list(base, own, node);
            let ls = add(&base.lists, &mut own.lists, ListRow { key, params }, hash)?;
            Ok(ls)
        }
    }
}

/// The number of a name.
pub(crate) fn make_name_in(base: &Tables, own: &mut Tables, node: NameNode) -> Result<u64, NoMemory>
    requires base { IsStore base.now }
    requires store { IsStore (over base.now own.old) }
    requires known { IsNameIn (contents_of (over base.now own.old)) node }
    ensures grown { Grown (over base.now own.old) (over base.now own.new) }
    ensures ok { let c = contents_of (over base.now own.old) in
        IfOk result (λ n. IsName (contents_of (over base.now own.new)) n (name_of c node)) }
    ensures err { OnErr result (own.new ≡ own.old) }
{
    let key = name_key(node);
    let hash = NameKey::hash_of(0, &key);
    let in_base = has_name_parts(base, key);
    match find(&base.names, &own.names, &key, hash, in_base) {
        Some(n) => Ok(n),
        None => {
            let n = add(&base.names, &mut own.names, key, hash)?;
            Ok(n)
        }
    }
}

/// The number of a name, where it is there.
pub(crate) fn find_name_in(base: &Tables, own: &Tables, node: NameNode) -> Option<u64>
    requires base { IsStore base.now }
    requires store { IsStore (over base.now own.now) }
    requires known { IsNameIn (contents_of (over base.now own.now)) node }
    ensures absent { let c = contents_of (over base.now own.now) in
        IfNone result ((n : ℕ) → n < length c.names → name_at c n ≢ name_of c node) }
    ensures present { let c = contents_of (over base.now own.now) in
        IfSome result (λ n. IsName c n (name_of c node)) }
{
    let key = name_key(node);
    let hash = NameKey::hash_of(0, &key);
    let in_base = has_name_parts(base, key);
    find(&base.names, &own.names, &key, hash, in_base)
}

/// The number of a text.
pub(crate) fn make_text_in(base: &Tables, own: &mut Tables, text: Text) -> Result<u64, NoMemory>
    requires { IsStore (over base.now own.old) }
    ensures grown { Grown (over base.now own.old) (over base.now own.new) }
    ensures ok { IfOk result (λ s. IsText (contents_of (over base.now own.new)) s text) }
    ensures err { OnErr result (own.new ≡ own.old) }
{
    let hash = Text::hash_of(0, &text);
    match find(&base.texts, &own.texts, &text, hash, true) {
        Some(s) => Ok(s),
        None => {
            let s = add(&base.texts, &mut own.texts, text, hash)?;
            Ok(s)
        }
    }
}

/// The number in a node that its key has a code for, or 0.
#[inline]
fn number_of(node: Node) -> u128
    ensures { result ≡ number_in node }
{
    match node {
        Node::Var(i) | Node::Proj(_, i, _) | Node::Local(i, _) => u128::from(i),
        Node::Lit(n) => n,
        Node::Sort(_)
        | Node::Const(_, _)
        | Node::App(_, _)
        | Node::Lam(_, _)
        | Node::Pi(_, _)
        | Node::Let(_, _, _)
        | Node::Wide
        | Node::Str(_) => 0,
    }
}

/// The key of a tree, where the code of the number in it is at hand.
#[inline(always)]
fn coded_key(node: Node, code: u32) -> TreeKey
    requires { NodeFits node }
    ensures { (ns : List Number) → IsCodeOf ns code (number_in node) → IsKeyOf ns result node }
{
    match node {
        Node::Var(_) => TreeKey::Var(code),
        Node::Sort(l) => TreeKey::Sort(l as u32),
        Node::Const(n, ls) => TreeKey::Const(n as u32, ls as u32),
        Node::App(f, a) => TreeKey::App(f as u32, a as u32),
        Node::Lam(t, b) => TreeKey::Lam(t as u32, b as u32),
        Node::Pi(t, b) => TreeKey::Pi(t as u32, b as u32),
        Node::Let(t, v, b) => TreeKey::Let(t as u32, v as u32, b as u32),
        Node::Proj(n, _, s) => TreeKey::Proj(n as u32, code, s as u32),
        Node::Lit(_) => TreeKey::Lit(code),
        Node::Wide => TreeKey::Wide,
        Node::Str(s) => TreeKey::Str(s as u32),
        Node::Local(_, t) => TreeKey::Local(code, t as u32),
    }
}

/// The key of a tree.
#[inline]
fn tree_key(base: &Tables, own: &mut Tables, node: Node) -> Result<TreeKey, NoMemory>
    requires store { IsStore (over base.now own.old) }
    requires fits { NodeFits node }
    ensures recoded { Recoded (over base.now own.old) (over base.now own.new) }
    ensures ok { IfOk result (λ key. IsKeyOf (over base.now own.new).numbers key node) }
{
    let code = encode(base, own, number_of(node))?;
    Ok(coded_key(node, code))
}

/// Whether the bounds that a row keeps take no more than 31 bits, so that they are their own codes.
#[inline(always)]
fn is_short(row: TreeRow) -> bool
    ensures { IsTrue result → IsShort row }
{
    row.loose < 0x8000_0000 && row.local < 0x8000_0000
}

/// The row of a tree of two parts by their rows and the bound of the second one, where all bounds are
/// their own codes.
#[inline(always)]
fn joined(key: TreeKey, first: TreeRow, second: TreeRow, loose: u32) -> Option<TreeRow>
    ensures { IfSome result (λ row. IsJoined row key first second loose) }
{
    if !is_short(first) || !is_short(second) {
        return None;
    }
    Some(TreeRow {
        key,
        loose: first.loose.max(loose),
        local: first.local.max(second.local),
        params: first.params || second.params,
        narrow: first.narrow && second.narrow,
    })
}

/// A row for a tree of two parts, where their bounds are their own codes.
#[inline(always)]
fn short_row(base: &Tables, own: &Tables, key: TreeKey, node: Node) -> Option<TreeRow>
    requires store { IsStore (over base.now own.now) }
    requires known { IsIn (contents_of (over base.now own.now)) node }
    requires key { IsKeyOf (over base.now own.now).numbers key node }
    ensures { IfSome result (λ row. IsRowFor (over base.now own.now) row key node) }
{
    match node {
        Node::App(f, a) => {
            let second = tree_row(base, own, a);
            joined(key, tree_row(base, own, f), second, second.loose)
        }
        Node::Lam(t, b) | Node::Pi(t, b) => {
            let second = tree_row(base, own, b);
            let loose = second.loose.saturating_sub(1);
            joined(key, tree_row(base, own, t), second, loose)
        }
        _ => None,
    }
}

/// A row for a tree that has none, whatever its bounds.
#[inline(never)]
fn long_row(base: &Tables, own: &mut Tables, key: TreeKey, node: Node) -> Result<TreeRow, NoMemory>
    requires store { IsStore (over base.now own.old) }
    requires known { IsIn (contents_of (over base.now own.old)) node }
    requires key { IsKeyOf (over base.now own.old).numbers key node }
    ensures recoded { Recoded (over base.now own.old) (over base.now own.new) }
    ensures ok { IfOk result (λ row. IsRowFor (over base.now own.new) row key node) }
    ensures same_trees { own.new.trees ≡ own.old.trees }
{
    let marks = marks_of(base, own, node);
    let loose = encode(base, own, marks.loose)?;
    let local = encode(base, own, marks.local)?;
    Ok(TreeRow {
        key,
        loose,
        local,
        params: marks.params,
        narrow: marks.narrow,
    })
}

/// A row for a tree that has none.
#[inline(always)]
fn tree_row_for(
    base: &Tables,
    own: &mut Tables,
    key: TreeKey,
    node: Node,
) -> Result<TreeRow, NoMemory>
    requires store { IsStore (over base.now own.old) }
    requires known { IsIn (contents_of (over base.now own.old)) node }
    requires key { IsKeyOf (over base.now own.old).numbers key node }
    ensures recoded { Recoded (over base.now own.old) (over base.now own.new) }
    ensures ok { IfOk result (λ row. IsRowFor (over base.now own.new) row key node) }
    ensures same_trees { own.new.trees ≡ own.old.trees }
{
    if let Some(row) = short_row(base, own, key, node) {
        return Ok(row);
    }
    long_row(base, own, key, node)
}

/// Adds a tree that has no row, where its key is at hand.
#[inline(never)]
fn add_tree(
    base: &Tables,
    own: &mut Tables,
    node: Node,
    key: TreeKey,
    hash: u64,
) -> Result<u64, NoMemory>
    requires store { IsStore (over base.now own.old) }
    requires known { IsIn (contents_of (over base.now own.old)) node }
    requires key { IsKeyOf (over base.now own.old).numbers key node }
    requires hash { hash ≡ hash_of_tree 0 key }
    requires absent { NoRowHas (λ (row : TreeRow). row.key) (over base.now own.old).trees key }
    ensures grown { Grown (over base.now own.old) (over base.now own.new) }
    ensures ok { let c = contents_of (over base.now own.old) in
        IfOk result (λ e. IsTree (contents_of (over base.now own.new)) e (tree_of c node)) }
    ensures err { let c = contents_of (over base.now own.old) in
        OnErr result (contents_of (over base.now own.new) ≡ c) }
{
    let row = tree_row_for(base, own, key, node)?;
    let e = add(&base.trees, &mut own.trees, StoredTree::new(row), hash)?;
    Ok(e)
}

/// The number of a tree whose key is at hand. It is compiled anew for each kind that a caller knows, so
/// that a comparison with another key is of little more than two numbers.
#[inline(always)]
fn make_keyed(base: &Tables, own: &mut Tables, node: Node, key: TreeKey) -> Result<u64, NoMemory>
    requires base { IsStore base.now }
    requires store { IsStore (over base.now own.old) }
    requires known { IsIn (contents_of (over base.now own.old)) node }
    requires key { IsKeyOf (over base.now own.old).numbers key node }
    ensures grown { Grown (over base.now own.old) (over base.now own.new) }
    ensures ok { let c = contents_of (over base.now own.old) in
        IfOk result (λ e. IsTree (contents_of (over base.now own.new)) e (tree_of c node)) }
    ensures err { let c = contents_of (over base.now own.old) in
        OnErr result (contents_of (over base.now own.new) ≡ c) }
{
    let hash = StoredTree::hash_of(0, &key);
    let in_base = has_tree_parts(base, key);
    match find(&base.trees, &own.trees, &key, hash, in_base) {
        Some(e) => Ok(e),
        None => add_tree(base, own, node, key, hash),
    }
}

/// The number of a tree in whose node a number may stand.
#[inline(never)]
fn make_coded(base: &Tables, own: &mut Tables, node: Node) -> Result<u64, NoMemory>
    requires base { IsStore base.now }
    requires store { IsStore (over base.now own.old) }
    requires known { IsIn (contents_of (over base.now own.old)) node }
    ensures grown { Grown (over base.now own.old) (over base.now own.new) }
    ensures ok { let c = contents_of (over base.now own.old) in
        IfOk result (λ e. IsTree (contents_of (over base.now own.new)) e (tree_of c node)) }
    ensures err { let c = contents_of (over base.now own.old) in
        OnErr result (contents_of (over base.now own.new) ≡ c) }
{
    let key = tree_key(base, own, node)?;
    make_keyed(base, own, node, key)
}

/// The number of a tree. The arms of the frequent kinds make their node anew, of numbers: a node that
/// is copied whole waits until its parts, which were written one by one, are in memory.
pub(crate) fn make_in(base: &Tables, own: &mut Tables, node: Node) -> Result<u64, NoMemory>
    requires base { IsStore base.now }
    requires store { IsStore (over base.now own.old) }
    requires known { IsIn (contents_of (over base.now own.old)) node }
    ensures grown { Grown (over base.now own.old) (over base.now own.new) }
    ensures ok { let c = contents_of (over base.now own.old) in
        IfOk result (λ e. IsTree (contents_of (over base.now own.new)) e (tree_of c node)) }
    ensures err { let c = contents_of (over base.now own.old) in
        OnErr result (contents_of (over base.now own.new) ≡ c) }
{
    match node {
        Node::App(f, a) => make_keyed(base, own, Node::App(f, a), coded_key(Node::App(f, a), 0)),
        Node::Lam(t, b) => make_keyed(base, own, Node::Lam(t, b), coded_key(Node::Lam(t, b), 0)),
        Node::Pi(t, b) => make_keyed(base, own, Node::Pi(t, b), coded_key(Node::Pi(t, b), 0)),
        _ => make_coded(base, own, node),
    }
}
