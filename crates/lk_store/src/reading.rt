//! What the tables of a store say of its numbers. The rows of `base` have the first numbers, and
//! `own` goes on after them.

ghost use Rattle.std.specs.Prelude.{◌≡◌, ◌<◌, ◌^◌, ◌↔◌, [], length, IsTrue};
ghost use Rattle.lk_tree.specs.Bind.{bound};
ghost use Rattle.lk_tree.specs.Level.{is_zero_level};
ghost use Rattle.lk_tree.specs.Loose.{loose};
ghost use Rattle.lk_tree.specs.Scan.{is_narrow};
ghost use Rattle.lk_store.specs.Measures.{level_has_params, list_has_params, has_params, AreMarks};
ghost use Rattle.lk_store.specs.Contents.{name_at, text_at, level_at, list_at, tree_at};
ghost use Rattle.lk_store.specs.Contents.{name_of, level_of, list_of, tree_of};
ghost use Rattle.lk_store.specs.Contents.{IsNameIn, IsLevelIn, IsListIn, IsIn};
ghost use Rattle.lk_store.specs.Keys.{decoded, IsCode, IsMarkedTree};
ghost use Rattle.lk_store.specs.Nodes.{name_node, level_node, list_node, node_of, AreCodes};
ghost use Rattle.lk_store.specs.Store.{over, contents_of, IsStore};
ghost use Rattle.lk_store.specs.Values.{AreApart};

use crate::key::{LevelKey, LevelRow, ListKey, ListRow, NameKey, TreeRow};
use crate::marks::Marks;
use crate::node::{LevelNode, ListNode, NameNode, Node};
use crate::stored::{StoredTree, TreeKind};
use crate::tables::Tables;
use crate::text::Text;
use lk_rows::layers::{count, row_at};

/// The number that a code stands for.
#[inline]
pub(crate) fn decode(base: &Tables, own: &Tables, code: u32) -> u128
    requires { IsCode (over base.now own.now).numbers code }
    ensures { result ≡ decoded (over base.now own.now).numbers code }
{
    if code < 0x8000_0000 {
        u128::from(code)
    } else {
        row_at(&base.numbers, &own.numbers, u64::from(code - 0x8000_0000)).value
    }
}

/// The number that the code of a `u64` stands for.
#[inline]
fn decode_short(base: &Tables, own: &Tables, code: u32) -> u64
    requires code { IsCode (over base.now own.now).numbers code }
    requires short { decoded (over base.now own.now).numbers code < 2 ^ 64 }
    ensures { result ≡ decoded (over base.now own.now).numbers code }
{
    decode(base, own, code) as u64
}

#[inline]
fn name_of_key(key: NameKey) -> NameNode
    ensures { result ≡ name_node key }
{
    match key {
        NameKey::Anonymous => NameNode::Anonymous,
        NameKey::Text(n, s) => NameNode::Text(u64::from(n), u64::from(s)),
        NameKey::Number(n, i) => NameNode::Number(u64::from(n), i),
    }
}

#[inline]
fn level_of_key(key: LevelKey) -> LevelNode
    ensures { result ≡ level_node key }
{
    match key {
        LevelKey::Zero => LevelNode::Zero,
        LevelKey::Succ(l) => LevelNode::Succ(u64::from(l)),
        LevelKey::Max(l, m) => LevelNode::Max(u64::from(l), u64::from(m)),
        LevelKey::IMax(l, m) => LevelNode::IMax(u64::from(l), u64::from(m)),
        LevelKey::Param(n) => LevelNode::Param(u64::from(n)),
    }
}

#[inline]
fn list_of_key(key: ListKey) -> ListNode
    ensures { result ≡ list_node key }
{
    match key {
        ListKey::Empty => ListNode::Empty,
        ListKey::Cons(l, ls) => ListNode::Cons(u64::from(l), u64::from(ls)),
    }
}

/// The node of a row.
#[inline]
fn node_of_row(base: &Tables, own: &Tables, row: &StoredTree) -> Node
    requires { AreCodes (over base.now own.now).numbers row.now.key }
    ensures { result ≡ node_of (over base.now own.now).numbers row.now.key }
{
    let (a, b, c) = (row.first, row.second, row.third);
    match row.kind {
        TreeKind::Var => Node::Var(decode_short(base, own, a)),
        TreeKind::Sort => Node::Sort(u64::from(a)),
        TreeKind::Const => Node::Const(u64::from(a), u64::from(b)),
        TreeKind::App => Node::App(u64::from(a), u64::from(b)),
        TreeKind::Lam => Node::Lam(u64::from(a), u64::from(b)),
        TreeKind::Pi => Node::Pi(u64::from(a), u64::from(b)),
        TreeKind::Let => Node::Let(u64::from(a), u64::from(b), u64::from(c)),
        TreeKind::Proj => Node::Proj(u64::from(a), decode_short(base, own, b), u64::from(c)),
        TreeKind::Lit => Node::Lit(decode(base, own, a)),
        TreeKind::Wide => Node::Wide,
        TreeKind::Str => Node::Str(u64::from(a)),
        TreeKind::Local => Node::Local(decode_short(base, own, a), u64::from(b)),
    }
}

/// The row of a name.
#[inline]
fn name_row(base: &Tables, own: &Tables, n: u64) -> NameKey
    requires store { IsStore (over base.now own.now) }
    requires known { n < length (contents_of (over base.now own.now)).names }
    ensures known { IsNameIn (contents_of (over base.now own.now)) (name_node result) }
    ensures name { let c = contents_of (over base.now own.now) in
        name_of c (name_node result) ≡ name_at c n }
{
    *row_at(&base.names, &own.names, n)
}

/// The node of a name.
#[inline]
pub(crate) fn name_in(base: &Tables, own: &Tables, n: u64) -> NameNode
    requires store { IsStore (over base.now own.now) }
    requires known { n < length (contents_of (over base.now own.now)).names }
    ensures known { IsNameIn (contents_of (over base.now own.now)) result }
    ensures name { let c = contents_of (over base.now own.now) in name_of c result ≡ name_at c n }
{
    name_of_key(name_row(base, own, n))
}

/// How many names there are. No two of them are equal.
#[inline]
pub(crate) fn count_names_in(base: &Tables, own: &Tables) -> u64
    requires { IsStore (over base.now own.now) }
    ensures count { result ≡ length (contents_of (over base.now own.now)).names }
    ensures apart { AreApart [] (contents_of (over base.now own.now)).names }
{
    count(&base.names, &own.names)
}

/// Whether two numbers have one name.
#[inline]
pub(crate) fn same_name_in(base: &Tables, own: &Tables, m: u64, n: u64) -> bool
    requires store { IsStore (over base.now own.now) }
    requires m_in { m < length (contents_of (over base.now own.now)).names }
    requires n_in { n < length (contents_of (over base.now own.now)).names }
    ensures { let c = contents_of (over base.now own.now) in
        IsTrue result ↔ (name_at c m ≡ name_at c n) }
{
    let _base = base;
    let _own = own;
    m == n
}

/// The text of a number.
pub(crate) fn text_in<'a>(base: &'a Tables, own: &'a Tables, s: u64) -> &'a Text
    requires { s < length (contents_of (over base.now own.now)).texts }
    ensures { result.now ≡ text_at (contents_of (over base.now own.now)) s }
{
    row_at(&base.texts, &own.texts, s)
}

/// The row of a level.
#[inline]
pub(crate) fn level_row(base: &Tables, own: &Tables, l: u64) -> LevelRow
    requires store { IsStore (over base.now own.now) }
    requires known { l < length (contents_of (over base.now own.now)).levels }
    ensures known { IsLevelIn (contents_of (over base.now own.now)) (level_node result.key) }
    ensures level { let c = contents_of (over base.now own.now) in
        level_of c (level_node result.key) ≡ level_at c l }
    ensures params { let c = contents_of (over base.now own.now) in
        result.params ≡ level_has_params (level_at c l) }
    ensures zero { let c = contents_of (over base.now own.now) in
        result.zero ≡ is_zero_level (level_at c l) }
{
    *row_at(&base.levels, &own.levels, l)
}

/// The node of a level.
#[inline]
pub(crate) fn level_in(base: &Tables, own: &Tables, l: u64) -> LevelNode
    requires store { IsStore (over base.now own.now) }
    requires known { l < length (contents_of (over base.now own.now)).levels }
    ensures known { IsLevelIn (contents_of (over base.now own.now)) result }
    ensures level { let c = contents_of (over base.now own.now) in
        level_of c result ≡ level_at c l }
{
    level_of_key(level_row(base, own, l).key)
}

/// Whether a parameter stands in a level.
#[inline]
pub(crate) fn level_params_in(base: &Tables, own: &Tables, l: u64) -> bool
    requires store { IsStore (over base.now own.now) }
    requires known { l < length (contents_of (over base.now own.now)).levels }
    ensures { result ≡ level_has_params (level_at (contents_of (over base.now own.now)) l) }
{
    level_row(base, own, l).params
}

/// Whether a level is 0 under every assignment.
#[inline]
pub(crate) fn level_zero_in(base: &Tables, own: &Tables, l: u64) -> bool
    requires store { IsStore (over base.now own.now) }
    requires known { l < length (contents_of (over base.now own.now)).levels }
    ensures { result ≡ is_zero_level (level_at (contents_of (over base.now own.now)) l) }
{
    level_row(base, own, l).zero
}

/// The row of a list of levels.
#[inline]
fn list_row(base: &Tables, own: &Tables, ls: u64) -> ListRow
    requires store { IsStore (over base.now own.now) }
    requires known { ls < length (contents_of (over base.now own.now)).lists }
    ensures known { IsListIn (contents_of (over base.now own.now)) (list_node result.key) }
    ensures list { let c = contents_of (over base.now own.now) in
        list_of c (list_node result.key) ≡ list_at c ls }
    ensures params { let c = contents_of (over base.now own.now) in
        result.params ≡ list_has_params (list_at c ls) }
{
    *row_at(&base.lists, &own.lists, ls)
}

/// The node of a list of levels.
#[inline]
pub(crate) fn list_in(base: &Tables, own: &Tables, ls: u64) -> ListNode
    requires store { IsStore (over base.now own.now) }
    requires known { ls < length (contents_of (over base.now own.now)).lists }
    ensures known { IsListIn (contents_of (over base.now own.now)) result }
    ensures list { let c = contents_of (over base.now own.now) in list_of c result ≡ list_at c ls }
{
    list_of_key(list_row(base, own, ls).key)
}

/// Whether a parameter stands in a list of levels.
#[inline]
pub(crate) fn list_params_in(base: &Tables, own: &Tables, ls: u64) -> bool
    requires store { IsStore (over base.now own.now) }
    requires known { ls < length (contents_of (over base.now own.now)).lists }
    ensures { result ≡ list_has_params (list_at (contents_of (over base.now own.now)) ls) }
{
    list_row(base, own, ls).params
}

/// How many trees there are.
#[inline]
pub(crate) fn len_in(base: &Tables, own: &Tables) -> u64
    requires { IsStore (over base.now own.now) }
    ensures { result ≡ length (contents_of (over base.now own.now)).trees }
{
    count(&base.trees, &own.trees)
}

/// The row of a tree, where it stands.
#[inline(always)]
fn stored_row<'a>(base: &'a Tables, own: &'a Tables, e: u64) -> &'a StoredTree
    requires store { IsStore (over base.now own.now) }
    requires known { e < length (contents_of (over base.now own.now)).trees }
    ensures codes { AreCodes (over base.now own.now).numbers result.now.key }
    ensures known { let c = contents_of (over base.now own.now) in
        IsIn c (node_of (over base.now own.now).numbers result.now.key) }
    ensures tree { let c = contents_of (over base.now own.now) in
        tree_of c (node_of (over base.now own.now).numbers result.now.key) ≡ tree_at c e }
    ensures marks { let c = contents_of (over base.now own.now) in
        IsMarkedTree (over base.now own.now).numbers (tree_at c e) result.now }
{
    row_at(&base.trees, &own.trees, e)
}

/// What is kept of a tree.
#[inline(always)]
pub(crate) fn tree_row(base: &Tables, own: &Tables, e: u64) -> TreeRow
    requires store { IsStore (over base.now own.now) }
    requires known { e < length (contents_of (over base.now own.now)).trees }
    ensures { let c = contents_of (over base.now own.now) in
        IsMarkedTree (over base.now own.now).numbers (tree_at c e) result }
{
    stored_row(base, own, e).row()
}

/// The node of a tree.
#[inline]
pub(crate) fn view_in(base: &Tables, own: &Tables, e: u64) -> Node
    requires store { IsStore (over base.now own.now) }
    requires known { e < length (contents_of (over base.now own.now)).trees }
    ensures known { IsIn (contents_of (over base.now own.now)) result }
    ensures tree { let c = contents_of (over base.now own.now) in tree_of c result ≡ tree_at c e }
{
    node_of_row(base, own, stored_row(base, own, e))
}

/// Whether two numbers have one tree.
#[inline]
pub(crate) fn same_in(base: &Tables, own: &Tables, a: u64, b: u64) -> bool
    requires store { IsStore (over base.now own.now) }
    requires a_in { a < length (contents_of (over base.now own.now)).trees }
    requires b_in { b < length (contents_of (over base.now own.now)).trees }
    ensures { let c = contents_of (over base.now own.now) in
        IsTrue result ↔ (tree_at c a ≡ tree_at c b) }
{
    let _base = base;
    let _own = own;
    a == b
}

/// The least number above the loose variables of a tree.
#[inline]
pub(crate) fn loose_in(base: &Tables, own: &Tables, e: u64) -> u128
    requires store { IsStore (over base.now own.now) }
    requires known { e < length (contents_of (over base.now own.now)).trees }
    ensures { result ≡ loose (tree_at (contents_of (over base.now own.now)) e) }
{
    decode(base, own, tree_row(base, own, e).loose)
}

/// The least number above the Locals of a tree.
#[inline]
pub(crate) fn local_in(base: &Tables, own: &Tables, e: u64) -> u128
    requires store { IsStore (over base.now own.now) }
    requires known { e < length (contents_of (over base.now own.now)).trees }
    ensures { result ≡ bound (tree_at (contents_of (over base.now own.now)) e) }
{
    decode(base, own, tree_row(base, own, e).local)
}

/// Whether a parameter stands in a tree.
#[inline]
pub(crate) fn params_in(base: &Tables, own: &Tables, e: u64) -> bool
    requires store { IsStore (over base.now own.now) }
    requires known { e < length (contents_of (over base.now own.now)).trees }
    ensures { result ≡ has_params (tree_at (contents_of (over base.now own.now)) e) }
{
    tree_row(base, own, e).params
}

/// Whether each literal in a tree is at most 2^128 - 1.
#[inline]
pub(crate) fn narrow_in(base: &Tables, own: &Tables, e: u64) -> bool
    requires store { IsStore (over base.now own.now) }
    requires known { e < length (contents_of (over base.now own.now)).trees }
    ensures { result ≡ is_narrow (tree_at (contents_of (over base.now own.now)) e) }
{
    tree_row(base, own, e).narrow
}

/// What is kept of a tree.
#[inline]
fn marks_in(base: &Tables, own: &Tables, e: u64) -> Marks
    requires store { IsStore (over base.now own.now) }
    requires known { e < length (contents_of (over base.now own.now)).trees }
    ensures { AreMarks (tree_at (contents_of (over base.now own.now)) e) result }
{
    let row = tree_row(base, own, e);
    Marks {
        loose: decode(base, own, row.loose),
        local: decode(base, own, row.local),
        params: row.params,
        narrow: row.narrow,
    }
}

/// What is to be kept of the tree of a node.
#[tactic(auto, unfolding(lk_tree::specs::Bind::bound))]
pub(crate) fn marks_of(base: &Tables, own: &Tables, node: Node) -> Marks
    requires store { IsStore (over base.now own.now) }
    requires known { IsIn (contents_of (over base.now own.now)) node }
    ensures { AreMarks (tree_of (contents_of (over base.now own.now)) node) result }
{
    match node {
        Node::Var(i) => Marks {
            loose: u128::from(i) + 1,
            local: 0,
            params: false,
            narrow: true,
        },
        Node::Sort(l) => Marks::closed(level_params_in(base, own, l)),
        Node::Const(_, ls) => Marks::closed(list_params_in(base, own, ls)),
        Node::App(f, a) => marks_in(base, own, f).and(marks_in(base, own, a)),
        Node::Lam(t, b) | Node::Pi(t, b) => marks_in(base, own, t).and(marks_in(
            base, own, b,
        ).under_binder()),
        Node::Let(t, v, b) => {
            let inside = marks_in(base, own, v).and(marks_in(base, own, b).under_binder());
            marks_in(base, own, t).and(inside)
        }
        Node::Proj(_, _, s) => marks_in(base, own, s),
        Node::Lit(_) | Node::Str(_) => Marks::closed(false),
        Node::Wide => Marks::wide(),
        Node::Local(k, t) => {
            let inside = marks_in(base, own, t);
            Marks {
                loose: 0,
                local: inside.local.max(u128::from(k) + 1),
                params: inside.params,
                narrow: inside.narrow,
            }
        }
    }
}
