//! The lines of trees.

ghost use Rattle.std.specs.Prelude.{◌≡◌, ◌<◌, ◌++◌, [], ◌∷◌, length, map, OnOk};
ghost use Rattle.lk_store.specs.Contents.{tree_at, tree_of, IsIn};
ghost use Rattle.lk_trim.specs.Written.{fields};
ghost use Rattle.lk_trim.specs.Trees.{tree_number, tree_fields, add_tree, write_tree};
ghost use Rattle.lk_trim.specs.Stored.{written_at, file_at, AreNumbersIn, Writes};
ghost use Rattle.lk_trim.specs.Walks.{IsEntered, tree_walk, tree_parts, tree_label};
ghost use Rattle.lk_trim.specs.declared.visit.Visit.TheVariants as visit;

use crate::fields::{add_field, add_literal, add_number, add_row, add_text, add_wide};
use crate::levels::{add_level_numbers, level_number, write_level, write_levels};
use crate::names::{name_number, write_name};
use crate::numbers::{Numbers, Writer};
use crate::visit::{Visit, push};
use lk_store::memory::NoMemory;
use lk_store::node::Node;
use lk_store::terms::Terms;
use std::alloc::Global;

/// The number of a tree.
pub fn tree_number<T: Terms>(store: &T, numbers: &Numbers, tree: u64) -> u64
    requires numbers { AreNumbersIn (T.contents store.now) numbers.now }
    requires tree_in { tree < length (T.contents store.now).trees }
    ensures { let c = T.contents store.now in
        result ≡ tree_number (written_at c numbers.now) (tree_at c tree) }
{
    let _store = store;
    numbers.trees.place(tree)
}

/// Appends a tag and the numbers of two trees.
fn add_two<T: Terms>(
    out: &mut Vec<u8>,
    store: &T,
    numbers: &Numbers,
    tag: &[u8],
    a: u64,
    b: u64,
) -> Result<(), NoMemory>
    requires numbers { AreNumbersIn (T.contents store.now) numbers.now }
    requires a_in { a < length (T.contents store.now).trees }
    requires b_in { b < length (T.contents store.now).trees }
    ensures { let c = T.contents store.now in
        let w = written_at c numbers.now in
        OnOk result (out.new.items ≡ out.old.items ++ (tag.now
        ++ fields (tree_number w (tree_at c a) ∷ tree_number w (tree_at c b) ∷ []))) }
{
    let parts = [
        tree_number(store, numbers, a),
        tree_number(store, numbers, b),
    ];
    add_row(out, tag, &parts)
}

/// Appends what the line of a tree says behind its number.
fn add_node<T: Terms>(
    out: &mut Vec<u8>,
    store: &T,
    numbers: &Numbers,
    node: Node,
) -> Result<(), NoMemory>
    requires numbers { AreNumbersIn (T.contents store.now) numbers.now }
    requires node_in { IsIn (T.contents store.now) node }
    ensures { let c = T.contents store.now in
        OnOk result (out.new.items ≡ out.old.items
        ++ tree_fields (written_at c numbers.now) (tree_of c node)) }
{
    match node {
        Node::Var(i) => add_row(out, b" #EV", &[i]),
        Node::Sort(l) => add_row(out, b" #ES", &[level_number(store, numbers, l)]),
        Node::Const(n, ls) => {
            add_row(out, b" #EC", &[name_number(store, numbers, n)])?;
            add_level_numbers(out, store, numbers, ls)
        }
        Node::App(a, b) => add_two(out, store, numbers, b" #EA", a, b),
        Node::Lam(a, b) => add_two(out, store, numbers, b" #EL #BD 0", a, b),
        Node::Pi(a, b) => add_two(out, store, numbers, b" #EP #BD 0", a, b),
        Node::Let(a, b, body) => {
            add_two(out, store, numbers, b" #EZ 0", a, b)?;
            add_field(out, tree_number(store, numbers, body))
        }
        Node::Proj(n, i, e) => {
            let parts = [
                name_number(store, numbers, n),
                i,
                tree_number(store, numbers, e),
            ];
            add_row(out, b" #EJ", &parts)
        }
        Node::Lit(n) => add_literal(out, n),
        Node::Wide => add_wide(out),
        Node::Str(s) => add_text(out, store.text(s).as_bytes()),
        Node::Local(k, e) => add_row(out, b" #EF", &[k, tree_number(store, numbers, e)]),
    }
}

/// Writes the line of a tree.
fn add_line<T: Terms>(store: &T, writer: &mut Writer, tree: u64) -> Result<(), NoMemory>
    requires numbers { AreNumbersIn (T.contents store.now) writer.old.numbers }
    requires tree_in { tree < length (T.contents store.now).trees }
    ensures { OnOk result (Writes (T.contents store.now)
        (add_tree (tree_at (T.contents store.now) tree)) writer.old writer.new) }
{
    let node = store.view(tree);
    add_number(&mut writer.out, writer.numbers.trees.len())?;
    add_node(&mut writer.out, store, &writer.numbers, node)?;
    writer.out.push(b'\n')?;
    writer.numbers.trees.note(tree)?;
    Ok(())
}

/// Puts a tree on the stack again, and the trees of its node above it, the first of them on top.
fn open(stack: &mut Vec<Visit>, tree: u64, node: Node) -> Result<(), NoMemory>
    ensures { OnOk result (stack.new.items
        ≡ stack.old.items ++ visit.Leave tree ∷ map visit.Enter (tree_parts node)) }
{
    push(stack, Visit::Leave(tree))?;
    match node {
        Node::Var(_) | Node::Sort(_) | Node::Const(_, _) => {}
        Node::Lit(_) | Node::Wide | Node::Str(_) => {}
        Node::Proj(_, _, e) | Node::Local(_, e) => push(stack, Visit::Enter(e))?,
        Node::App(a, b) | Node::Lam(a, b) | Node::Pi(a, b) => {
            push(stack, Visit::Enter(b))?;
            push(stack, Visit::Enter(a))?;
        }
        Node::Let(a, b, c) => {
            push(stack, Visit::Enter(c))?;
            push(stack, Visit::Enter(b))?;
            push(stack, Visit::Enter(a))?;
        }
    }
    Ok(())
}

/// Writes the lines of the names and levels of a tree's node.
fn write_label<T: Terms>(
    alloc: Global,
    store: &T,
    writer: &mut Writer,
    node: Node,
) -> Result<(), NoMemory>
    requires numbers { AreNumbersIn (T.contents store.now) writer.old.numbers }
    requires node_in { IsIn (T.contents store.now) node }
    ensures { OnOk result (Writes (T.contents store.now)
        (tree_label (T.contents store.now) node) writer.old writer.new) }
{
    match node {
        Node::Sort(l) => write_level(alloc, store, writer, l),
        Node::Const(n, ls) => {
            write_name(alloc, store, writer, n)?;
            write_levels(alloc, store, writer, ls)
        }
        Node::Proj(n, _, _) => write_name(alloc, store, writer, n),
        Node::Var(_) => Ok(()),
        Node::App(_, _) => Ok(()),
        Node::Lam(_, _) => Ok(()),
        Node::Pi(_, _) => Ok(()),
        Node::Let(_, _, _) => Ok(()),
        Node::Lit(_) => Ok(()),
        Node::Wide => Ok(()),
        Node::Str(_) => Ok(()),
        Node::Local(_, _) => Ok(()),
    }
}

/// Enters a tree: it is opened, unless it has its line.
fn enter<T: Terms>(
    alloc: Global,
    store: &T,
    writer: &mut Writer,
    stack: &mut Vec<Visit>,
    tree: u64,
) -> Result<(), NoMemory>
    requires numbers { AreNumbersIn (T.contents store.now) writer.old.numbers }
    requires tree_in { tree < length (T.contents store.now).trees }
    ensures numbers { OnOk result (AreNumbersIn (T.contents store.now) writer.new.numbers) }
    ensures entered { let c = T.contents store.now in
        OnOk result (IsEntered (tree_walk c) tree stack.old.items stack.new.items
        (file_at c writer.old) (file_at c writer.new)) }
{
    if writer.numbers.trees.has(tree) {
        return Ok(());
    }
    let node = store.view(tree);
    open(stack, tree, node)?;
    write_label(alloc, store, writer, node)?;
    Ok(())
}

/// Writes the lines of a tree and of its parts that have none yet.
pub fn write_tree<T: Terms>(
    alloc: Global,
    store: &T,
    writer: &mut Writer,
    tree: u64,
) -> Result<(), NoMemory>
    requires numbers { AreNumbersIn (T.contents store.now) writer.old.numbers }
    requires tree_in { tree < length (T.contents store.now).trees }
    ensures { OnOk result (Writes (T.contents store.now)
        (write_tree (tree_at (T.contents store.now) tree)) writer.old writer.new) }
{
    let mut stack: Vec<Visit> = Vec::new(alloc);
    push(&mut stack, Visit::Enter(tree))?;
    'walk: while let Some(visit) = stack.pop() {
        match visit {
            Visit::Enter(e) => enter(alloc, store, writer, &mut stack, e)?,
            Visit::Leave(e) => add_line(store, writer, e)?,
        }
    }
    Ok(())
}
