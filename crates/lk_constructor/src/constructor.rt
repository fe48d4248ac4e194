//! A constructor that is applied.

ghost use Rattle.std.specs.Prelude.{◌≡◌, ◌<◌, List, Some, IfOk, IfSome, length};
ghost use Rattle.lk_tree.specs.Tree.{Level, Tree, const};
ghost use Rattle.lk_tree.specs.Spine.{head as head_of};
ghost use Rattle.lk_rulebook.specs.Place.{Entry as PlainEntry};
ghost use Rattle.lk_questions.specs.Iota.{ctor_app_by};
ghost use Rattle.lk_store.specs.Contents.{name_at, tree_at};
ghost use Rattle.lk_ask.specs.Looks.{entry_at};
ghost use Rattle.lk_constructor.specs.Applied.{IsKnownConstructor, IsAppliedIf};
ghost use Rattle.lk_constructor.specs.Looking.{ctor_at, LooksUpHead};

use lk_ask::looks::Looks;
use lk_env::entry::Entry;
use lk_env::lent::constructor_of;
use lk_spine::head;
use lk_store::node::Node;
use lk_tree::rule::Rule;

/// What is asked of a constructor that is applied.
#[derive(Clone, Copy)]
pub struct AppliedConstructor {
    pub name: u64,
    /// The name of its type.
    pub inductive: u64,
    pub parameters: u64,
    pub fields: u64,
    /// What its name means: a constructor of a block.
    pub entry: Entry,
}

/// The constructor of an entry, where it is one.
fn constructor_by<L: Looks>(looks: &L, name: u64, entry: Entry) -> Option<AppliedConstructor>
    requires { name < length (L.contents looks.now).names }
    ensures known { IfSome result (IsKnownConstructor (L.contents looks.now)) }
    ensures is { (g : PlainEntry) (ks : List Level) (xs : List Tree)
        → entry_at (L.sight (L.rest looks.now)).basis entry ≡ Some g
        → IsAppliedIf (L.contents looks.now) (L.sight (L.rest looks.now)).basis.library xs result
        (ctor_app_by (name_at (L.contents looks.now) name) ks xs g g.kind) }
{
    match constructor_of(looks.scope(), entry) {
        Some((ty, constructor)) => Some(AppliedConstructor {
            name,
            inductive: ty.name,
            parameters: constructor.parameters,
            fields: constructor.fields,
            entry,
        }),
        None => None,
    }
}

/// Looks up a name that may mean a constructor. That its unit was looked at is noted.
pub fn look_constructor<L: Looks>(
    looks: &mut L,
    name: u64,
) -> Result<Option<AppliedConstructor>, Rule>
    requires { name < length (L.contents looks.old).names }
    ensures contents { L.contents looks.new ≡ L.contents looks.old }
    ensures stays { (L.sight (L.rest looks.new)).basis ≡ (L.sight (L.rest looks.old)).basis }
    ensures known { IfOk result (λ u. IfSome u (IsKnownConstructor (L.contents looks.old))) }
    ensures finds { (ks : List Level) (xs : List Tree)
        → LooksUpHead L.contents L.rest L.sight looks.old looks.new result
        (const (name_at (L.contents looks.old) name) ks) xs }
{
    let entry = looks.look(name, Rule::UnknownConstant)?;
    Ok(constructor_by(looks, name, entry))
}

/// What a name means as a constructor that was looked up before: nothing is noted.
pub fn constructor_at<L: Looks>(looks: &L, name: u64) -> Option<AppliedConstructor>
    requires { name < length (L.contents looks.now).names }
    ensures known { IfSome result (IsKnownConstructor (L.contents looks.now)) }
    ensures is { (ks : List Level) (xs : List Tree)
        → IsAppliedIf (L.contents looks.now) (L.sight (L.rest looks.now)).basis.library xs result
        (ctor_at (L.sight (L.rest looks.now)).basis.place
        (name_at (L.contents looks.now) name) ks xs) }
{
    match looks.means(name) {
        Ok(entry) => constructor_by(looks, name, entry),
        Err(_) => None,
    }
}

/// Looks up the constructor that a term is, applied. That its unit was looked at is noted.
pub fn look_head<L: Looks>(looks: &mut L, e: u64) -> Result<Option<AppliedConstructor>, Rule>
    requires { e < length (L.contents looks.old).trees }
    ensures contents { L.contents looks.new ≡ L.contents looks.old }
    ensures stays { (L.sight (L.rest looks.new)).basis ≡ (L.sight (L.rest looks.old)).basis }
    ensures known { IfOk result (λ u. IfSome u (IsKnownConstructor (L.contents looks.old))) }
    ensures finds { (xs : List Tree)
        → LooksUpHead L.contents L.rest L.sight looks.old looks.new result
        (head_of (tree_at (L.contents looks.old) e)) xs }
{
    let front = head(looks, e);
    match looks.view(front) {
        Node::Const(name, _) => look_constructor(looks, name),
        _ => Ok(None),
    }
}
