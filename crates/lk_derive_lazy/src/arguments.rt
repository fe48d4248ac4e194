//! Two terms whose heads are one constant, by their arguments.

ghost use Rattle.std.specs.Prelude.{◌≡◌, ◌<◌, [], ◌∷◌, ℕ, true, length, IfOk, OnOk};
ghost use Rattle.lk_tree.specs.Spine.{args};
ghost use Rattle.lk_rulebook.specs.Place.{Place};
ghost use Rattle.lk_rulebook.specs.Claims.{equals};
ghost use Rattle.lk_questions.specs.Pairs.{same_all};
ghost use Rattle.lk_questions.specs.Unfolding.{by_unfolding};
ghost use Rattle.lk_store.specs.Contents.{tree_at};
ghost use Rattle.lk_premises.specs.Claims.{claims_at, AreClaimsIn};
ghost use Rattle.lk_step.specs.Makes.{equality_claim};
ghost use Rattle.lk_step.specs.Parts.{States, IsPartIn};
ghost use Rattle.lk_step.specs.Runs.{Runs};
ghost use Rattle.lk_step.specs.Told.{Leaves};
ghost use Rattle.lk_step.specs.Tests.{ArePair};
ghost use Rattle.lk_derive_lazy.specs.Alike.{AreOneConstant, AreAlike, AreApplied};
ghost use Rattle.lk_derive_lazy.specs.Turns.{SaysYes, Bears, TurnsAgain};

use crate::reduced::{next_pair, turned_row};
use crate::steps::add_equality;
use lk_ask::looks::Looks;
use lk_ask::stack::Stack;
use lk_lazy::resume;
use lk_lazy::sheet::LazySheet;
use lk_lazy::spines::Paired;
use lk_premises::{Claim, same_tree};
use lk_step::making::equality;
use lk_step::pairs::{Asked, are_all_same, asked_of};
use lk_step::under_way::no_premise;
use lk_step::{Derives, Row};
use lk_store::memory::NoMemory;
use lk_store::terms::Terms;
use lk_trace::ConversionRule;
use std::alloc::Global;

/// Says that two constants are the same, which are one at equal levels, where they are other trees.
fn add_heads<T: Terms>(
    alloc: Global,
    terms: &T,
    row: &mut Row,
    f: u64,
    g: u64,
) -> Result<(), NoMemory>
    requires f_in { f < length (T.contents terms.now).trees }
    requires g_in { g < length (T.contents terms.now).trees }
    ensures { let c = T.contents terms.now in let t = tree_at c in OnOk result ((w : Place)
        → AreOneConstant (t f) (t g) → States w c row.old row.new [] (equals (t f) (t g))) }
{
    if same_tree(terms, f, g) {
        return Ok(());
    }
    add_equality(
        terms,
        row,
        ConversionRule::Constants,
        f,
        g,
        no_premise(alloc),
    )?;
    Ok(())
}

/// The premises of two applications: that of their heads, and those of their arguments.
fn spine_premises(
    alloc: Global,
    f: u64,
    g: u64,
    arguments: &[Claim],
) -> Result<Vec<Claim>, NoMemory>
    ensures { IfOk result (λ cs. cs.items ≡ equality_claim f g ∷ arguments.now) }
{
    let mut premises = vec![in alloc; equality(f, g)]?;
    premises.extend_from_slice(arguments)?;
    Ok(premises)
}

/// Says that two applications of these heads are the same, whose arguments are by these claims.
fn add_applied<L: Looks>(
    looks: &L,
    row: &mut Row,
    a: u64,
    b: u64,
    found: &Paired,
    arguments: &[Claim],
) -> Result<(), NoMemory>
    requires a_in { a < length (L.contents looks.now).trees }
    requires b_in { b < length (L.contents looks.now).trees }
    requires alike { AreAlike (L.contents looks.now) a b found.now }
    requires arguments_in { AreClaimsIn (L.contents looks.now) arguments.now }
    requires applied { AreApplied (L.contents looks.now) a b arguments.now }
    ensures { let c = L.contents looks.now in let t = tree_at c in OnOk result ((w : Place)
        → ArePair w (t a) (t b) → States w c row.old row.new
        (equals (t found.now.left) (t found.now.right) ∷ claims_at c arguments.now)
        (equals (t a) (t b))) }
{
    if arguments.is_empty() {
        return Ok(());
    }
    let premises = spine_premises(looks.alloc(), found.left, found.right, arguments)?;
    add_equality(looks, row, ConversionRule::Apply, a, b, premises)?;
    Ok(())
}

/// The row of two terms whose heads are one constant, and whose arguments are the same.
fn arguments_row<L: Looks>(looks: &L, a: u64, b: u64, found: &Paired) -> Result<Row, NoMemory>
    requires a_in { a < length (L.contents looks.now).trees }
    requires b_in { b < length (L.contents looks.now).trees }
    requires alike { AreAlike (L.contents looks.now) a b found.now }
    ensures { let c = L.contents looks.now in let t = tree_at c in IfOk result (λ r. (w : Place)
        (n : ℕ) → ArePair w (t a) (t b) → Runs w (same_all (args (t a)) (args (t b))) true n
        → IsPartIn w c r (equals (t a) (t b) ∷ []) n) }
{
    let alloc = looks.alloc();
    let asked = asked_of(looks, &found.pairs)?;
    let Asked { asks, premises } = asked;
    let mut row = Row {
        asks,
        steps: Vec::new(alloc),
    };
    add_heads(alloc, looks, &mut row, found.left, found.right)?;
    add_applied(looks, &mut row, a, b, found, &premises)?;
    Ok(row)
}

/// The row of two terms of one rank, whose arguments are not the same: both unfold.
fn both_row<D: Derives>(derives: &mut D, a: u64, b: u64) -> Result<Row, NoMemory>
    requires a_in { a < length (D.contents derives.old).trees }
    requires b_in { b < length (D.contents derives.old).trees }
    requires two { ArePair (D.sight (D.rest derives.old)).basis.place
        (tree_at (D.contents derives.old) a) (tree_at (D.contents derives.old) b) }
    requires again { TurnsAgain (D.sight (D.rest derives.old)).basis.place
        (tree_at (D.contents derives.old) a) (tree_at (D.contents derives.old) b) }
    ensures leaves { Leaves D.contents D.rest D.sight derives.old derives.new }
    ensures bears { let t = tree_at (D.contents derives.old) in
        IfOk result (Bears (D.sight (D.rest derives.old)).basis.place (D.contents derives.new)
        (by_unfolding (t a) (t b)) (equals (t a) (t b))) }
{
    let others = Stack {
        items: Vec::new(derives.alloc()),
    };
    let sheet = LazySheet::Arguments {
        left: a,
        right: b,
        others,
    };
    let next = resume(derives, sheet, false)?;
    turned_row(derives, a, b, next_pair(next))
}

/// The row of two terms whose heads are one constant, by their arguments where these are the same, else by what both unfold to.
pub(crate) fn by_arguments<D: Derives>(
    derives: &mut D,
    a: u64,
    b: u64,
    found: &Paired,
    enough: u128,
) -> Result<Row, NoMemory>
    requires a_in { a < length (D.contents derives.old).trees }
    requires b_in { b < length (D.contents derives.old).trees }
    requires alike { AreAlike (D.contents derives.old) a b found.now }
    requires two { ArePair (D.sight (D.rest derives.old)).basis.place
        (tree_at (D.contents derives.old) a) (tree_at (D.contents derives.old) b) }
    requires yes { SaysYes (D.sight (D.rest derives.old)).basis.place (by_unfolding
        (tree_at (D.contents derives.old) a) (tree_at (D.contents derives.old) b)) enough }
    ensures leaves { Leaves D.contents D.rest D.sight derives.old derives.new }
    ensures bears { let t = tree_at (D.contents derives.old) in
        IfOk result (Bears (D.sight (D.rest derives.old)).basis.place (D.contents derives.new)
        (by_unfolding (t a) (t b)) (equals (t a) (t b))) }
{
    if !are_all_same(derives, &found.pairs, enough)? {
        return both_row(derives, a, b);
    }
    arguments_row(derives, a, b, found)
}
