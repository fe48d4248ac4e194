//! Which of two terms unfolds, and what is asked then.

ghost use Rattle.std.specs.Prelude.{◌≡◌, ◌<◌, ℕ, Option, IfOk, IfSome, length, map, All};
ghost use Rattle.lk_tree.specs.Tree.{Tree};
ghost use Rattle.lk_tree.specs.Spine.{head};
ghost use Rattle.lk_rulebook.specs.Place.{Place};
ghost use Rattle.lk_questions.specs.Erased.{truth, erased};
ghost use Rattle.lk_questions.specs.Pairs.{answers_yes, ◌or_else◌};
ghost use Rattle.lk_questions.specs.Unfolding.{Unfolding as PlainUnfolding};
ghost use Rattle.lk_questions.specs.Unfolding.{by_ranks as plain_ranks};
ghost use Rattle.lk_questions.specs.Unfolding.{unfold_first, unfold_second};
ghost use Rattle.lk_questions.specs.Unfolding.{unfold_both as plain_both, by_unfolding};
ghost use Rattle.lk_store.specs.Contents.{tree_at};
ghost use Rattle.lk_ask.specs.Nexts.{IsKnownNext};
ghost use Rattle.lk_ask.specs.Sheets.{map_pair, IsKnownPair};
ghost use Rattle.lk_lazy.specs.Heads.{unfolding_at, IsUnfolding, IsHeadUnfolding};
ghost use Rattle.lk_lazy.specs.Heads.{IsKnownUnfolding, UnfoldsBy};
ghost use Rattle.lk_lazy.specs.Lazies.{unfold_again, others_same, arguments_or_both, same_or_both};
ghost use Rattle.lk_lazy.specs.Lazies.{ranked, lazy_next, Unfolds, Resumes, GivesLine};
ghost use Rattle.lk_lazy.specs.Sheets.{IsKnownLazy};

use crate::heads::{Unfolding, unfolding_again, unfolding_of};
use crate::levels::levels_equal;
use crate::rank::is_less;
use crate::sheet::LazySheet;
use crate::spines::pair_up;
use lk_ask::looks::Looks;
use lk_ask::next::Next;
use lk_ask::query::{Answer, Query};
use lk_ask::sheet::Pair;
use lk_ask::stack::Stack;
use lk_ask::unfolding::unfold;
use lk_store::memory::NoMemory;
use lk_tree::rule::Rule;

/// What unfolding does next.
pub type LazyNext = Next<u64, LazySheet<u64>>;

/// The first of two terms unfolds.
fn unfold_left<L: Looks>(looks: &mut L, u: Unfolding, a: u64, b: u64) -> Result<LazyNext, NoMemory>
    requires u_in { IsKnownUnfolding (L.contents looks.old) u }
    requires a_in { a < length (L.contents looks.old).trees }
    requires b_in { b < length (L.contents looks.old).trees }
    ensures { (p : PlainUnfolding)
        → IsUnfolding (L.contents looks.old) (L.sight (L.rest looks.old)).basis.library u p
        → Unfolds L.contents L.rest L.sight looks.old looks.new result
        (λ t. unfold_first (t a) (t b) p) }
{
    match unfold(looks, u.entry, u.levels, u.value, a)? {
        Some(next) => Ok(Next::Ask(Query::Same(next, b), LazySheet::Passed)),
        None => Ok(Next::No(Rule::LevelCount)),
    }
}

/// The second of two terms unfolds.
fn unfold_right<L: Looks>(looks: &mut L, v: Unfolding, a: u64, b: u64) -> Result<LazyNext, NoMemory>
    requires v_in { IsKnownUnfolding (L.contents looks.old) v }
    requires a_in { a < length (L.contents looks.old).trees }
    requires b_in { b < length (L.contents looks.old).trees }
    ensures { (q : PlainUnfolding)
        → IsUnfolding (L.contents looks.old) (L.sight (L.rest looks.old)).basis.library v q
        → Unfolds L.contents L.rest L.sight looks.old looks.new result
        (λ t. unfold_second (t a) (t b) q) }
{
    match unfold(looks, v.entry, v.levels, v.value, b)? {
        Some(next) => Ok(Next::Ask(Query::Same(a, next), LazySheet::Passed)),
        None => Ok(Next::No(Rule::LevelCount)),
    }
}

/// Both terms unfold.
fn unfold_both<L: Looks>(
    looks: &mut L,
    u: Unfolding,
    v: Unfolding,
    a: u64,
    b: u64,
) -> Result<LazyNext, NoMemory>
    requires u_in { IsKnownUnfolding (L.contents looks.old) u }
    requires v_in { IsKnownUnfolding (L.contents looks.old) v }
    requires a_in { a < length (L.contents looks.old).trees }
    requires b_in { b < length (L.contents looks.old).trees }
    ensures { (p q : PlainUnfolding)
        → IsUnfolding (L.contents looks.old) (L.sight (L.rest looks.old)).basis.library u p
        → IsUnfolding (L.contents looks.old) (L.sight (L.rest looks.old)).basis.library v q
        → Unfolds L.contents L.rest L.sight looks.old looks.new result
        (λ t. plain_both (t a) (t b) p q) }
{
    let left = match unfold(looks, u.entry, u.levels, u.value, a)? {
        Some(left) => left,
        None => return Ok(Next::No(Rule::LevelCount)),
    };
    unfold_right(looks, v, left, b)
}

/// Goes on with the pairs of arguments that are left.
fn next_pair(left: u64, right: u64, others: Stack<Pair<u64>>) -> LazyNext
    ensures known { (n : ℕ) → left < n → right < n → All (IsKnownPair n) others
        → IsKnownNext IsKnownLazy n result }
    ensures steps { (w : Place) (t : ℕ → Tree) (last : Option ℕ) → lazy_next w t last result
        ≡ erased w truth last (answers_yes (others_same (map (map_pair t) others))
        or_else unfold_again w (t left) (t right)) }
{
    let mut items = others.items;
    match items.pop() {
        None => Next::Done(Answer::Truth(true)),
        Some(pair) => Next::Ask(
            Query::Same(pair.left, pair.right),
            LazySheet::Arguments {
                left,
                right,
                others: Stack { items },
            },
        ),
    }
}

/// The arguments of two terms whose heads are equal; where they are not the same, both unfold.
fn by_pairs<L: Looks>(
    looks: &mut L,
    u: Unfolding,
    v: Unfolding,
    a: u64,
    b: u64,
) -> Result<LazyNext, NoMemory>
    requires u_in { IsKnownUnfolding (L.contents looks.old) u }
    requires v_in { IsKnownUnfolding (L.contents looks.old) v }
    requires a_in { a < length (L.contents looks.old).trees }
    requires b_in { b < length (L.contents looks.old).trees }
    ensures { (p q : PlainUnfolding)
        → UnfoldsBy (L.contents looks.old) (L.sight (L.rest looks.old)).basis a u p
        → UnfoldsBy (L.contents looks.old) (L.sight (L.rest looks.old)).basis b v q
        → Unfolds L.contents L.rest L.sight looks.old looks.new result
        (λ t. arguments_or_both (t a) (t b) p q) }
{
    match pair_up(looks.alloc(), looks, a, b)? {
        Some(found) => Ok(next_pair(a, b, Stack { items: found.pairs })),
        None => unfold_both(looks, u, v, a, b),
    }
}

/// Two terms of equal ranks: their arguments, where their heads are equal, else both unfold.
fn of_one_rank<L: Looks>(
    looks: &mut L,
    u: Unfolding,
    v: Unfolding,
    a: u64,
    b: u64,
) -> Result<LazyNext, NoMemory>
    requires u_in { IsKnownUnfolding (L.contents looks.old) u }
    requires v_in { IsKnownUnfolding (L.contents looks.old) v }
    requires a_in { a < length (L.contents looks.old).trees }
    requires b_in { b < length (L.contents looks.old).trees }
    ensures { (p q : PlainUnfolding)
        → UnfoldsBy (L.contents looks.old) (L.sight (L.rest looks.old)).basis a u p
        → UnfoldsBy (L.contents looks.old) (L.sight (L.rest looks.old)).basis b v q
        → Unfolds L.contents L.rest L.sight looks.old looks.new result
        (λ t. same_or_both (t a) (t b) p q) }
{
    if !looks.same_name(u.name, v.name) {
        return unfold_both(looks, u, v, a, b);
    }
    match levels_equal(looks.alloc(), looks, u.levels, v.levels)? {
        Some(true) => by_pairs(looks, u, v, a, b),
        Some(false) => unfold_both(looks, u, v, a, b),
        None => Ok(Next::No(Rule::LevelWidth)),
    }
}

/// Two terms that both unfold: the one of the greater rank does.
fn by_ranks<L: Looks>(
    looks: &mut L,
    u: Unfolding,
    v: Unfolding,
    a: u64,
    b: u64,
) -> Result<LazyNext, NoMemory>
    requires u_in { IsKnownUnfolding (L.contents looks.old) u }
    requires v_in { IsKnownUnfolding (L.contents looks.old) v }
    requires a_in { a < length (L.contents looks.old).trees }
    requires b_in { b < length (L.contents looks.old).trees }
    ensures { (p q : PlainUnfolding)
        → UnfoldsBy (L.contents looks.old) (L.sight (L.rest looks.old)).basis a u p
        → UnfoldsBy (L.contents looks.old) (L.sight (L.rest looks.old)).basis b v q
        → Unfolds L.contents L.rest L.sight looks.old looks.new result
        (λ t. ranked (t a) (t b) p q) }
{
    if is_less(u.rank, v.rank) {
        unfold_right(looks, v, a, b)
    } else if is_less(v.rank, u.rank) {
        unfold_left(looks, u, a, b)
    } else {
        of_one_rank(looks, u, v, a, b)
    }
}

/// Two terms whose heads were looked up. There is no answer where neither unfolds.
fn by_heads<L: Looks>(
    looks: &mut L,
    left: Option<Unfolding>,
    right: Option<Unfolding>,
    a: u64,
    b: u64,
) -> Result<Option<LazyNext>, NoMemory>
    requires left_in { IfSome left (IsKnownUnfolding (L.contents looks.old)) }
    requires right_in { IfSome right (IsKnownUnfolding (L.contents looks.old)) }
    requires a_in { a < length (L.contents looks.old).trees }
    requires b_in { b < length (L.contents looks.old).trees }
    ensures { let w = (L.sight (L.rest looks.old)).basis.place in
        let t = tree_at (L.contents looks.old) in
        IsHeadUnfolding (L.contents looks.old) (L.sight (L.rest looks.old)).basis a left
        → IsHeadUnfolding (L.contents looks.old) (L.sight (L.rest looks.old)).basis b right
        → GivesLine L.contents L.rest L.sight looks.old looks.new result
        (plain_ranks (t a) (t b) (unfolding_at w (head (t a))) (unfolding_at w (head (t b)))) }
{
    match left {
        Some(u) => match right {
            Some(v) => Ok(Some(by_ranks(looks, u, v, a, b)?)),
            None => Ok(Some(unfold_left(looks, u, a, b)?)),
        },
        None => match right {
            Some(v) => Ok(Some(unfold_right(looks, v, a, b)?)),
            None => Ok(None),
        },
    }
}

/// Two terms whose heads take no step of `Core`, by unfolding (lazy delta reduction). There is no
/// answer where neither unfolds.
pub fn begin<L: Looks>(looks: &mut L, a: u64, b: u64) -> Result<Option<LazyNext>, NoMemory>
    requires a_in { a < length (L.contents looks.old).trees }
    requires b_in { b < length (L.contents looks.old).trees }
    ensures { GivesLine L.contents L.rest L.sight looks.old looks.new result
        (by_unfolding (tree_at (L.contents looks.old) a) (tree_at (L.contents looks.old) b)) }
{
    let left = match unfolding_of(looks, a) {
        Ok(left) => left,
        Err(rule) => return Ok(Some(Next::No(rule))),
    };
    let right = match unfolding_of(looks, b) {
        Ok(right) => right,
        Err(rule) => return Ok(Some(Next::No(rule))),
    };
    by_heads(looks, left, right, a, b)
}

/// Both terms unfold, after their arguments were not the same. Where one of them does not, they are
/// not the same.
fn after_arguments<L: Looks>(looks: &mut L, a: u64, b: u64) -> Result<LazyNext, NoMemory>
    requires a_in { a < length (L.contents looks.old).trees }
    requires b_in { b < length (L.contents looks.old).trees }
    ensures { Unfolds L.contents L.rest L.sight looks.old looks.new result
        (λ t. unfold_again (L.sight (L.rest looks.old)).basis.place (t a) (t b)) }
{
    match unfolding_again(looks, a) {
        Some(u) => match unfolding_again(looks, b) {
            Some(v) => unfold_both(looks, u, v, a, b),
            None => Ok(Next::Done(Answer::Truth(false))),
        },
        None => Ok(Next::Done(Answer::Truth(false))),
    }
}

/// Goes on once yes or no is there, which a sheet waits for.
pub fn resume<L: Looks>(
    looks: &mut L,
    sheet: LazySheet<u64>,
    yes: bool,
) -> Result<LazyNext, NoMemory>
    requires sheet_in { IsKnownLazy (length (L.contents looks.old).trees) sheet }
    ensures { Resumes L.contents L.rest L.sight looks.old looks.new result sheet yes }
{
    match sheet {
        LazySheet::Passed => Ok(Next::Done(Answer::Truth(yes))),
        LazySheet::Arguments {
            left,
            right,
            others,
        } => {
            if yes {
                Ok(next_pair(left, right, others))
            } else {
                after_arguments(looks, left, right)
            }
        }
    }
}
