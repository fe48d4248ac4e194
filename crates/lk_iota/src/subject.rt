//! What stands for the major premise: its weak head form, or a constructor that K gave.

ghost use Rattle.std.specs.Prelude.{◌≡◌, ◌<◌, ℕ, Option, None, length};
ghost use Rattle.lk_rulebook.specs.Place.{Place};
ghost use Rattle.lk_questions.specs.Erased.{a_tree, erased};
ghost use Rattle.lk_store.specs.Contents.{Contents, tree_at};
ghost use Rattle.lk_env.specs.StoredLibrary.{StoredLibrary};
ghost use Rattle.lk_ask.specs.Nexts.{IsKnownNext};
ghost use Rattle.lk_iota.specs.Sheets.{IsKnownIotaSheet};
ghost use Rattle.lk_iota.specs.Redexes.{PlainRedex, redex_at, IsKnownRedex, IsRedex};
ghost use Rattle.lk_iota.specs.Redexes.{StandsFor, IsAt};
ghost use Rattle.lk_iota.specs.Iotas.{after_k, by_subject as plain_subject, by_app};
ghost use Rattle.lk_iota.specs.Iotas.{by_form as plain_form, iota_next, Reduces};

use crate::iota::IotaNext;
use crate::major::Redex;
use crate::only::look_only;
use crate::rule::at_constructor;
use crate::sheet::IotaTermSheet;
use crate::structure::by_only;
use lk_ask::looks::Looks;
use lk_ask::next::Next;
use lk_ask::query::{Answer, Query};
use lk_ask::sheet::Sheet;
use lk_constructor::look_head;
use lk_lit::literal_to_ctor;
use lk_store::memory::NoMemory;

/// Asks for the weak head form of the major premise.
pub(crate) fn ask_major(redex: &Redex, e: u64) -> IotaNext
    ensures known { (n : ℕ) → redex.now.major < n → e < n → IsKnownNext IsKnownIotaSheet n result }
    ensures steps { (w : Place) (c : Contents) (l : StoredLibrary) (last : Option ℕ)
        (p : PlainRedex) → redex_at w (tree_at c e) ≡ Some p → IsRedex c l redex.now p
        → iota_next w (tree_at c) last result
        ≡ erased w a_tree last (after_k (tree_at c e) p None) }
{
    Next::Ask(
        Query::Whnf(redex.major),
        Sheet::Term(IotaTermSheet::Major { application: e }),
    )
}

/// A recursor where `m` stands for its major premise and is no constructor, applied.
fn no_constructor<L: Looks>(
    looks: &mut L,
    redex: &Redex,
    e: u64,
    m: u64,
) -> Result<IotaNext, NoMemory>
    requires e_in { e < length (L.contents looks.old).trees }
    requires m_in { m < length (L.contents looks.old).trees }
    ensures { (p : PlainRedex) → IsAt L.contents L.rest L.sight looks.old e p
        → StandsFor L.contents L.rest L.sight looks.old redex.now p
        → Reduces L.contents L.rest L.sight looks.old looks.new result
        (λ t. by_app (t e) p (t m) None) }
{
    let found = match look_only(looks, redex.entry) {
        Ok(found) => found,
        Err(rule) => return Ok(Next::No(rule)),
    };
    match found {
        Some(constructor) => by_only(looks, constructor, e, m),
        None => Ok(Next::Done(Answer::Term(e))),
    }
}

/// A recursor where `m` stands for its major premise.
pub(crate) fn by_subject<L: Looks>(
    looks: &mut L,
    redex: &Redex,
    e: u64,
    m: u64,
) -> Result<IotaNext, NoMemory>
    requires redex_in { IsKnownRedex (L.contents looks.old) redex.now }
    requires e_in { e < length (L.contents looks.old).trees }
    requires m_in { m < length (L.contents looks.old).trees }
    ensures { (p : PlainRedex) → IsAt L.contents L.rest L.sight looks.old e p
        → StandsFor L.contents L.rest L.sight looks.old redex.now p
        → Reduces L.contents L.rest L.sight looks.old looks.new result
        (λ t. plain_subject (t e) p (t m)) }
{
    let found = match look_head(looks, m) {
        Ok(found) => found,
        Err(rule) => return Ok(Next::No(rule)),
    };
    match found {
        Some(constructor) => at_constructor(looks, redex, constructor, e, m),
        None => no_constructor(looks, redex, e, m),
    }
}

/// A recursor where `m` is the weak head form of its major premise: a literal is read as a
/// constructor.
pub(crate) fn by_form<L: Looks>(
    looks: &mut L,
    redex: &Redex,
    e: u64,
    m: u64,
) -> Result<IotaNext, NoMemory>
    requires redex_in { IsKnownRedex (L.contents looks.old) redex.now }
    requires e_in { e < length (L.contents looks.old).trees }
    requires m_in { m < length (L.contents looks.old).trees }
    ensures { (p : PlainRedex) → IsAt L.contents L.rest L.sight looks.old e p
        → StandsFor L.contents L.rest L.sight looks.old redex.now p
        → Reduces L.contents L.rest L.sight looks.old looks.new result
        (λ t. plain_form (t e) p (t m)) }
{
    match literal_to_ctor(looks, m)? {
        Ok(subject) => by_subject(looks, redex, e, subject),
        Err(rule) => Ok(Next::No(rule)),
    }
}
