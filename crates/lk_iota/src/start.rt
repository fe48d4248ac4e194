//! How a recursor that is applied to its major premise starts.

ghost use Rattle.std.specs.Prelude.{◌<◌, Ok, length};
ghost use Rattle.lk_iota.specs.Redexes.{PlainRedex, IsKnownRedex, StandsFor, IsAt};
ghost use Rattle.lk_iota.specs.Iotas.{with_k as plain_with_k, of_redex, Reduces};

use crate::iota::IotaNext;
use crate::major::Redex;
use crate::only::look_only;
use crate::sheet::IotaTermSheet;
use crate::subject::ask_major;
use lk_ask::looks::Looks;
use lk_ask::next::Next;
use lk_ask::query::Query;
use lk_ask::sheet::Sheet;

/// A recursor that has K: the type of its major premise is asked for, where there is exactly one
/// constructor.
fn with_k<L: Looks>(looks: &mut L, redex: &Redex, e: u64) -> IotaNext
    requires redex_in { IsKnownRedex (L.contents looks.old) redex.now }
    requires e_in { e < length (L.contents looks.old).trees }
    ensures { (p : PlainRedex) → IsAt L.contents L.rest L.sight looks.old e p
        → StandsFor L.contents L.rest L.sight looks.old redex.now p
        → Reduces L.contents L.rest L.sight looks.old looks.new (Ok result)
        (λ t. plain_with_k (t e) p) }
{
    let found = match look_only(looks, redex.entry) {
        Ok(found) => found,
        Err(rule) => return Next::No(rule),
    };
    match found {
        Some(_) => Next::Ask(
            Query::Infer(redex.major),
            Sheet::Term(IotaTermSheet::MajorType { application: e }),
        ),
        None => ask_major(redex, e),
    }
}

/// The first step of a recursor that is applied to its major premise.
pub(crate) fn first<L: Looks>(looks: &mut L, redex: &Redex, e: u64) -> IotaNext
    requires redex_in { IsKnownRedex (L.contents looks.old) redex.now }
    requires e_in { e < length (L.contents looks.old).trees }
    ensures { (p : PlainRedex) → IsAt L.contents L.rest L.sight looks.old e p
        → StandsFor L.contents L.rest L.sight looks.old redex.now p
        → Reduces L.contents L.rest L.sight looks.old looks.new (Ok result)
        (λ t. of_redex (t e) p) }
{
    if redex.k {
        with_k(looks, redex, e)
    } else {
        ask_major(redex, e)
    }
}
