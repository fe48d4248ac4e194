//! Telescopes: Pis one inside the other, or lambdas, whose domains and innermost body are opened at
//! once, and then asked for one after the other.

ghost use Rattle.std.specs.Prelude.{◌≡◌, ◌<◌, Ok, length};
ghost use Rattle.lk_store.specs.Contents.{tree_at};
ghost use Rattle.lk_ask.specs.Looks.{MakesTree};
ghost use Rattle.lk_type.specs.Sheets.{map_telescope, IsKnownTelescope};
ghost use Rattle.lk_type.specs.Telescopes.{gather, pis_end, pis_sorted, telescope_on, telescope_sorted, telescope_end};
ghost use Rattle.lk_type.specs.Types.{Infers};

use crate::infer::TypeNext;
use crate::lambdas::lambdas_type;
use crate::sheet::{Binders, Telescope, TypeTermSheet};
use crate::sorts::sort_of_pi;
use lk_ask::looks::Looks;
use lk_ask::next::Next;
use lk_ask::query::{Answer, Query};
use lk_ask::sheet::Sheet;
use lk_store::memory::NoMemory;
use lk_store::node::Node;
use lk_tree::rule::Rule;

/// Goes on with what is left of a telescope: asks for the type of its next Local, or of its
/// innermost body.
fn next_local<L: Looks>(
    looks: &L,
    binders: Binders,
    count: u64,
    opened: u64,
    gathered: u64,
) -> TypeNext
    requires opened_in { opened < length (L.contents looks.now).trees }
    requires gathered_in { gathered < length (L.contents looks.now).trees }
    ensures { Infers L.contents L.rest L.sight looks.now looks.now (Ok result)
        (λ t. telescope_on binders count (t opened) (t gathered)) }
{
    if count == 0 {
        return Next::Ask(
            Query::Infer(opened),
            Sheet::Term(TypeTermSheet::TelescopeBody { binders, gathered }),
        );
    }
    match looks.view(opened) {
        Node::App(local, opened) => Next::Ask(
            Query::Infer(local),
            Sheet::Term(TypeTermSheet::TelescopeLocal {
                telescope: Telescope {
                    binders,
                    count: count - 1,
                    opened,
                    gathered,
                },
            }),
        ),
        _ => Next::No(Rule::NotASort),
    }
}

/// What is gathered, after the sort of a domain.
fn gathered_with<L: Looks>(
    looks: &mut L,
    binders: Binders,
    gathered: u64,
    sort: u64,
) -> Result<u64, NoMemory>
    requires gathered_in { gathered < length (L.contents looks.old).trees }
    requires sort_in { sort < length (L.contents looks.old).trees }
    ensures { MakesTree L.contents L.rest looks.old looks.new result
        (λ t. gather binders (t gathered) (t sort)) }
{
    match binders {
        Binders::Pis => looks.make(Node::App(gathered, sort)),
        Binders::Lambdas => Ok(gathered),
    }
}

/// Goes on after a domain, whose sort this is.
fn domain_passed<L: Looks>(
    looks: &mut L,
    telescope: Telescope<u64>,
    sort: u64,
) -> Result<TypeNext, NoMemory>
    requires telescope_in { IsKnownTelescope (length (L.contents looks.old).trees) telescope }
    requires sort_in { sort < length (L.contents looks.old).trees }
    ensures { Infers L.contents L.rest L.sight looks.old looks.new result
        (λ t. telescope_on telescope.binders telescope.count (t telescope.opened)
        (gather telescope.binders (t telescope.gathered) (t sort))) }
{
    let Telescope {
        binders,
        count,
        opened,
        gathered,
    } = telescope;
    let gathered = gathered_with(looks, binders, gathered, sort)?;
    Ok(next_local(looks, binders, count, opened, gathered))
}

/// Goes on with the sort of a domain.
pub(crate) fn domain_sort<L: Looks>(
    looks: &mut L,
    telescope: Telescope<u64>,
    e: u64,
) -> Result<TypeNext, NoMemory>
    requires telescope_in { IsKnownTelescope (length (L.contents looks.old).trees) telescope }
    requires e_in { e < length (L.contents looks.old).trees }
    ensures { Infers L.contents L.rest L.sight looks.old looks.new result
        (λ t. telescope_sorted (map_telescope t telescope) (t e)) }
{
    match looks.view(e) {
        Node::Sort(_) => domain_passed(looks, telescope, e),
        _ => Ok(Next::No(Rule::NotASort)),
    }
}

/// Goes on with Pis, after the type of what stands inside: asks for the weak head form of that.
fn pis_left<L: Looks>(looks: &L, sorts: u64, e: u64) -> TypeNext
    requires sorts_in { sorts < length (L.contents looks.now).trees }
    requires e_in { e < length (L.contents looks.now).trees }
    ensures { Infers L.contents L.rest L.sight looks.now looks.now (Ok result)
        (λ t. pis_end (t sorts) (t e)) }
{
    match looks.view(sorts) {
        Node::App(sorts, sort) => Next::Ask(
            Query::Whnf(e),
            Sheet::Term(TypeTermSheet::PisSort { sorts, sort }),
        ),
        _ => Next::Done(Answer::Term(e)),
    }
}

/// Goes on with the sort of what stands inside a Pi.
pub(crate) fn pi_inside_sort<L: Looks>(
    looks: &mut L,
    sorts: u64,
    sort: u64,
    e: u64,
) -> Result<TypeNext, NoMemory>
    requires sorts_in { sorts < length (L.contents looks.old).trees }
    requires sort_in { sort < length (L.contents looks.old).trees }
    requires e_in { e < length (L.contents looks.old).trees }
    ensures { Infers L.contents L.rest L.sight looks.old looks.new result
        (λ t. pis_sorted (t sorts) (t sort) (t e)) }
{
    match looks.view(e) {
        Node::Sort(level) => {
            let above = sort_of_pi(looks, sort, level)?;
            Ok(pis_left(looks, sorts, above))
        }
        _ => Ok(Next::No(Rule::NotASort)),
    }
}

/// Goes on with the type of the innermost body.
pub(crate) fn telescope_end<L: Looks>(
    looks: &mut L,
    binders: Binders,
    gathered: u64,
    e: u64,
) -> Result<TypeNext, NoMemory>
    requires gathered_in { gathered < length (L.contents looks.old).trees }
    requires e_in { e < length (L.contents looks.old).trees }
    ensures { Infers L.contents L.rest L.sight looks.old looks.new result
        (λ t. telescope_end binders (t gathered) (t e)) }
{
    match binders {
        Binders::Pis => Ok(pis_left(looks, gathered, e)),
        Binders::Lambdas => {
            let ty = lambdas_type(looks, gathered, e)?;
            Ok(Next::Done(Answer::Term(ty)))
        }
    }
}
