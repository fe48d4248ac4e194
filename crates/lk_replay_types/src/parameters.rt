//! The Pis of the parameters in a constructor's type.

ghost use Rattle.std.specs.Prelude.{◌≡◌, ◌<◌, length, map, All};
ghost use Rattle.lk_written.specs.Typing.{past as past_pis};
ghost use Rattle.lk_store.specs.Contents.{tree_at};
ghost use Rattle.lk_premises.specs.Claims.{claims_at, AreClaimsIn};
ghost use Rattle.lk_premises.specs.Testing.{ReadsTree};
ghost use Rattle.lk_replay_types.specs.Subjects.{past_once};

use lk_premises::{Claim, Read, to_pi};
use lk_store::memory::NoMemory;
use lk_store::terms::Terms;
use lk_subst::opening::open_with;
use std::alloc::Global;

/// What stands behind the first Pi of a type, for whose variable an argument is put.
fn next_parameter<'a, T: Terms>(
    alloc: Global,
    terms: &mut T,
    claims: &[Claim],
    left: &'a [u32],
    argument: u64,
    ty: u64,
) -> Result<Option<Read<'a>>, NoMemory>
    requires claims_in { AreClaimsIn (T.contents terms.old) claims.now }
    requires argument_in { argument < length (T.contents terms.old).trees }
    requires ty_in { ty < length (T.contents terms.old).trees }
    ensures { let c = T.contents terms.old in
        ReadsTree T.contents T.rest terms.old terms.new result
        (past_once (claims_at c claims.now) left.now (tree_at c argument) (tree_at c ty)) }
{
    match to_pi(terms, claims, left, ty) {
        Some(pi) => {
            let tree = open_with(alloc, terms, pi.body, argument)?;
            Ok(Some(Read {
                tree,
                after: pi.after,
            }))
        }
        None => Ok(None),
    }
}

/// What stands behind the first so many Pis of a type, for whose variables the first arguments are put.
pub(crate) fn past_parameters<'a, T: Terms>(
    alloc: Global,
    terms: &mut T,
    claims: &[Claim],
    left: &'a [u32],
    arguments: &[u64],
    parameters: u64,
    ty: u64,
) -> Result<Option<Read<'a>>, NoMemory>
    requires claims_in { AreClaimsIn (T.contents terms.old) claims.now }
    requires arguments_in { All (λ x. x < length (T.contents terms.old).trees) arguments.now }
    requires ty_in { ty < length (T.contents terms.old).trees }
    ensures { let c = T.contents terms.old in
        ReadsTree T.contents T.rest terms.old terms.new result
        (past_pis (claims_at c claims.now) left.now (map (tree_at c) arguments.now) parameters
        (tree_at c ty)) }
{
    let mut at = Read {
        tree: ty,
        after: left,
    };
    let mut rest = arguments;
    let mut due = parameters;
    'parameters: while due > 0 {
        let Some((argument, more)) = rest.split_first() else {
            return Ok(None);
        };
        match next_parameter(alloc, terms, claims, at.after, *argument, at.tree)? {
            Some(next) => {
                at = next;
                rest = more;
                due -= 1;
            }
            None => return Ok(None),
        }
    }
    Ok(Some(at))
}
