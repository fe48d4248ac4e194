//! Applications: a function and one or more arguments.

ghost use Rattle.std.specs.Prelude.{◌≡◌, ◌<◌, length, option_map, All, IfSome};
ghost use Rattle.lk_written.specs.Typing as typing;
ghost use Rattle.lk_store.specs.Contents.{tree_at};
ghost use Rattle.lk_premises.specs.Claims.{claims_at, AreClaimsIn};
ghost use Rattle.lk_premises.specs.Reading.{read_at, stated_at};
ghost use Rattle.lk_premises.specs.Spines.{stack_at};
ghost use Rattle.lk_premises.specs.Testing.{Tests, ReadsTree};
ghost use Rattle.lk_replay_types.specs.Parts.{body_for};
ghost use Rattle.lk_replay_types.specs.Applications.{applied_once, type_of_spine, app_after};

use lk_premises::{
    Claim, Read, Relation, Stated, arguments_over, comes_to, equal, next_stated, to_pi, typed,
};
use lk_store::memory::NoMemory;
use lk_store::terms::Terms;
use lk_subst::opening::open_with;
use std::alloc::Global;

/// The codomain of a function type that an argument is of the domain of, and the premises after that.
#[tactic(auto, unfolding(crate::specs::Parts::body_for))]
fn codomain_for<'a, T: Terms>(
    terms: &T,
    claims: &[Claim],
    left: &'a [u32],
    function: u64,
    argument: u64,
) -> Option<Read<'a>>
    requires claims_in { AreClaimsIn (T.contents terms.now) claims.now }
    requires function_in { function < length (T.contents terms.now).trees }
    requires argument_in { argument < length (T.contents terms.now).trees }
    ensures read { let c = T.contents terms.now in
        body_for (claims_at c claims.now) left.now (tree_at c function) (tree_at c argument)
        ≡ option_map (read_at c) result }
    ensures known { IfSome result (λ r. r.tree < length (T.contents terms.now).trees) }
{
    let pi = to_pi(terms, claims, left, function)?;
    let own = typed(terms, claims, pi.after, argument)?;
    let after = equal(terms, claims, own.after, own.tree, pi.domain)?;
    Some(Read {
        tree: pi.body,
        after,
    })
}

/// The type of a function of this type that is applied to one argument.
fn apply_once<'a, T: Terms>(
    alloc: Global,
    terms: &mut T,
    claims: &[Claim],
    left: &'a [u32],
    function: u64,
    argument: u64,
) -> Result<Option<Read<'a>>, NoMemory>
    requires claims_in { AreClaimsIn (T.contents terms.old) claims.now }
    requires function_in { function < length (T.contents terms.old).trees }
    requires argument_in { argument < length (T.contents terms.old).trees }
    ensures { let c = T.contents terms.old in
        ReadsTree T.contents T.rest terms.old terms.new result
        (applied_once (claims_at c claims.now) left.now (tree_at c function)
        (tree_at c argument)) }
{
    match codomain_for(terms, claims, left, function, argument) {
        Some(body) => {
            let tree = open_with(alloc, terms, body.tree, argument)?;
            Ok(Some(Read {
                tree,
                after: body.after,
            }))
        }
        None => Ok(None),
    }
}

/// The type of a function of this type that is applied to a stack of arguments.
fn applied_type<'a, T: Terms>(
    alloc: Global,
    terms: &mut T,
    claims: &[Claim],
    left: &'a [u32],
    function: u64,
    mut arguments: Vec<u64>,
) -> Result<Option<Read<'a>>, NoMemory>
    requires claims_in { AreClaimsIn (T.contents terms.old) claims.now }
    requires function_in { function < length (T.contents terms.old).trees }
    requires arguments_in { All (λ x. x < length (T.contents terms.old).trees) arguments.items }
    ensures { let c = T.contents terms.old in
        ReadsTree T.contents T.rest terms.old terms.new result
        (typing.applied_type (claims_at c claims.now) left.now (tree_at c function)
        (stack_at c arguments.items)) }
{
    let mut at = Read {
        tree: function,
        after: left,
    };
    'arguments: while let Some(argument) = arguments.pop() {
        match apply_once(alloc, terms, claims, at.after, at.tree, argument)? {
            Some(next) => at = next,
            None => return Ok(None),
        }
    }
    Ok(Some(at))
}

/// Whether the type of a function of this type that is applied to a stack of arguments is the line's.
fn is_applied<T: Terms>(
    alloc: Global,
    terms: &mut T,
    claims: &[Claim],
    left: &[u32],
    function: u64,
    arguments: Vec<u64>,
    ty: u64,
) -> Result<bool, NoMemory>
    requires claims_in { AreClaimsIn (T.contents terms.old) claims.now }
    requires function_in { function < length (T.contents terms.old).trees }
    requires arguments_in { All (λ x. x < length (T.contents terms.old).trees) arguments.items }
    requires ty_in { ty < length (T.contents terms.old).trees }
    ensures { let c = T.contents terms.old in
        Tests T.contents T.rest terms.old terms.new result
        (type_of_spine (claims_at c claims.now) left.now (tree_at c function)
        (stack_at c arguments.items) (tree_at c ty)) }
{
    match applied_type(alloc, terms, claims, left, function, arguments)? {
        Some(found) => Ok(comes_to(terms, ty, found.tree, found.after)),
        None => Ok(false),
    }
}

/// The same, where the function and its type are those of a premise.
fn applied_after<T: Terms>(
    alloc: Global,
    terms: &mut T,
    claims: &[Claim],
    function: Stated<'_>,
    e: u64,
    ty: u64,
) -> Result<bool, NoMemory>
    requires claims_in { AreClaimsIn (T.contents terms.old) claims.now }
    requires left_in { function.left < length (T.contents terms.old).trees }
    requires right_in { function.right < length (T.contents terms.old).trees }
    requires e_in { e < length (T.contents terms.old).trees }
    requires ty_in { ty < length (T.contents terms.old).trees }
    ensures { let c = T.contents terms.old in
        Tests T.contents T.rest terms.old terms.new result
        (app_after (claims_at c claims.now) (stated_at c function.entry) (tree_at c e)
        (tree_at c ty)) }
{
    match arguments_over(alloc, terms, function.left, e)? {
        Some(arguments) => {
            is_applied(
                alloc,
                terms,
                claims,
                function.after,
                function.right,
                arguments,
                ty,
            )
        }
        None => Ok(false),
    }
}

/// A line of an application. The function is the one that its first premise is about.
pub fn test_application<T: Terms>(
    alloc: Global,
    terms: &mut T,
    claims: &[Claim],
    left: &[u32],
    e: u64,
    ty: u64,
) -> Result<bool, NoMemory>
    requires claims_in { AreClaimsIn (T.contents terms.old) claims.now }
    requires e_in { e < length (T.contents terms.old).trees }
    requires ty_in { ty < length (T.contents terms.old).trees }
    ensures { let c = T.contents terms.old in
        Tests T.contents T.rest terms.old terms.new result
        (typing.type_app (claims_at c claims.now) left.now (tree_at c e) (tree_at c ty)) }
{
    match next_stated(Relation::Typing, claims, left) {
        Some(function) => applied_after(alloc, terms, claims, function, e, ty),
        None => Ok(false),
    }
}
