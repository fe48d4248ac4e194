//! A constructor's type past the block's parameters, whose stated domains stay.

ghost use Rattle.std.specs.Prelude.{◌≡◌, ◌<◌, length, map, All, IfOk, OnOk};
ghost use Rattle.lk_tree.specs.Tree.{pi};
ghost use Rattle.lk_tree.specs.Bind.{close as closed};
ghost use Rattle.lk_nested.specs.Findings.{Finds};
ghost use Rattle.lk_store.specs.Contents.{tree_at, Extends, IsTree};
ghost use Rattle.lk_declaration.specs.Courses.{Settles};
ghost use Rattle.lk_inductive.specs.Block.{domain};
ghost use Rattle.lk_inductive.specs.Recursors.{number, pis};
ghost use Rattle.lk_auxiliary.specs.Auxiliaries.{auxs_at};
ghost use Rattle.lk_enlarge.specs.Opened.{past_local, past_locals, nests_past};
ghost use Rattle.lk_auxiliary.specs.Settings.{setting_at, IsSettingIn};
ghost use Rattle.lk_enlarge.specs.Occurrences.{AreOccurrences};

use crate::nest::nest;
use crate::occurrences::Occurrences;
use lk_ask::stop::Stop;
use lk_auxiliary::setting::Setting;
use lk_family::Families;
use lk_mentions::pis::head_pi;
use lk_store::memory::NoMemory;
use lk_store::node::Node;
use lk_store::terms::Terms;
use lk_subst::closing::close;
use lk_subst::opening::open_with;
use lk_tree::rule::Rule;
use std::alloc::Global;

/// The number of a Local, and its type.
fn parts_of<T: Terms>(terms: &T, e: u64) -> (u64, u64)
    requires { e < length (T.contents terms.now).trees }
    ensures number { result.0 ≡ number (tree_at (T.contents terms.now) e) }
    ensures domain { IsTree (T.contents terms.now) result.1
        (domain (tree_at (T.contents terms.now) e)) }
{
    match terms.view(e) {
        Node::Local(number, domain) => (number, domain),
        _ => (0, e),
    }
}

/// For the Pi that a type is to be (`BlockShape`): a parameter's Local with the stated domain, and the Pi's body, opened with the
/// parameter.
fn past_local<T: Terms>(
    alloc: Global,
    terms: &mut T,
    parameter: u64,
    e: u64,
) -> Result<(u64, u64), Stop>
    requires parameter_in { parameter < length (T.contents terms.old).trees }
    requires e_in { e < length (T.contents terms.old).trees }
    ensures keeps { Extends (T.contents terms.old) (T.contents terms.new) }
    ensures rest { T.rest terms.new ≡ T.rest terms.old }
    ensures known { IfOk result (λ p. (p.0 < length (T.contents terms.new).trees)
        × (p.1 < length (T.contents terms.new).trees)) }
    ensures past { Settles (past_local (tree_at (T.contents terms.old) parameter)
        (tree_at (T.contents terms.old) e))
        (λ p. (tree_at (T.contents terms.new) p.0, tree_at (T.contents terms.new) p.1)) result }
{
    match head_pi(terms, e) {
        None => Err(Stop::No(Rule::BlockShape)),
        Some(pi) => {
            let number = parts_of(terms, parameter).0;
            let local = terms.make(Node::Local(number, pi.domain))?;
            let rest = open_with(alloc, terms, pi.body, parameter)?;
            Ok((local, rest))
        }
    }
}

/// For the Pis at the head of a type, one for each parameter (`BlockShape`): the parameters' Locals with the stated domains, and
/// what stands past the Pis, opened with the parameters.
fn past_locals<T: Terms>(
    alloc: Global,
    terms: &mut T,
    parameters: &[u64],
    e: u64,
) -> Result<(Vec<u64>, u64), Stop>
    requires parameters_in { All (λ x. x < length (T.contents terms.old).trees) parameters.now }
    requires e_in { e < length (T.contents terms.old).trees }
    ensures keeps { Extends (T.contents terms.old) (T.contents terms.new) }
    ensures rest { T.rest terms.new ≡ T.rest terms.old }
    ensures locals_known { IfOk result (λ t. All
        (λ x. x < length (T.contents terms.new).trees) t.0.items) }
    ensures rest_known { IfOk result (λ t. t.1 < length (T.contents terms.new).trees) }
    ensures past { Settles (past_locals (map (tree_at (T.contents terms.old)) parameters.now)
        (tree_at (T.contents terms.old) e))
        (λ t. (map (tree_at (T.contents terms.new)) t.0.items, tree_at (T.contents terms.new) t.1))
        result }
{
    let mut locals: Vec<u64> = Vec::new(alloc);
    let mut left = parameters;
    let mut at = e;
    'parameters: while let Some((parameter, more)) = left.split_first() {
        let opened = past_local(alloc, terms, *parameter, at)?;
        match locals.push(opened.0) {
            Ok(_) => {}
            Err(_) => return Err(Stop::NoMemory),
        }
        at = opened.1;
        left = more;
    }
    Ok((locals, at))
}

/// A Pi over a type, whose variable stands in place of a Local.
fn over_local<T: Terms>(alloc: Global, terms: &mut T, local: u64, e: u64) -> Result<u64, NoMemory>
    requires local_in { local < length (T.contents terms.old).trees }
    requires e_in { e < length (T.contents terms.old).trees }
    ensures keeps { Extends (T.contents terms.old) (T.contents terms.new) }
    ensures rest { T.rest terms.new ≡ T.rest terms.old }
    ensures ok { IfOk result (λ r. IsTree (T.contents terms.new) r
        (pi (domain (tree_at (T.contents terms.old) local))
        (closed (number (tree_at (T.contents terms.old) local))
        (tree_at (T.contents terms.old) e)))) }
{
    let parts = parts_of(terms, local);
    let body = close(alloc, terms, e, parts.0)?;
    terms.make(Node::Pi(parts.1, body))
}

/// Pis over a type, one for each Local, the first outermost.
pub fn over_locals<T: Terms>(
    alloc: Global,
    terms: &mut T,
    locals: &[u64],
    e: u64,
) -> Result<u64, NoMemory>
    requires locals_in { All (λ x. x < length (T.contents terms.old).trees) locals.now }
    requires e_in { e < length (T.contents terms.old).trees }
    ensures keeps { Extends (T.contents terms.old) (T.contents terms.new) }
    ensures rest { T.rest terms.new ≡ T.rest terms.old }
    ensures ok { IfOk result (λ r. IsTree (T.contents terms.new) r
        (pis (map (tree_at (T.contents terms.old)) locals.now)
        (tree_at (T.contents terms.old) e))) }
{
    let mut left = locals;
    let mut made = e;
    'locals: while let Some((local, others)) = left.split_last() {
        made = over_local(alloc, terms, *local, made)?;
        left = others;
    }
    Ok(made)
}

/// A constructor's type with its auxiliary type in the place of each occurrence past the parameters.
pub fn nest_past<F: Families>(
    alloc: Global,
    asks: &mut F,
    setting: &Setting<'_>,
    met: &mut Occurrences,
    e: u64,
) -> Result<u64, Stop>
    requires setting_in { IsSettingIn (F.contents asks.old) setting.now }
    requires met { AreOccurrences (F.standing asks.old).place
        (setting_at (F.contents asks.old) setting.now) (F.contents asks.old) setting.now met.old }
    requires e_in { e < length (F.contents asks.old).trees }
    ensures keeps { Extends (F.contents asks.old) (F.contents asks.new) }
    ensures rest { F.rest asks.new ≡ F.rest asks.old }
    ensures tree_known { IfOk result (λ r. r < length (F.contents asks.new).trees) }
    ensures met { OnOk result (AreOccurrences (F.standing asks.old).place
        (setting_at (F.contents asks.old) setting.now) (F.contents asks.new) setting.now met.new) }
    ensures nests { Finds (nests_past (F.standing asks.old).place
        (setting_at (F.contents asks.old) setting.now) (tree_at (F.contents asks.old) e)
        (auxs_at (F.contents asks.old) met.old.auxs.items))
        (λ r. (tree_at (F.contents asks.new) r, auxs_at (F.contents asks.new) met.new.auxs.items))
        result }
{
    let (locals, inner) = past_locals(alloc, asks, setting.parameters, e)?;
    let nested = nest(alloc, asks, setting, met, inner)?;
    Ok(over_locals(alloc, asks, &locals, nested)?)
}
