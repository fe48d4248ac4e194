//! The check of a quotient unit.

ghost use Rattle.std.specs.Prelude.{◌≡◌, ◌<◌, length, map, All};
ghost use Rattle.lk_rulebook.specs.Units.{Decl, as_quot};
ghost use Rattle.lk_questions.specs.Declarations.{checked, unit_steps};
ghost use Rattle.lk_store.specs.Contents.{name_at, tree_at};
ghost use Rattle.lk_declaration.specs.Courses.{ComesTo};

use lk_ask::stop::Stop;
use lk_declaration::check_axiom;
use lk_quot::quotients::Quotients;

/// Asks the questions of a quotient unit: it is one of the four constants and has its type
/// (`QuotShape`), and that type has a sort (`NotASort`).
pub(crate) fn check_quotient<Q: Quotients>(
    asks: &mut Q,
    name: u64,
    levels: &[u64],
    ty: u64,
) -> Result<(), Stop>
    requires name_in { name < length (Q.contents asks.old).names }
    requires levels_in { All (λ n. n < length (Q.contents asks.old).names) levels.now }
    requires ty_in { ty < length (Q.contents asks.old).trees }
    ensures stays { Q.standing asks.new ≡ Q.standing asks.old }
    ensures outcome { (d : Decl) → d.name ≡ name_at (Q.contents asks.old) name
        → d.levels ≡ map (name_at (Q.contents asks.old)) levels.now
        → d.type ≡ tree_at (Q.contents asks.old) ty
        → d.body ≡ as_quot → ComesTo (Q.standing asks.old) (unit_steps d)
        (Q.left asks.old) (λ u. checked) (Q.left asks.new) result }
{
    asks.quotient(name, levels, ty)?;
    check_axiom(asks, ty)
}
