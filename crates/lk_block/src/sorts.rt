//! The sorts of the constructors' types.

ghost use Rattle.std.specs.Prelude.{◌≡◌, map, All};
ghost use Rattle.lk_questions.specs.Declarations.{checked};
ghost use Rattle.lk_store.specs.Contents.{Extends};
ghost use Rattle.lk_env.specs.Units.{constructor_at, type_at, IsConstructorIn, IsTypeIn};
ghost use Rattle.lk_declaration.specs.Courses.{ComesTo};
ghost use Rattle.lk_block.specs.Sorts.{constructors_form, sorts_form};

use lk_ask::asks::Asks;
use lk_ask::stop::Stop;
use lk_declaration::asking::sort_of;
use lk_env::unit::{BlockType, Constructor};

/// Each of these constructors' types has a sort.
fn check_constructors<A: Asks>(asks: &mut A, constructors: &[Constructor]) -> Result<(), Stop>
    requires { All (IsConstructorIn (A.contents asks.old)) constructors.now }
    ensures keeps { Extends (A.contents asks.old) (A.contents asks.new) }
    ensures stays { A.standing asks.new ≡ A.standing asks.old }
    ensures outcome { ComesTo (A.standing asks.old)
        (constructors_form (map (constructor_at (A.contents asks.old)) constructors.now))
        (A.left asks.old) (λ u. checked) (A.left asks.new) result }
{
    let mut rest = constructors;
    'constructors: while let Some((constructor, more)) = rest.split_first() {
        sort_of(asks, constructor.ty)?;
        rest = more;
    }
    Ok(())
}

/// Each constructor's type has a sort, type by type (`NotASort`). What a question refuses is handed on.
pub fn check_sorts<A: Asks>(asks: &mut A, types: &[BlockType]) -> Result<(), Stop>
    requires { All (IsTypeIn (A.contents asks.old)) types.now }
    ensures keeps { Extends (A.contents asks.old) (A.contents asks.new) }
    ensures stays { A.standing asks.new ≡ A.standing asks.old }
    ensures outcome { ComesTo (A.standing asks.old)
        (sorts_form (map (type_at (A.contents asks.old)) types.now)) (A.left asks.old)
        (λ u. checked) (A.left asks.new) result }
{
    let mut rest = types;
    'types: while let Some((stated, more)) = rest.split_first() {
        check_constructors(asks, &stated.constructors)?;
        rest = more;
    }
    Ok(())
}
