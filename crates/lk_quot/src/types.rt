//! The types of the four constants of quotient types, made as terms.

ghost use Rattle.std.specs.Prelude.{◌<◌, [], ◌∷◌, length};
ghost use Rattle.lk_tree.specs.Tree.{var, sort, const, app, pi};
ghost use Rattle.lk_rulebook.specs.Quotients.{prop, rel};
ghost use Rattle.lk_store.specs.Contents.{name_at, level_at};
ghost use Rattle.lk_ask.specs.Looks.{MakesTree};
ghost use Rattle.lk_quot.specs.Types.{over_relations, quotient_of as plain_quotient, lift_under};
ghost use Rattle.lk_quot.specs.Types.{images_equal as plain_images, respects as plain_respects};
ghost use Rattle.lk_quot.specs.Types.{holds_of_elements as plain_holds, ind_under};

use lk_store::memory::NoMemory;
use lk_store::node::{LevelNode, ListNode, Node};
use lk_store::terms::Terms;

/// A constant with one level.
pub(crate) fn constant<T: Terms>(terms: &mut T, name: u64, level: u64) -> Result<u64, NoMemory>
    requires name_in { name < length (T.contents terms.old).names }
    requires level_in { level < length (T.contents terms.old).levels }
    ensures { MakesTree T.contents T.rest terms.old terms.new result
        (λ t. const (name_at (T.contents terms.old) name)
        (level_at (T.contents terms.old) level ∷ [])) }
{
    let none = terms.make_levels(ListNode::Empty)?;
    let levels = terms.make_levels(ListNode::Cons(level, none))?;
    terms.make(Node::Const(name, levels))
}

/// A term applied to a variable.
pub(crate) fn at_variable<T: Terms>(terms: &mut T, front: u64, i: u64) -> Result<u64, NoMemory>
    requires { front < length (T.contents terms.old).trees }
    ensures { MakesTree T.contents T.rest terms.old terms.new result (λ t. app (t front) (var i)) }
{
    let variable = terms.make(Node::Var(i))?;
    terms.make(Node::App(front, variable))
}

/// A variable applied to another one.
fn variable_at<T: Terms>(terms: &mut T, f: u64, i: u64) -> Result<u64, NoMemory>
    ensures { MakesTree T.contents T.rest terms.old terms.new result (λ t. app (var f) (var i)) }
{
    let front = terms.make(Node::Var(f))?;
    at_variable(terms, front, i)
}

/// For each element of a variable.
pub(crate) fn over_elements<T: Terms>(terms: &mut T, i: u64, body: u64) -> Result<u64, NoMemory>
    requires { body < length (T.contents terms.old).trees }
    ensures { MakesTree T.contents T.rest terms.old terms.new result (λ t. pi (var i) (t body)) }
{
    let domain = terms.make(Node::Var(i))?;
    terms.make(Node::Pi(domain, body))
}

/// `Prop`.
fn proposition<T: Terms>(terms: &mut T) -> Result<u64, NoMemory>
    ensures { MakesTree T.contents T.rest terms.old terms.new result (λ t. prop) }
{
    let level = terms.make_level(LevelNode::Zero)?;
    terms.make(Node::Sort(level))
}

/// The type of a relation on the elements of the last variable.
pub(crate) fn relation<T: Terms>(terms: &mut T) -> Result<u64, NoMemory>
    ensures { MakesTree T.contents T.rest terms.old terms.new result (λ t. rel 0) }
{
    let prop = proposition(terms)?;
    let under = over_elements(terms, 1, prop)?;
    over_elements(terms, 0, under)
}

/// For each type of this level and each relation on it.
fn over_relations<T: Terms>(terms: &mut T, level: u64, body: u64) -> Result<u64, NoMemory>
    requires level_in { level < length (T.contents terms.old).levels }
    requires body_in { body < length (T.contents terms.old).trees }
    ensures { MakesTree T.contents T.rest terms.old terms.new result
        (λ t. over_relations (level_at (T.contents terms.old) level) (t body)) }
{
    let domain = relation(terms)?;
    let under = terms.make(Node::Pi(domain, body))?;
    let ty = terms.make(Node::Sort(level))?;
    terms.make(Node::Pi(ty, under))
}

/// `quot`, which is `Quot`, at a type and a relation on it, by the numbers of their variables.
fn quotient_of<T: Terms>(terms: &mut T, quot: u64, ty: u64, relation: u64) -> Result<u64, NoMemory>
    requires { quot < length (T.contents terms.old).trees }
    ensures { MakesTree T.contents T.rest terms.old terms.new result
        (λ t. plain_quotient (t quot) ty relation) }
{
    let front = at_variable(terms, quot, ty)?;
    at_variable(terms, front, relation)
}

/// The type of `Quot`.
pub(crate) fn type_of_quot<T: Terms>(terms: &mut T, level: u64) -> Result<u64, NoMemory>
    requires { level < length (T.contents terms.old).levels }
    ensures { let u = level_at (T.contents terms.old) level in
        MakesTree T.contents T.rest terms.old terms.new result
        (λ t. over_relations u (sort u)) }
{
    let ty = terms.make(Node::Sort(level))?;
    over_relations(terms, level, ty)
}

/// The type of `Quot.mk`, where `quot` is `Quot`.
pub(crate) fn type_of_mk<T: Terms>(terms: &mut T, level: u64, quot: u64) -> Result<u64, NoMemory>
    requires level_in { level < length (T.contents terms.old).levels }
    requires quot_in { quot < length (T.contents terms.old).trees }
    ensures { MakesTree T.contents T.rest terms.old terms.new result
        (λ t. over_relations (level_at (T.contents terms.old) level)
        (pi (var 1) (plain_quotient (t quot) 2 1))) }
{
    let class = quotient_of(terms, quot, 2, 1)?;
    let under = over_elements(terms, 1, class)?;
    over_relations(terms, level, under)
}

/// That the images of two related elements are equal, where `eq` is `Eq`.
fn images_equal<T: Terms>(terms: &mut T, eq: u64) -> Result<u64, NoMemory>
    requires { eq < length (T.contents terms.old).trees }
    ensures { MakesTree T.contents T.rest terms.old terms.new result
        (λ t. plain_images (t eq)) }
{
    let left = variable_at(terms, 3, 2)?;
    let right = variable_at(terms, 3, 1)?;
    let at_type = at_variable(terms, eq, 4)?;
    let front = terms.make(Node::App(at_type, left))?;
    terms.make(Node::App(front, right))
}

/// That two elements are related, and so their images are equal, where `eq` is `Eq`.
fn related_go_to_equal<T: Terms>(terms: &mut T, eq: u64) -> Result<u64, NoMemory>
    requires { eq < length (T.contents terms.old).trees }
    ensures { MakesTree T.contents T.rest terms.old terms.new result
        (λ t. pi (app (app (var 4) (var 1)) (var 0)) (plain_images (t eq))) }
{
    let equal = images_equal(terms, eq)?;
    let front = variable_at(terms, 4, 1)?;
    let related = at_variable(terms, front, 0)?;
    terms.make(Node::Pi(related, equal))
}

/// That a function does not tell related elements apart, where `eq` is `Eq`.
fn respects<T: Terms>(terms: &mut T, eq: u64) -> Result<u64, NoMemory>
    requires { eq < length (T.contents terms.old).trees }
    ensures { MakesTree T.contents T.rest terms.old terms.new result
        (λ t. plain_respects (t eq)) }
{
    let related = related_go_to_equal(terms, eq)?;
    let second = over_elements(terms, 4, related)?;
    over_elements(terms, 3, second)
}

/// What `Quot.lift` goes from and to, behind its function, where `quot` is `Quot`.
fn lifted<T: Terms>(terms: &mut T, quot: u64) -> Result<u64, NoMemory>
    requires { quot < length (T.contents terms.old).trees }
    ensures { MakesTree T.contents T.rest terms.old terms.new result
        (λ t. pi (plain_quotient (t quot) 4 3) (var 3)) }
{
    let class = quotient_of(terms, quot, 4, 3)?;
    let goal = terms.make(Node::Var(3))?;
    terms.make(Node::Pi(class, goal))
}

/// The function of `Quot.lift`, and what comes behind it.
fn over_functions<T: Terms>(terms: &mut T, body: u64) -> Result<u64, NoMemory>
    requires { body < length (T.contents terms.old).trees }
    ensures { MakesTree T.contents T.rest terms.old terms.new result
        (λ t. pi (pi (var 2) (var 1)) (t body)) }
{
    let goal = terms.make(Node::Var(1))?;
    let function = over_elements(terms, 2, goal)?;
    terms.make(Node::Pi(function, body))
}

/// What comes behind the level of `Quot.lift`'s goal, where `quot` is `Quot` and `eq` is `Eq`.
fn lift_behind<T: Terms>(terms: &mut T, quot: u64, eq: u64) -> Result<u64, NoMemory>
    requires quot_in { quot < length (T.contents terms.old).trees }
    requires eq_in { eq < length (T.contents terms.old).trees }
    ensures { MakesTree T.contents T.rest terms.old terms.new result
        (λ t. pi (pi (var 2) (var 1)) (pi (plain_respects (t eq))
        (pi (plain_quotient (t quot) 4 3) (var 3)))) }
{
    let end = lifted(terms, quot)?;
    let respectful = respects(terms, eq)?;
    let behind = terms.make(Node::Pi(respectful, end))?;
    over_functions(terms, behind)
}

/// The type of `Quot.lift`, where `quot` is `Quot` and `eq` is `Eq`; `goal` is the level of what
/// its function gives.
pub(crate) fn type_of_lift<T: Terms>(
    terms: &mut T,
    level: u64,
    goal: u64,
    quot: u64,
    eq: u64,
) -> Result<u64, NoMemory>
    requires level_in { level < length (T.contents terms.old).levels }
    requires goal_in { goal < length (T.contents terms.old).levels }
    requires quot_in { quot < length (T.contents terms.old).trees }
    requires eq_in { eq < length (T.contents terms.old).trees }
    ensures { MakesTree T.contents T.rest terms.old terms.new result
        (λ t. over_relations (level_at (T.contents terms.old) level)
        (lift_under (level_at (T.contents terms.old) goal) (t quot) (t eq))) }
{
    let function = lift_behind(terms, quot, eq)?;
    let ty = terms.make(Node::Sort(goal))?;
    let under = terms.make(Node::Pi(ty, function))?;
    over_relations(terms, level, under)
}

/// That the motive of `Quot.ind` holds of each element's class, where `mk` is `Quot.mk`.
fn holds_of_elements<T: Terms>(terms: &mut T, mk: u64) -> Result<u64, NoMemory>
    requires { mk < length (T.contents terms.old).trees }
    ensures { MakesTree T.contents T.rest terms.old terms.new result
        (λ t. plain_holds (t mk)) }
{
    let front = quotient_of(terms, mk, 3, 2)?;
    let class = at_variable(terms, front, 0)?;
    let motive = terms.make(Node::Var(1))?;
    let holds = terms.make(Node::App(motive, class))?;
    over_elements(terms, 2, holds)
}

/// That the motive of `Quot.ind` holds of each class, where `quot` is `Quot`.
fn holds_of_classes<T: Terms>(terms: &mut T, quot: u64) -> Result<u64, NoMemory>
    requires { quot < length (T.contents terms.old).trees }
    ensures { MakesTree T.contents T.rest terms.old terms.new result
        (λ t. pi (plain_quotient (t quot) 3 2) (app (var 2) (var 0))) }
{
    let class = quotient_of(terms, quot, 3, 2)?;
    let holds = variable_at(terms, 2, 0)?;
    terms.make(Node::Pi(class, holds))
}

/// The motive of `Quot.ind`, and what comes behind it.
fn over_motives<T: Terms>(terms: &mut T, quot: u64, body: u64) -> Result<u64, NoMemory>
    requires quot_in { quot < length (T.contents terms.old).trees }
    requires body_in { body < length (T.contents terms.old).trees }
    ensures { MakesTree T.contents T.rest terms.old terms.new result
        (λ t. pi (pi (plain_quotient (t quot) 1 0) prop) (t body)) }
{
    let class = quotient_of(terms, quot, 1, 0)?;
    let prop = proposition(terms)?;
    let motive = terms.make(Node::Pi(class, prop))?;
    terms.make(Node::Pi(motive, body))
}

/// The type of `Quot.ind`, where `quot` is `Quot` and `mk` is `Quot.mk`.
pub(crate) fn type_of_ind<T: Terms>(
    terms: &mut T,
    level: u64,
    quot: u64,
    mk: u64,
) -> Result<u64, NoMemory>
    requires level_in { level < length (T.contents terms.old).levels }
    requires quot_in { quot < length (T.contents terms.old).trees }
    requires mk_in { mk < length (T.contents terms.old).trees }
    ensures { MakesTree T.contents T.rest terms.old terms.new result
        (λ t. over_relations (level_at (T.contents terms.old) level)
        (ind_under (t quot) (t mk))) }
{
    let end = holds_of_classes(terms, quot)?;
    let premise = holds_of_elements(terms, mk)?;
    let behind = terms.make(Node::Pi(premise, end))?;
    let under = over_motives(terms, quot, behind)?;
    over_relations(terms, level, under)
}
