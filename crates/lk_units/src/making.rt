//! What each kind of line makes.
ghost use Rattle.std.specs.Prelude.{◌≡◌, ◌<◌, ◌++◌, ◌∷◌, [], length, map, All, IfOk, Ok, Result};
ghost use Rattle.lk_tree.specs.Tree.{Level, text, number, var, const, str};
ghost use Rattle.lk_rulebook.specs.Units.{Body as PlainBody};
ghost use Rattle.lk_store.specs.Contents.{Contents, name_at, level_at, tree_at, level_of, tree_of, IsIn, IsLevelIn, IsName, IsList, Extends};
ghost use Rattle.lk_env.specs.Units.{shared_names, body_at, rule_at, IsBodyIn, IsRuleIn};
ghost use Rattle.lk_members.specs.Stored.{IsStoredMemberIn};
ghost use Rattle.lk_members.specs.Plain.{said_at};
ghost use Rattle.lk_lines.specs.declared.words.Word.{Word as LineWord};
ghost use Rattle.lk_units.specs.State.{State, all_known, longer_name, successor_level, pair_level, parameter_level, sort_tree, constant_tree, application_tree, binder_tree, let_tree, projection_tree, number_literal, rule_of, declaration_of, value_body, valued_of, axiom_of, quotient_of};
ghost use Rattle.lk_units.specs.Held.{IsKnown, Holds, Makes, binder_of, pair_of, body_of};

use crate::{Assembler, Binder, LevelPair, TakeError, ValueUse};
use lk_env::unit::{Body, Declaration, RecursorRule};
use lk_lines::{FileNumber, Word};
use lk_members::line::StoredMember;
use lk_num::Nat;
use lk_store::memory::NoMemory;
use lk_store::node::{LevelNode, ListNode, NameNode, Node};
use lk_store::terms::Terms;
use lk_store::text::Text;
use std::alloc::Global;
use std::sync::Arc;

// The node of a binder.
fn binder_node(binder: Binder, domain: u64, body: u64) -> Node
    ensures tree { (c : Contents) → tree_of c result
        ≡ binder_of binder (tree_at c domain) (tree_at c body) }
    ensures parts { (c : Contents) → domain < length c.trees → body < length c.trees
        → IsIn c result }
{
    match binder {
        Binder::Lambda => Node::Lam(domain, body),
        Binder::Pi => Node::Pi(domain, body),
    }
}

// The node of a level that is made of two.
fn pair_node(pair: LevelPair, left: u64, right: u64) -> LevelNode
    ensures level { (c : Contents) → level_of c result
        ≡ pair_of pair (level_at c left) (level_at c right) }
    ensures parts { (c : Contents) → left < length c.levels → right < length c.levels
        → IsLevelIn c result }
{
    match pair {
        LevelPair::Max => LevelNode::Max(left, right),
        LevelPair::Imax => LevelNode::IMax(left, right),
    }
}

// The body that a value makes.
fn value_body(value_use: ValueUse, value: u32) -> Body
    ensures body { (c : Contents) → body_at c result ≡ body_of value_use (tree_at c value) }
    ensures parts { (c : Contents) → value < length c.trees → IsBodyIn c result }
{
    match value_use {
        ValueUse::Definition(hint) => Body::Definition { hint, value },
        ValueUse::Theorem => Body::Theorem { proof: value },
        ValueUse::Opaque => Body::Opaque { value },
    }
}

// A level.
fn make_level<T: Terms>(store: &mut T, node: LevelNode) -> Result<u64, TakeError>
    requires { IsLevelIn (T.contents store.old) node }
    ensures keeps { Extends (T.contents store.old) (T.contents store.new) }
    ensures rest { T.rest store.new ≡ T.rest store.old }
    ensures known { IfOk result (λ l. l < length (T.contents store.new).levels) }
    ensures made { Makes (level_at (T.contents store.new)) result
        (Ok (level_of (T.contents store.old) node)) }
{
    match store.make_level(node) {
        Ok(l) => Ok(l),
        Err(_) => Err(TakeError::NoMemory),
    }
}

// A term.
fn make<T: Terms>(store: &mut T, node: Node) -> Result<u64, TakeError>
    requires { IsIn (T.contents store.old) node }
    ensures keeps { Extends (T.contents store.old) (T.contents store.new) }
    ensures rest { T.rest store.new ≡ T.rest store.old }
    ensures known { IfOk result (λ e. e < length (T.contents store.new).trees) }
    ensures made { Makes (tree_at (T.contents store.new)) result
        (Ok (tree_of (T.contents store.old) node)) }
{
    match store.make(node) {
        Ok(e) => Ok(e),
        Err(_) => Err(TakeError::NoMemory),
    }
}

/// A variable.
pub(crate) fn variable<T: Terms>(store: &mut T, index: u64) -> Result<u64, TakeError>
    ensures keeps { Extends (T.contents store.old) (T.contents store.new) }
    ensures rest { T.rest store.new ≡ T.rest store.old }
    ensures known { IfOk result (λ e. e < length (T.contents store.new).trees) }
    ensures made { Makes (tree_at (T.contents store.new)) result (Ok (var index)) }
{
    make(store, Node::Var(index))
}

/// A number literal. All above 2^128 - 1 are one term.
pub(crate) fn nat_literal<T: Terms>(store: &mut T, number: Nat) -> Result<u64, TakeError>
    ensures keeps { Extends (T.contents store.old) (T.contents store.new) }
    ensures rest { T.rest store.new ≡ T.rest store.old }
    ensures known { IfOk result (λ e. e < length (T.contents store.new).trees) }
    ensures made { Makes (tree_at (T.contents store.new)) result (Ok (number_literal number)) }
{
    match number {
        Nat::Fits(n) => make(store, Node::Lit(n)),
        Nat::Wide => make(store, Node::Wide),
    }
}

/// A text literal.
pub(crate) fn text_literal<T: Terms>(store: &mut T, bytes: Vec<u8>) -> Result<u64, TakeError>
    ensures keeps { Extends (T.contents store.old) (T.contents store.new) }
    ensures rest { T.rest store.new ≡ T.rest store.old }
    ensures known { IfOk result (λ e. e < length (T.contents store.new).trees) }
    ensures made { Makes (tree_at (T.contents store.new)) result (Ok (str bytes.items)) }
{
    let text = store.make_text(Text::new(bytes))?;
    make(store, Node::Str(text))
}

/// The name with one more component, a text.
#[inline(always)]
fn with_text<T: Terms>(
    alloc: Global,
    store: &mut T,
    parent: u64,
    bytes: &[u8],
) -> Result<u64, NoMemory>
    requires { parent < length (T.contents store.old).names }
    ensures keeps { Extends (T.contents store.old) (T.contents store.new) }
    ensures rest { T.rest store.new ≡ T.rest store.old }
    ensures ok { IfOk result (λ n. IsName (T.contents store.new) n
        (name_at (T.contents store.old) parent ++ text bytes.now ∷ [])) }
{
    let s = store.make_text(Text::copy_of(alloc, bytes)?)?;
    let n = store.make_name(NameNode::Text(parent, s))?;
    Ok(n)
}

/// The list of several levels, made from its end.
fn make_list<T: Terms>(store: &mut T, mut levels: Vec<u64>) -> Result<u64, NoMemory>
    requires { All (λ l. l < length (T.contents store.old).levels) levels.items }
    ensures keeps { Extends (T.contents store.old) (T.contents store.new) }
    ensures rest { T.rest store.new ≡ T.rest store.old }
    ensures ok { IfOk result (λ ls. IsList (T.contents store.new) ls
        (map (level_at (T.contents store.old)) levels.items)) }
{
    let mut list = store.make_levels(ListNode::Empty)?;
    'up: while let Some(level) = levels.pop() {
        list = store.make_levels(ListNode::Cons(level, list))?;
    }
    Ok(list)
}

/// A constant at levels.
fn make_constant<T: Terms>(store: &mut T, name: u64, levels: Vec<u64>) -> Result<u64, TakeError>
    requires name_in { name < length (T.contents store.old).names }
    requires levels_in { All (λ l. l < length (T.contents store.old).levels) levels.items }
    ensures keeps { Extends (T.contents store.old) (T.contents store.new) }
    ensures rest { T.rest store.new ≡ T.rest store.old }
    ensures known { IfOk result (λ e. e < length (T.contents store.new).trees) }
    ensures made { Makes (tree_at (T.contents store.new)) result
        (Ok (const (name_at (T.contents store.old) name)
        (map (level_at (T.contents store.old)) levels.items))) }
{
    match make_list(store, levels) {
        Ok(list) => make(store, Node::Const(name, list)),
        Err(_) => Err(TakeError::NoMemory),
    }
}

/// The list, in the memory of the other one where that is the same.
fn shared(
    alloc: Global,
    other: Option<&Arc<Vec<u64>>>,
    list: Vec<u64>,
) -> Result<Arc<Vec<u64>>, NoMemory>
    ensures { IfOk result (λ kept. shared_names kept ≡ list.items) }
{
    if let Some(kept) = other {
        if kept.as_slice() == list.as_slice() {
            return Ok(Arc::try_clone(kept)?);
        }
    }
    let kept = Arc::new(alloc, list)?;
    Ok(kept)
}

impl Assembler {
    /// The sort of a level.
    #[tactic(auto, using(crate::proofs::Lines::looked_up, crate::proofs::Holding::unchanged))]
    pub(crate) fn sort<T: Terms>(&self, store: &mut T, level: u64) -> Result<u64, TakeError>
        requires { IsKnown self.now (T.contents store.old) }
        ensures keeps { Extends (T.contents store.old) (T.contents store.new) }
        ensures rest { T.rest store.new ≡ T.rest store.old }
        ensures known { IfOk result (λ e. e < length (T.contents store.new).trees) }
        ensures made { (s : State) → Holds self.now (T.contents store.old) s
            → Makes (tree_at (T.contents store.new)) result (sort_tree s level) }
    {
        let level = self.by_level.known(level)?;
        make(store, Node::Sort(level))
    }

    /// A constant at the levels under several numbers.
    #[tactic(auto, using(crate::proofs::Lines::looked_up, crate::proofs::Holding::unchanged))]
    pub(crate) fn constant<T: Terms, N: FileNumber>(
        &self,
        alloc: Global,
        store: &mut T,
        name: u64,
        levels: &[N],
    ) -> Result<u64, TakeError>
        requires { IsKnown self.now (T.contents store.old) }
        ensures keeps { Extends (T.contents store.old) (T.contents store.new) }
        ensures rest { T.rest store.new ≡ T.rest store.old }
        ensures known { IfOk result (λ e. e < length (T.contents store.new).trees) }
        ensures made { (s : State) → Holds self.now (T.contents store.old) s
            → Makes (tree_at (T.contents store.new)) result
            (constant_tree s name (N.view.values levels.now)) }
    {
        let name = self.by_name.known(name)?;
        match self.by_level.find_all(alloc, levels) {
            Ok(levels) => make_constant(store, name, levels),
            Err(error) => Err(error),
        }
    }

    /// An application.
    #[tactic(auto, using(crate::proofs::Lines::looked_up, crate::proofs::Holding::unchanged))]
    pub(crate) fn application<T: Terms>(
        &self,
        store: &mut T,
        function: u64,
        argument: u64,
    ) -> Result<u64, TakeError>
        requires { IsKnown self.now (T.contents store.old) }
        ensures keeps { Extends (T.contents store.old) (T.contents store.new) }
        ensures rest { T.rest store.new ≡ T.rest store.old }
        ensures known { IfOk result (λ e. e < length (T.contents store.new).trees) }
        ensures made { (s : State) → Holds self.now (T.contents store.old) s
            → Makes (tree_at (T.contents store.new)) result (application_tree s function argument) }
    {
        let function = self.by_tree.known(function)?;
        let argument = self.by_tree.known(argument)?;
        make(store, Node::App(function, argument))
    }

    /// A lambda or a Pi.
    #[tactic(auto, using(crate::proofs::Lines::looked_up, crate::proofs::Holding::unchanged))]
    pub(crate) fn binder<T: Terms>(
        &self,
        store: &mut T,
        binder: Binder,
        name: u64,
        domain: u64,
        body: u64,
    ) -> Result<u64, TakeError>
        requires { IsKnown self.now (T.contents store.old) }
        ensures keeps { Extends (T.contents store.old) (T.contents store.new) }
        ensures rest { T.rest store.new ≡ T.rest store.old }
        ensures known { IfOk result (λ e. e < length (T.contents store.new).trees) }
        ensures made { (s : State) → Holds self.now (T.contents store.old) s
            → Makes (tree_at (T.contents store.new)) result
            (binder_tree s (binder_of binder) name domain body) }
    {
        let _name = self.by_name.known(name)?;
        let domain = self.by_tree.known(domain)?;
        let body = self.by_tree.known(body)?;
        make(store, binder_node(binder, domain, body))
    }

    /// A let.
    #[tactic(auto, using(crate::proofs::Lines::looked_up, crate::proofs::Holding::unchanged))]
    pub(crate) fn let_in<T: Terms>(
        &self,
        store: &mut T,
        name: u64,
        domain: u64,
        value: u64,
        body: u64,
    ) -> Result<u64, TakeError>
        requires { IsKnown self.now (T.contents store.old) }
        ensures keeps { Extends (T.contents store.old) (T.contents store.new) }
        ensures rest { T.rest store.new ≡ T.rest store.old }
        ensures known { IfOk result (λ e. e < length (T.contents store.new).trees) }
        ensures made { (s : State) → Holds self.now (T.contents store.old) s
            → Makes (tree_at (T.contents store.new)) result (let_tree s name domain value body) }
    {
        let _name = self.by_name.known(name)?;
        let domain = self.by_tree.known(domain)?;
        let value = self.by_tree.known(value)?;
        let body = self.by_tree.known(body)?;
        make(store, Node::Let(domain, value, body))
    }

    /// A projection.
    #[tactic(auto, using(crate::proofs::Lines::looked_up, crate::proofs::Holding::unchanged))]
    pub(crate) fn projection<T: Terms>(
        &self,
        store: &mut T,
        structure: u64,
        field: u64,
        subject: u64,
    ) -> Result<u64, TakeError>
        requires { IsKnown self.now (T.contents store.old) }
        ensures keeps { Extends (T.contents store.old) (T.contents store.new) }
        ensures rest { T.rest store.new ≡ T.rest store.old }
        ensures known { IfOk result (λ e. e < length (T.contents store.new).trees) }
        ensures made { (s : State) → Holds self.now (T.contents store.old) s
            → Makes (tree_at (T.contents store.new)) result
            (projection_tree s structure field subject) }
    {
        let structure = self.by_name.known(structure)?;
        let subject = self.by_tree.known(subject)?;
        make(store, Node::Proj(structure, field, subject))
    }

    /// The successor of a level.
    #[tactic(auto, using(crate::proofs::Lines::looked_up, crate::proofs::Holding::unchanged))]
    pub(crate) fn successor<T: Terms>(&self, store: &mut T, level: u64) -> Result<u64, TakeError>
        requires { IsKnown self.now (T.contents store.old) }
        ensures keeps { Extends (T.contents store.old) (T.contents store.new) }
        ensures rest { T.rest store.new ≡ T.rest store.old }
        ensures known { IfOk result (λ l. l < length (T.contents store.new).levels) }
        ensures made { (s : State) → Holds self.now (T.contents store.old) s
            → Makes (level_at (T.contents store.new)) result (successor_level s level) }
    {
        let level = self.by_level.known(level)?;
        make_level(store, LevelNode::Succ(level))
    }

    /// The maximum of two levels, or 0 where it is an `imax` and the right one is 0.
    #[tactic(auto, using(crate::proofs::Lines::looked_up, crate::proofs::Holding::unchanged))]
    pub(crate) fn level_pair<T: Terms>(
        &self,
        store: &mut T,
        pair: LevelPair,
        left: u64,
        right: u64,
    ) -> Result<u64, TakeError>
        requires { IsKnown self.now (T.contents store.old) }
        ensures keeps { Extends (T.contents store.old) (T.contents store.new) }
        ensures rest { T.rest store.new ≡ T.rest store.old }
        ensures known { IfOk result (λ l. l < length (T.contents store.new).levels) }
        ensures made { (s : State) → Holds self.now (T.contents store.old) s
            → Makes (level_at (T.contents store.new)) result
            (pair_level s (pair_of pair) left right) }
    {
        let left = self.by_level.known(left)?;
        let right = self.by_level.known(right)?;
        make_level(store, pair_node(pair, left, right))
    }

    /// A level parameter.
    #[tactic(auto, using(crate::proofs::Lines::looked_up, crate::proofs::Holding::unchanged))]
    pub(crate) fn parameter<T: Terms>(&self, store: &mut T, name: u64) -> Result<u64, TakeError>
        requires { IsKnown self.now (T.contents store.old) }
        ensures keeps { Extends (T.contents store.old) (T.contents store.new) }
        ensures rest { T.rest store.new ≡ T.rest store.old }
        ensures known { IfOk result (λ l. l < length (T.contents store.new).levels) }
        ensures made { (s : State) → Holds self.now (T.contents store.old) s
            → Makes (level_at (T.contents store.new)) result (parameter_level s name) }
    {
        let name = self.by_name.known(name)?;
        make_level(store, LevelNode::Param(name))
    }

    /// A name with one more component, a text.
    #[inline(always)]
    #[tactic(auto, using(crate::proofs::Lines::looked_up, crate::proofs::Holding::unchanged))]
    pub(crate) fn text_name<T: Terms>(
        &self,
        alloc: Global,
        store: &mut T,
        parent: u64,
        bytes: &[u8],
    ) -> Result<u64, TakeError>
        requires { IsKnown self.now (T.contents store.old) }
        ensures keeps { Extends (T.contents store.old) (T.contents store.new) }
        ensures rest { T.rest store.new ≡ T.rest store.old }
        ensures known { IfOk result (λ n. n < length (T.contents store.new).names) }
        ensures made { (s : State) → Holds self.now (T.contents store.old) s
            → Makes (name_at (T.contents store.new)) result
            (longer_name s parent (text bytes.now)) }
    {
        let parent = self.by_name.known(parent)?;
        match with_text(alloc, store, parent, bytes) {
            Ok(n) => Ok(n),
            Err(_) => Err(TakeError::NoMemory),
        }
    }

    /// A name with one more component, a number.
    #[tactic(auto, using(crate::proofs::Lines::looked_up, crate::proofs::Holding::unchanged))]
    pub(crate) fn number_name<T: Terms>(
        &self,
        store: &mut T,
        parent: u64,
        component: u64,
    ) -> Result<u64, TakeError>
        requires { IsKnown self.now (T.contents store.old) }
        ensures keeps { Extends (T.contents store.old) (T.contents store.new) }
        ensures rest { T.rest store.new ≡ T.rest store.old }
        ensures known { IfOk result (λ n. n < length (T.contents store.new).names) }
        ensures made { (s : State) → Holds self.now (T.contents store.old) s
            → Makes (name_at (T.contents store.new)) result
            (longer_name s parent (number component)) }
    {
        let parent = self.by_name.known(parent)?;
        match store.make_name(NameNode::Number(parent, component)) {
            Ok(n) => Ok(n),
            Err(_) => Err(TakeError::NoMemory),
        }
    }

    /// A rule of a recursor.
    #[tactic(auto, using(crate::proofs::Lines::looked_up))]
    pub(crate) fn rule(
        &self,
        constructor: u64,
        fields: u64,
        value: u64,
    ) -> Result<RecursorRule, TakeError>
        ensures known { (c : Contents) → IsKnown self.now c → IfOk result (IsRuleIn c) }
        ensures made { (c : Contents) (s : State) → Holds self.now c s
            → Makes (rule_at c) result (rule_of s constructor fields value) }
    {
        let constructor = self.by_name.known(constructor)?;
        let value = self.by_tree.known(value)?;
        Ok(RecursorRule {
            constructor,
            fields,
            value,
        })
    }

    /// The level parameters of a declaration. The list is that of the declaration before, where it
    /// has the same one.
    fn parameters<N: FileNumber>(
        &self,
        alloc: Global,
        parameters: &[N],
    ) -> Result<Arc<Vec<u64>>, TakeError>
        ensures known { (c : Contents) → IsKnown self.now c
            → IfOk result (λ p. All (λ n. n < length c.names) (shared_names p)) }
        ensures made { (c : Contents) (s : State) → Holds self.now c s
            → Makes (λ p. map (name_at c) (shared_names p)) result
            (all_known s.names (N.view.values parameters.now)) }
    {
        let levels = self.names_of(alloc, parameters)?;
        let kept = shared(alloc, self.members.last_parameters(), levels)?;
        Ok(kept)
    }

    /// A declaration with this body. A fault of the body comes behind those of its name and type.
    #[tactic(auto, using(crate::proofs::Holding::found, crate::proofs::Holding::missing, crate::proofs::Holding::is_below))]
    fn declaration<N: FileNumber>(
        &self,
        alloc: Global,
        name: u64,
        ty: u64,
        body: Result<Body, TakeError>,
        parameters: &[N],
    ) -> Result<StoredMember, TakeError>
        ensures known { (c : Contents) → IsKnown self.now c → IfOk body (λ b. IsBodyIn c b)
            → IfOk result (IsStoredMemberIn c) }
        ensures made { (c : Contents) (s : State) (said : Result PlainBody LineWord)
            → Holds self.now c s → Makes (body_at c) body said
            → Makes (said_at c) result
            (declaration_of s name ty said (N.view.values parameters.now)) }
    {
        let Some(name) = self.by_name.find_place(name) else {
            return Err(TakeError::Fault(Word::IndexUnknown));
        };
        let Some(ty) = self.by_tree.find_place(ty) else {
            return Err(TakeError::Fault(Word::IndexUnknown));
        };
        let body = match body {
            Ok(body) => body,
            Err(error) => return Err(error),
        };
        match self.parameters(alloc, parameters) {
            Ok(levels) => Ok(StoredMember::Alone(Declaration {
                name,
                ty,
                levels,
                body,
            })),
            Err(error) => Err(error),
        }
    }

    /// The body that a value makes.
    #[tactic(auto, using(crate::proofs::Holding::found, crate::proofs::Holding::missing, crate::proofs::Holding::is_below))]
    fn body(&self, value_use: ValueUse, value: u64) -> Result<Body, TakeError>
        ensures known { (c : Contents) → IsKnown self.now c → IfOk result (λ b. IsBodyIn c b) }
        ensures made { (c : Contents) (s : State) → Holds self.now c s
            → Makes (body_at c) result (value_body s (body_of value_use) value) }
    {
        let Some(value) = self.by_tree.find_place(value) else {
            return Err(TakeError::Fault(Word::IndexUnknown));
        };
        Ok(value_body(value_use, value))
    }

    /// A declaration with a value.
    #[inline(always)]
    pub fn valued<N: FileNumber>(
        &self,
        alloc: Global,
        value_use: ValueUse,
        name: u64,
        ty: u64,
        value: u64,
        parameters: &[N],
    ) -> Result<StoredMember, TakeError>
        ensures known { (c : Contents) → IsKnown self.now c → IfOk result (IsStoredMemberIn c) }
        ensures made { (c : Contents) (s : State) → Holds self.now c s
            → Makes (said_at c) result (valued_of s (body_of value_use) name ty value
            (N.view.values parameters.now)) }
    {
        let body = self.body(value_use, value);
        self.declaration(alloc, name, ty, body, parameters)
    }

    /// An axiom.
    pub fn axiom<N: FileNumber>(
        &self,
        alloc: Global,
        name: u64,
        ty: u64,
        parameters: &[N],
    ) -> Result<StoredMember, TakeError>
        ensures known { (c : Contents) → IsKnown self.now c → IfOk result (IsStoredMemberIn c) }
        ensures made { (c : Contents) (s : State) → Holds self.now c s
            → Makes (said_at c) result (axiom_of s name ty (N.view.values parameters.now)) }
    {
        self.declaration(alloc, name, ty, Ok(Body::Axiom), parameters)
    }

    /// A constant of quotient types.
    pub fn quotient<N: FileNumber>(
        &self,
        alloc: Global,
        name: u64,
        ty: u64,
        parameters: &[N],
    ) -> Result<StoredMember, TakeError>
        ensures known { (c : Contents) → IsKnown self.now c → IfOk result (IsStoredMemberIn c) }
        ensures made { (c : Contents) (s : State) → Holds self.now c s
            → Makes (said_at c) result (quotient_of s name ty (N.view.values parameters.now)) }
    {
        self.declaration(alloc, name, ty, Ok(Body::Quotient), parameters)
    }
}
