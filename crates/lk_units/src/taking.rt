//! Items taken one after another.
ghost use Rattle.std.specs.Prelude.{◌≡◌, ◌<◌, ℕ, [], length, IfOk, OnOk, Ok, Some, None, Result};
ghost use Rattle.lk_tree.specs.Tree.{text, number, var, str};
ghost use Rattle.lk_rulebook.specs.Place.{RecRule};
ghost use Rattle.lk_store.specs.Contents.{Contents, Extends};
ghost use Rattle.lk_env.specs.Units.{hint_of, IsRuleIn, rule_at};
ghost use Rattle.lk_members.specs.Stored.{IsStoredMemberIn};
ghost use Rattle.lk_members.specs.Plain.{said_at};
ghost use Rattle.lk_lines.specs.declared.words.Word.{Word as LineWord};
ghost use Rattle.lk_lines.specs.declared.tags.Tag.TheVariants as tag;
ghost use Rattle.lk_lines.specs.FileNumbers.{narrow};
ghost use Rattle.lk_lines.specs.Views.{entry_tag, entry_values, declaration_tag, declaration_values, budget_values, hint_value};
ghost use Rattle.lk_units.specs.State.{State, longer_name, successor_level, pair_level, parameter_level, sort_tree, constant_tree, application_tree, binder_tree, let_tree, projection_tree, number_literal, rule_of, with_name, with_level, with_tree, with_rule, hint_said, valued_of, axiom_of, entry_added, declaration_said, with_line, take_item};
ghost use Rattle.lk_units.specs.Held.{Below, IsKnown, Holds, Makes, Follows, rule_held, told, binder_of, pair_of, body_of};

use crate::making::{nat_literal, text_literal, variable};
use crate::{Assembler, Binder, LevelPair, TakeError, ValueUse};
use lk_env::budget::Budget;
use lk_env::unit::{Hint, RecursorRule};
use lk_lines::{DeclarationLine, EntryLine, FileNumber, ReducibilityHint, Word};
use lk_members::Members;
use lk_members::fault::{MemberError, MemberFault};
use lk_members::line::StoredMember;
use lk_num::Nat;
use lk_store::terms::Terms;
use std::alloc::Global;
use std::mem::replace;

// Why a line is not taken among those before it.
fn member_error(error: MemberError) -> TakeError
    ensures { result ≡ told error }
{
    match error {
        MemberError::NoMemory => TakeError::NoMemory,
        MemberError::Fault(MemberFault::BadCount) => { TakeError::Fault(Word::BadCount) }
        MemberError::Fault(MemberFault::RepeatedMember) => {
            TakeError::Fault(Word::RepeatedMember)
        }
    }
}

// How readily a definition is unfolded, as it is held.
fn held_hint(hint: ReducibilityHint) -> Hint
    ensures { hint_of result ≡ hint_said (hint_value narrow hint) }
{
    match hint {
        ReducibilityHint::Opaque => Hint::Opaque,
        ReducibilityHint::Abbreviation => Hint::Abbreviation,
        ReducibilityHint::Regular(height) => Hint::Regular(height),
    }
}

impl Assembler {
    // A line of a name whose last component is a text.
    #[inline(always)]
    #[tactic(auto, using(crate::proofs::Putting::name_known, crate::proofs::Putting::name_follows))]
    fn text_line<T: Terms>(
        &mut self,
        alloc: Global,
        store: &mut T,
        own: u64,
        parent: u64,
        bytes: &[u8],
    ) -> Result<(), TakeError>
        requires { IsKnown self.old (T.contents store.old) }
        ensures keeps { Extends (T.contents store.old) (T.contents store.new) }
        ensures rest { T.rest store.new ≡ T.rest store.old }
        ensures known { OnOk result (IsKnown self.new (T.contents store.new)) }
        ensures follows { (s : State) → Holds self.old (T.contents store.old) s
            → Follows self.new (T.contents store.new) result
            (with_name s own (longer_name s parent (text bytes.now))) }
    {
        let made = self.text_name(alloc, store, parent, bytes);
        self.by_name.put_new(own, made)
    }

    // A line of a name whose last component is a number.
    #[tactic(auto, using(crate::proofs::Putting::name_known, crate::proofs::Putting::name_follows))]
    fn number_line<T: Terms>(
        &mut self,
        store: &mut T,
        own: u64,
        parent: u64,
        component: u64,
    ) -> Result<(), TakeError>
        requires { IsKnown self.old (T.contents store.old) }
        ensures keeps { Extends (T.contents store.old) (T.contents store.new) }
        ensures rest { T.rest store.new ≡ T.rest store.old }
        ensures known { OnOk result (IsKnown self.new (T.contents store.new)) }
        ensures follows { (s : State) → Holds self.old (T.contents store.old) s
            → Follows self.new (T.contents store.new) result
            (with_name s own (longer_name s parent (number component))) }
    {
        let made = self.number_name(store, parent, component);
        self.by_name.put_new(own, made)
    }

    // A line of a level.
    #[tactic(auto, using(crate::proofs::Putting::level_known, crate::proofs::Putting::level_follows))]
    fn successor_line<T: Terms>(
        &mut self,
        store: &mut T,
        own: u64,
        level: u64,
    ) -> Result<(), TakeError>
        requires { IsKnown self.old (T.contents store.old) }
        ensures keeps { Extends (T.contents store.old) (T.contents store.new) }
        ensures rest { T.rest store.new ≡ T.rest store.old }
        ensures known { OnOk result (IsKnown self.new (T.contents store.new)) }
        ensures follows { (s : State) → Holds self.old (T.contents store.old) s
            → Follows self.new (T.contents store.new) result
            (with_level s own (successor_level s level)) }
    {
        let made = self.successor(store, level);
        self.by_level.put_new(own, made)
    }

    // A line of a level that is made of two.
    #[tactic(auto, using(crate::proofs::Putting::level_known, crate::proofs::Putting::level_follows))]
    fn pair_line<T: Terms>(
        &mut self,
        store: &mut T,
        own: u64,
        pair: LevelPair,
        left: u64,
        right: u64,
    ) -> Result<(), TakeError>
        requires { IsKnown self.old (T.contents store.old) }
        ensures keeps { Extends (T.contents store.old) (T.contents store.new) }
        ensures rest { T.rest store.new ≡ T.rest store.old }
        ensures known { OnOk result (IsKnown self.new (T.contents store.new)) }
        ensures follows { (s : State) → Holds self.old (T.contents store.old) s
            → Follows self.new (T.contents store.new) result
            (with_level s own (pair_level s (pair_of pair) left right)) }
    {
        let made = self.level_pair(store, pair, left, right);
        self.by_level.put_new(own, made)
    }

    // A line of a level parameter.
    #[tactic(auto, using(crate::proofs::Putting::level_known, crate::proofs::Putting::level_follows))]
    fn parameter_line<T: Terms>(
        &mut self,
        store: &mut T,
        own: u64,
        name: u64,
    ) -> Result<(), TakeError>
        requires { IsKnown self.old (T.contents store.old) }
        ensures keeps { Extends (T.contents store.old) (T.contents store.new) }
        ensures rest { T.rest store.new ≡ T.rest store.old }
        ensures known { OnOk result (IsKnown self.new (T.contents store.new)) }
        ensures follows { (s : State) → Holds self.old (T.contents store.old) s
            → Follows self.new (T.contents store.new) result
            (with_level s own (parameter_level s name)) }
    {
        let made = self.parameter(store, name);
        self.by_level.put_new(own, made)
    }

    // A line of a variable.
    #[inline(always)]
    #[tactic(auto, using(crate::proofs::Putting::tree_known, crate::proofs::Putting::tree_follows))]
    fn variable_line<T: Terms>(
        &mut self,
        store: &mut T,
        own: u64,
        index: u64,
    ) -> Result<(), TakeError>
        requires { IsKnown self.old (T.contents store.old) }
        ensures keeps { Extends (T.contents store.old) (T.contents store.new) }
        ensures rest { T.rest store.new ≡ T.rest store.old }
        ensures known { OnOk result (IsKnown self.new (T.contents store.new)) }
        ensures follows { (s : State) → Holds self.old (T.contents store.old) s
            → Follows self.new (T.contents store.new) result (with_tree s own (Ok (var index))) }
    {
        let made = variable(store, index);
        self.by_tree.put_new(own, made)
    }

    // A line of a sort.
    #[inline(always)]
    #[tactic(auto, using(crate::proofs::Putting::tree_known, crate::proofs::Putting::tree_follows))]
    fn sort_line<T: Terms>(&mut self, store: &mut T, own: u64, level: u64) -> Result<(), TakeError>
        requires { IsKnown self.old (T.contents store.old) }
        ensures keeps { Extends (T.contents store.old) (T.contents store.new) }
        ensures rest { T.rest store.new ≡ T.rest store.old }
        ensures known { OnOk result (IsKnown self.new (T.contents store.new)) }
        ensures follows { (s : State) → Holds self.old (T.contents store.old) s
            → Follows self.new (T.contents store.new) result (with_tree s own (sort_tree s level)) }
    {
        let made = self.sort(store, level);
        self.by_tree.put_new(own, made)
    }

    // A line of a constant.
    #[inline(always)]
    #[tactic(auto, using(crate::proofs::Putting::tree_known, crate::proofs::Putting::tree_follows))]
    fn constant_line<T: Terms, N: FileNumber>(
        &mut self,
        alloc: Global,
        store: &mut T,
        own: u64,
        name: u64,
        levels: &[N],
    ) -> Result<(), TakeError>
        requires { IsKnown self.old (T.contents store.old) }
        ensures keeps { Extends (T.contents store.old) (T.contents store.new) }
        ensures rest { T.rest store.new ≡ T.rest store.old }
        ensures known { OnOk result (IsKnown self.new (T.contents store.new)) }
        ensures follows { (s : State) → Holds self.old (T.contents store.old) s
            → Follows self.new (T.contents store.new) result
            (with_tree s own (constant_tree s name (N.view.values levels.now))) }
    {
        let made = self.constant(alloc, store, name, levels);
        self.by_tree.put_new(own, made)
    }

    // A line of an application.
    #[inline(always)]
    #[tactic(auto, using(crate::proofs::Putting::tree_known, crate::proofs::Putting::tree_follows))]
    fn application_line<T: Terms>(
        &mut self,
        store: &mut T,
        own: u64,
        function: u64,
        argument: u64,
    ) -> Result<(), TakeError>
        requires { IsKnown self.old (T.contents store.old) }
        ensures keeps { Extends (T.contents store.old) (T.contents store.new) }
        ensures rest { T.rest store.new ≡ T.rest store.old }
        ensures known { OnOk result (IsKnown self.new (T.contents store.new)) }
        ensures follows { (s : State) → Holds self.old (T.contents store.old) s
            → Follows self.new (T.contents store.new) result
            (with_tree s own (application_tree s function argument)) }
    {
        let made = self.application(store, function, argument);
        self.by_tree.put_new(own, made)
    }

    // A line of a lambda or a Pi.
    #[tactic(auto, using(crate::proofs::Putting::tree_known, crate::proofs::Putting::tree_follows))]
    fn binder_line<T: Terms>(
        &mut self,
        store: &mut T,
        own: u64,
        binder: Binder,
        name: u64,
        domain: u64,
        body: u64,
    ) -> Result<(), TakeError>
        requires { IsKnown self.old (T.contents store.old) }
        ensures keeps { Extends (T.contents store.old) (T.contents store.new) }
        ensures rest { T.rest store.new ≡ T.rest store.old }
        ensures known { OnOk result (IsKnown self.new (T.contents store.new)) }
        ensures follows { (s : State) → Holds self.old (T.contents store.old) s
            → Follows self.new (T.contents store.new) result
            (with_tree s own (binder_tree s (binder_of binder) name domain body)) }
    {
        let made = self.binder(store, binder, name, domain, body);
        self.by_tree.put_new(own, made)
    }

    // A line of a let.
    #[tactic(auto, using(crate::proofs::Putting::tree_known, crate::proofs::Putting::tree_follows))]
    fn let_line<T: Terms>(
        &mut self,
        store: &mut T,
        own: u64,
        name: u64,
        domain: u64,
        value: u64,
        body: u64,
    ) -> Result<(), TakeError>
        requires { IsKnown self.old (T.contents store.old) }
        ensures keeps { Extends (T.contents store.old) (T.contents store.new) }
        ensures rest { T.rest store.new ≡ T.rest store.old }
        ensures known { OnOk result (IsKnown self.new (T.contents store.new)) }
        ensures follows { (s : State) → Holds self.old (T.contents store.old) s
            → Follows self.new (T.contents store.new) result
            (with_tree s own (let_tree s name domain value body)) }
    {
        let made = self.let_in(store, name, domain, value, body);
        self.by_tree.put_new(own, made)
    }

    // A line of a projection.
    #[tactic(auto, using(crate::proofs::Putting::tree_known, crate::proofs::Putting::tree_follows))]
    fn projection_line<T: Terms>(
        &mut self,
        store: &mut T,
        own: u64,
        structure: u64,
        field: u64,
        subject: u64,
    ) -> Result<(), TakeError>
        requires { IsKnown self.old (T.contents store.old) }
        ensures keeps { Extends (T.contents store.old) (T.contents store.new) }
        ensures rest { T.rest store.new ≡ T.rest store.old }
        ensures known { OnOk result (IsKnown self.new (T.contents store.new)) }
        ensures follows { (s : State) → Holds self.old (T.contents store.old) s
            → Follows self.new (T.contents store.new) result
            (with_tree s own (projection_tree s structure field subject)) }
    {
        let made = self.projection(store, structure, field, subject);
        self.by_tree.put_new(own, made)
    }

    // A line of a number literal.
    #[tactic(auto, using(crate::proofs::Putting::tree_known, crate::proofs::Putting::tree_follows))]
    fn nat_line<T: Terms>(&mut self, store: &mut T, own: u64, number: Nat) -> Result<(), TakeError>
        requires { IsKnown self.old (T.contents store.old) }
        ensures keeps { Extends (T.contents store.old) (T.contents store.new) }
        ensures rest { T.rest store.new ≡ T.rest store.old }
        ensures known { OnOk result (IsKnown self.new (T.contents store.new)) }
        ensures follows { (s : State) → Holds self.old (T.contents store.old) s
            → Follows self.new (T.contents store.new) result
            (with_tree s own (Ok (number_literal number))) }
    {
        let made = nat_literal(store, number);
        self.by_tree.put_new(own, made)
    }

    // A line of a text literal.
    #[tactic(auto, using(crate::proofs::Putting::tree_known, crate::proofs::Putting::tree_follows))]
    fn string_line<T: Terms>(
        &mut self,
        store: &mut T,
        own: u64,
        bytes: Vec<u8>,
    ) -> Result<(), TakeError>
        requires { IsKnown self.old (T.contents store.old) }
        ensures keeps { Extends (T.contents store.old) (T.contents store.new) }
        ensures rest { T.rest store.new ≡ T.rest store.old }
        ensures known { OnOk result (IsKnown self.new (T.contents store.new)) }
        ensures follows { (s : State) → Holds self.old (T.contents store.old) s
            → Follows self.new (T.contents store.new) result
            (with_tree s own (Ok (str bytes.items))) }
    {
        let made = text_literal(store, bytes);
        self.by_tree.put_new(own, made)
    }

    // Adds the rule that a line made.
    fn push_rule(&mut self, made: Result<RecursorRule, TakeError>) -> Result<u64, TakeError>
        ensures known { OnOk result ((c : Contents) → IsKnown self.old c → IfOk made (IsRuleIn c)
            → IsKnown self.new c) }
        ensures below { IfOk result (λ i. i < length self.new.rules.items) }
        ensures made { (c : Contents) (said : Result RecRule LineWord) → Makes (rule_at c) made said
            → Makes (rule_held c self.new.rules.items) result said }
        ensures holds { (c : Contents) (s : State) → IsKnown self.old c → Holds self.old c s
            → Holds self.new c s }
        ensures same { self.new.by_rule ≡ self.old.by_rule }
    {
        let rule = match made {
            Ok(rule) => rule,
            Err(error) => return Err(error),
        };
        let place = self.rules.len() as u64;
        match self.rules.push(rule) {
            Ok(()) => Ok(place),
            Err(_) => Err(TakeError::NoMemory),
        }
    }

    // A line of a rule.
    fn rule_line(
        &mut self,
        own: u64,
        constructor: u64,
        fields: u64,
        value: u64,
    ) -> Result<(), TakeError>
        ensures known { OnOk result ((c : Contents) → IsKnown self.old c → IsKnown self.new c) }
        ensures follows { (c : Contents) (s : State) → IsKnown self.old c → Holds self.old c s
            → Follows self.new c result (with_rule s own (rule_of s constructor fields value)) }
    {
        let made = self.rule(constructor, fields, value);
        let place = self.push_rule(made);
        self.by_rule.put_new(own, place)
    }

    /// What a line that defines the number `own` adds. It is not counted.
    #[inline(always)]
    #[tactic(auto, using(crate::proofs::Holding::unchanged), unfolding(crate::specs::State::entry_added))]
    pub fn add_entry<T: Terms, N: FileNumber>(
        &mut self,
        alloc: Global,
        store: &mut T,
        own: N,
        line: EntryLine<'_, N>,
    ) -> Result<(), TakeError>
        requires { IsKnown self.old (T.contents store.old) }
        ensures keeps { Extends (T.contents store.old) (T.contents store.new) }
        ensures rest { T.rest store.new ≡ T.rest store.old }
        ensures known { OnOk result (IsKnown self.new (T.contents store.new)) }
        ensures follows { (s : State) → Holds self.old (T.contents store.old) s
            → Follows self.new (T.contents store.new) result
            (entry_added s (N.view.value own) (entry_tag line.entry)
            (entry_values N.view line.entry)) }
    {
        let own = own.widened();
        match line {
            EntryLine::NameText { parent, text } => self.text_line(
                alloc,
                store,
                own,
                parent.widened(),
                text,
            ),
            EntryLine::NameNumber { parent, component } => {
                self.number_line(store, own, parent.widened(), component)
            }
            EntryLine::Successor { level } => self.successor_line(store, own, level.widened()),
            EntryLine::Max { left, right } => {
                self.pair_line(store, own, LevelPair::Max, left.widened(), right.widened())
            }
            EntryLine::Imax { left, right } => {
                self.pair_line(store, own, LevelPair::Imax, left.widened(), right.widened())
            }
            EntryLine::Parameter { name } => self.parameter_line(store, own, name.widened()),
            EntryLine::Variable { index } => self.variable_line(store, own, index.widened()),
            EntryLine::Sort { level } => self.sort_line(store, own, level.widened()),
            EntryLine::Constant { name, levels } => {
                self.constant_line(alloc, store, own, name.widened(), &levels)
            }
            EntryLine::Apply { function, argument } => {
                self.application_line(store, own, function.widened(), argument.widened())
            }
            EntryLine::Lambda {
                name,
                binder_type,
                body,
                ..
            } => self.binder_line(
                store,
                own,
                Binder::Lambda,
                name.widened(),
                binder_type.widened(),
                body.widened(),
            ),
            EntryLine::Pi {
                name,
                binder_type,
                body,
                ..
            } => self.binder_line(
                store,
                own,
                Binder::Pi,
                name.widened(),
                binder_type.widened(),
                body.widened(),
            ),
            EntryLine::Let {
                name,
                binder_type,
                value,
                body,
            } => self.let_line(
                store,
                own,
                name.widened(),
                binder_type.widened(),
                value.widened(),
                body.widened(),
            ),
            EntryLine::Project {
                structure,
                field,
                subject,
            } => self.projection_line(
                store,
                own,
                structure.widened(),
                field.widened(),
                subject.widened(),
            ),
            EntryLine::NatLiteral(number) => self.nat_line(store, own, *number),
            EntryLine::TextLiteral { text } => self.string_line(store, own, text),
            EntryLine::Rule {
                constructor,
                field_count,
                value,
            } => self.rule_line(
                own,
                constructor.widened(),
                field_count.widened(),
                value.widened(),
            ),
        }
    }

    // What a line that declares something adds.
    #[inline(always)]
    #[tactic(auto, unfolding(crate::specs::State::declaration_said))]
    fn said(&self, alloc: Global, declaration: &DeclarationLine) -> Result<StoredMember, TakeError>
        requires { Below self.now.by_rule (length self.now.rules.items) }
        ensures known { (c : Contents) → IsKnown self.now c → IfOk result (IsStoredMemberIn c) }
        ensures made { (c : Contents) (s : State) → Holds self.now c s
            → Makes (said_at c) result (declaration_said s (declaration_tag declaration.now)
            (declaration_values narrow declaration.now)) }
    {
        match declaration {
            DeclarationLine::Definition {
                name,
                declared_type,
                value,
                hint,
                parameters,
            } => {
                let value_use = ValueUse::Definition(held_hint(*hint));
                self.valued(
                    alloc,
                    value_use,
                    u64::from(*name),
                    u64::from(*declared_type),
                    u64::from(*value),
                    parameters,
                )
            }
            DeclarationLine::Theorem {
                name,
                declared_type,
                value,
                parameters,
            } => {
                let value_use = ValueUse::Theorem;
                self.valued(
                    alloc,
                    value_use,
                    u64::from(*name),
                    u64::from(*declared_type),
                    u64::from(*value),
                    parameters,
                )
            }
            DeclarationLine::Opaque {
                name,
                declared_type,
                value,
                parameters,
            } => {
                let value_use = ValueUse::Opaque;
                self.valued(
                    alloc,
                    value_use,
                    u64::from(*name),
                    u64::from(*declared_type),
                    u64::from(*value),
                    parameters,
                )
            }
            DeclarationLine::Axiom {
                name,
                declared_type,
                parameters,
            } => self.axiom(
                alloc,
                u64::from(*name),
                u64::from(*declared_type),
                parameters,
            ),
            DeclarationLine::Quotient {
                name,
                declared_type,
                parameters,
            } => self.quotient(
                alloc,
                u64::from(*name),
                u64::from(*declared_type),
                parameters,
            ),
            DeclarationLine::Inductive(line) => self.inductive(alloc, line),
            DeclarationLine::Constructor(line) => self.constructor(alloc, line),
            DeclarationLine::Recursor(line) => self.recursor(alloc, line),
        }
    }

    /// Puts a line that declares something behind those before it. It is not counted.
    #[inline(always)]
    pub fn place<T: Terms>(
        &mut self,
        alloc: Global,
        store: &T,
        number: u64,
        said: StoredMember,
    ) -> Result<(), TakeError>
        requires known { IsKnown self.old (T.contents store.now) }
        requires said_in { IsStoredMemberIn (T.contents store.now) said }
        ensures known { OnOk result (IsKnown self.new (T.contents store.now)) }
        ensures follows { (s : State) → Holds self.old (T.contents store.now) s
            → Follows self.new (T.contents store.now) result
            (with_line number s (said_at (T.contents store.now) said)) }
    {
        // The names of the store are apart, so that their numbers tell.
        let _names = store.count_names();
        match self.members.take(alloc, number, said) {
            Ok(()) => Ok(()),
            Err(error) => Err(member_error(error)),
        }
    }

    /// Takes a line that defines the number `own`. A number that is taken comes before one that stands for nothing, and that
    /// before too many items.
    #[inline(always)]
    #[tactic(auto, using(crate::proofs::Lines::fails_then, crate::proofs::Lines::counted_follows), unfolding(crate::specs::State::take_item))]
    pub fn take_entry<T: Terms>(
        &mut self,
        alloc: Global,
        store: &mut T,
        own: u32,
        line: EntryLine<'_>,
    ) -> Result<(), TakeError>
        requires { IsKnown self.old (T.contents store.old) }
        ensures keeps { Extends (T.contents store.old) (T.contents store.new) }
        ensures rest { T.rest store.new ≡ T.rest store.old }
        ensures known { OnOk result (IsKnown self.new (T.contents store.new)) }
        ensures follows { (number : ℕ) (s : State) → Holds self.old (T.contents store.old) s
            → Follows self.new (T.contents store.new) result
            (take_item number s (record {
              own = Some own;
              tag = tag.Entry
                  (entry_tag line.entry);
              values = entry_values narrow line.entry;
            })) }
    {
        match self.add_entry(alloc, store, own, line) {
            Ok(()) => self.counts(),
            Err(error) => Err(error),
        }
    }

    /// Takes line `number`, which declares something. A number that stands for nothing comes before too many items, that
    /// before lists of a block that are bad, and that before a member that has a line already.
    #[inline(always)]
    #[tactic(auto, using(crate::proofs::Lines::fails_then, crate::proofs::Lines::declared_follows), unfolding(crate::specs::State::take_item))]
    pub fn take_declaration<T: Terms>(
        &mut self,
        alloc: Global,
        store: &mut T,
        number: u64,
        declaration: DeclarationLine,
    ) -> Result<(), TakeError>
        requires { IsKnown self.old (T.contents store.old) }
        ensures keeps { Extends (T.contents store.old) (T.contents store.new) }
        ensures rest { T.rest store.new ≡ T.rest store.old }
        ensures known { OnOk result (IsKnown self.new (T.contents store.new)) }
        ensures follows { (s : State) → Holds self.old (T.contents store.old) s
            → Follows self.new (T.contents store.new) result
            (take_item number s (record {
              own = None;
              tag = tag.Declaration
                  (declaration_tag declaration);
              values = declaration_values narrow declaration;
            })) }
    {
        let said = match self.said(alloc, &declaration) {
            Ok(said) => said,
            Err(error) => return Err(error),
        };
        match self.counts() {
            Ok(()) => {}
            Err(error) => return Err(error),
        }
        self.place(alloc, store, number, said)
    }

    /// Takes a line that states how many steps the first unit that gives the name may take. It is
    /// not counted among the items.
    #[inline(never)]
    #[tactic(auto, using(crate::proofs::Holding::failing, crate::proofs::Lines::fails_then, crate::proofs::Putting::budget_pushed_known), unfolding(crate::specs::State::take_item))]
    pub fn take_budget<N: FileNumber>(&mut self, name: N, steps: u64) -> Result<(), TakeError>
        ensures known { OnOk result ((c : Contents) → IsKnown self.old c → IsKnown self.new c) }
        ensures follows { (c : Contents) (number : ℕ) (s : State) → Holds self.old c s
            → Follows self.new c result (take_item number s (record {
              own = None;
              tag = tag.Budget;
              values = budget_values (N.view.value name) steps;
            })) }
    {
        let name = self.by_name.known(name)?;
        match self.budgets.push(Budget { name, steps }) {
            Ok(()) => Ok(()),
            Err(_) => Err(TakeError::NoMemory),
        }
    }

    /// Ends a part: what the lines behind it declare stands apart from what was declared so far.
    /// What the file's numbers stand for is known further on.
    #[inline(never)]
    #[tactic(auto, unfolding(crate::specs::State::take_item))]
    pub fn part(&mut self, alloc: Global) -> Result<(), TakeError>
        ensures known { OnOk result ((c : Contents) → IsKnown self.old c → IsKnown self.new c) }
        ensures follows { (c : Contents) (number : ℕ) (s : State) → Holds self.old c s
            → Follows self.new c result (take_item number s (record {
              own = None;
              tag = tag.Go;
              values = [];
            })) }
    {
        let members = replace(&mut self.members, Members::new(alloc));
        match self.parts.push(members) {
            Ok(()) => Ok(()),
            Err(_) => Err(TakeError::NoMemory),
        }
    }
}
