//! What the lines of members of blocks state.
ghost use Rattle.std.specs.Prelude.{◌≡◌, ◌<◌, length, map, All, IfOk};
ghost use Rattle.lk_store.specs.Contents.{Contents, name_at};
ghost use Rattle.lk_env.specs.Units.{rule_at, IsRuleIn};
ghost use Rattle.lk_members.specs.Stored.{IsStoredMemberIn};
ghost use Rattle.lk_members.specs.Plain.{said_at};
ghost use Rattle.lk_units.specs.State.{State, all_known, type_said, ctor_said, recursor_said};
ghost use Rattle.lk_units.specs.Held.{Below, IsKnown, Holds, Makes, counts_of, rule_at_place};

use crate::{Assembler, TakeError};
use lk_env::unit::{Constructor, Recursor, RecursorRule};
use lk_lines::{ConstructorLine, FileNumber, RecursorLine, TypeLine};
use lk_members::line::{StoredMember, TypeHead};
use lk_store::memory::NoMemory;
use std::alloc::Global;

/// The value in a box.
fn boxed<T: Drop>(alloc: Global, value: T) -> Result<Box<T>, NoMemory>
    ensures { IfOk result (λ kept. kept.value ≡ value) }
{
    let kept = Box::new(alloc, value)?;
    Ok(kept)
}

/// The rules at these places.
fn rules_at(
    alloc: Global,
    rules: &[RecursorRule],
    places: &[u64],
) -> Result<Vec<RecursorRule>, NoMemory>
    requires { All (λ i. i < length rules.now) places.now }
    ensures { IfOk result (λ v. v.items ≡ map (rule_at_place rules.now) places.now) }
{
    let mut found = Vec::new(alloc);
    let mut rest = places;
    while let Some((place, more)) = rest.split_first() {
        found.push(rules[*place as usize])?;
        rest = more;
    }
    Ok(found)
}

impl Assembler {
    /// The names that these numbers stand for.
    pub(crate) fn names_of<N: FileNumber>(
        &self,
        alloc: Global,
        names: &[N],
    ) -> Result<Vec<u64>, TakeError>
        ensures known { (c : Contents) → IsKnown self.now c
            → IfOk result (λ v. All (λ n. n < length c.names) v.items) }
        ensures made { (c : Contents) (s : State) → Holds self.now c s
            → Makes (λ v. map (name_at c) v.items) result
            (all_known s.names (N.view.values names.now)) }
    {
        self.by_name.find_all(alloc, names)
    }

    /// The rules that these numbers stand for.
    fn rules_of<N: FileNumber>(
        &self,
        alloc: Global,
        rules: &[N],
    ) -> Result<Vec<RecursorRule>, TakeError>
        requires { Below self.now.by_rule (length self.now.rules.items) }
        ensures known { (c : Contents) → IsKnown self.now c
            → IfOk result (λ v. All (IsRuleIn c) v.items) }
        ensures made { (c : Contents) (s : State) → Holds self.now c s
            → Makes (λ v. map (rule_at c) v.items) result
            (all_known s.rules (N.view.values rules.now)) }
    {
        let places = match self.by_rule.find_all(alloc, rules) {
            Ok(places) => places,
            Err(error) => return Err(error),
        };
        match rules_at(alloc, &self.rules, &places) {
            Ok(found) => Ok(found),
            Err(_) => Err(TakeError::NoMemory),
        }
    }

    /// What the line of a type states, with the types of its block and its own constructors.
    #[tactic(auto, using(crate::proofs::Lines::looked_up))]
    pub fn inductive<N: FileNumber>(
        &self,
        alloc: Global,
        line: &TypeLine<N>,
    ) -> Result<StoredMember, TakeError>
        ensures known { (c : Contents) → IsKnown self.now c → IfOk result (IsStoredMemberIn c) }
        ensures made { (c : Contents) (s : State) → Holds self.now c s
            → Makes (said_at c) result (type_said s (N.view.value line.now.name)
            (N.view.value line.now.declared_type) (N.view.value line.now.parameter_count)
            (N.view.value line.now.index_count) (N.view.values line.now.types.items)
            (N.view.values line.now.constructors.items)
            (N.view.values line.now.parameters.items)) }
    {
        let name = self.by_name.known(line.name)?;
        let ty = self.by_tree.known(line.declared_type)?;
        let types = self.names_of(alloc, &line.types)?;
        let constructors = self.names_of(alloc, &line.constructors)?;
        let levels = self.names_of(alloc, &line.parameters)?;
        let head = TypeHead {
            name,
            levels,
            ty,
            parameters: line.parameter_count.widened(),
            indices: line.index_count.widened(),
            constructors,
        };
        let head = boxed(alloc, head)?;
        Ok(StoredMember::Type { head, types })
    }

    /// What the line of a constructor states.
    #[tactic(auto, using(crate::proofs::Lines::looked_up))]
    pub fn constructor<N: FileNumber>(
        &self,
        alloc: Global,
        line: &ConstructorLine<N>,
    ) -> Result<StoredMember, TakeError>
        ensures known { (c : Contents) → IsKnown self.now c → IfOk result (IsStoredMemberIn c) }
        ensures made { (c : Contents) (s : State) → Holds self.now c s
            → Makes (said_at c) result (ctor_said s (N.view.value line.now.name)
            (N.view.value line.now.declared_type) (N.view.value line.now.parent)
            (N.view.value line.now.place) (N.view.value line.now.parameter_count)
            (N.view.value line.now.field_count) (N.view.values line.now.parameters.items)) }
    {
        let name = self.by_name.known(line.name)?;
        let ty = self.by_tree.known(line.declared_type)?;
        let parent = self.by_name.known(line.parent)?;
        let levels = self.names_of(alloc, &line.parameters)?;
        let constructor = Constructor {
            name,
            levels,
            ty,
            parent,
            place: line.place.widened(),
            parameters: line.parameter_count.widened(),
            fields: line.field_count.widened(),
        };
        let constructor = boxed(alloc, constructor)?;
        Ok(StoredMember::Constructor(constructor))
    }

    /// What the line of a recursor states, with the types of its block.
    #[tactic(auto, using(crate::proofs::Lines::looked_up))]
    pub fn recursor<N: FileNumber>(
        &self,
        alloc: Global,
        line: &RecursorLine<N>,
    ) -> Result<StoredMember, TakeError>
        requires { Below self.now.by_rule (length self.now.rules.items) }
        ensures known { (c : Contents) → IsKnown self.now c → IfOk result (IsStoredMemberIn c) }
        ensures made { (c : Contents) (s : State) → Holds self.now c s
            → Makes (said_at c) result (recursor_said s (N.view.value line.now.name)
            (N.view.value line.now.declared_type) (N.view.values line.now.types.items)
            (counts_of N.view line.now) (N.view.values line.now.rules.items)
            (N.view.values line.now.parameters.items)) }
    {
        let name = self.by_name.known(line.name)?;
        let ty = self.by_tree.known(line.declared_type)?;
        let types = self.names_of(alloc, &line.types)?;
        let rules = self.rules_of(alloc, &line.rules)?;
        let levels = self.names_of(alloc, &line.parameters)?;
        let recursor = Recursor {
            name,
            levels,
            ty,
            parameters: line.parameter_count.widened(),
            indices: line.index_count.widened(),
            motives: line.motive_count.widened(),
            minors: line.minor_count.widened(),
            k: line.k,
            rules,
        };
        let recursor = boxed(alloc, recursor)?;
        Ok(StoredMember::Recursor { types, recursor })
    }
}
