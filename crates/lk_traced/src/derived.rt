//! Lines of derivations, by the numbers of a store.
ghost use Rattle.std.specs.Prelude.{◌≡◌, ◌<◌, ℕ, length, IfOk};
ghost use Rattle.std.specs.declared.option.Option.{Option};
ghost use Rattle.lk_store.specs.Contents.{Contents, tree_at};
ghost use Rattle.lk_trace.specs.declared.sections.Line.{Line as TraceLine};
ghost use Rattle.lk_trace.specs.Meaning.{typing_rule_of, reduction_rule_of, conversion_rule_of, line_by, line_of, IsTypingRuleIn, IsConversionRuleIn, IsRuleIn, IsLineIn};
ghost use Rattle.lk_lines.specs.Views.{derivation_values};
ghost use Rattle.lk_units.specs.Numbering.{entry};
ghost use Rattle.lk_units.specs.State.{State, all_known};
ghost use Rattle.lk_units.specs.Held.{Numbered, Below, Makes};
ghost use Rattle.lk_traced.specs.Derived.{typing_rule, reduction_rule, equality_rule, plain_line, local_line, plain_said, local_said, beside_said, line_said};

use lk_lines::{
    Beside, ConversionTag, DerivationLine, FileNumber, ReductionTag, RuleTag, TypingTag, Word,
};
use lk_trace::{ConversionRule, Line, ReductionRule, Rule, TypingRule};
use lk_units::{Numbering, TakeError};
use std::alloc::Global;

/// The places of several numbers, among the lines of a section.
pub(crate) fn find_places<N: FileNumber>(
    alloc: Global,
    places: &Numbering,
    numbers: &[N],
) -> Result<Vec<u32>, TakeError>
    ensures { Makes (λ v. v.items) result
        (all_known (entry places.now) (N.view.values numbers.now)) }
{
    let mut found = Vec::new(alloc);
    let mut rest = numbers;
    while let Some((number, more)) = rest.split_first() {
        let Some(place) = places.find_place((*number).widened()) else {
            return Err(TakeError::Fault(Word::IndexUnknown));
        };
        match found.push(place) {
            Ok(()) => {}
            Err(_) => return Err(TakeError::NoMemory),
        }
        rest = more;
    }
    Ok(found)
}

/// A rule of typing that has nothing beside its two trees.
fn typing_rule(tag: TypingTag) -> Result<TypingRule, TakeError>
    ensures made { (c : Contents) → Makes (typing_rule_of c) result (typing_rule tag) }
    ensures known { (c : Contents) → IfOk result (IsTypingRuleIn c) }
{
    match tag {
        TypingTag::Sort => Ok(TypingRule::Sort),
        TypingTag::Local => Ok(TypingRule::Local),
        TypingTag::Constant => Ok(TypingRule::Constant),
        TypingTag::Apply => Ok(TypingRule::Apply),
        TypingTag::Let => Ok(TypingRule::Let),
        TypingTag::NatLiteral => Ok(TypingRule::NatLiteral),
        TypingTag::TextLiteral => Ok(TypingRule::TextLiteral),
        TypingTag::Project => Ok(TypingRule::Project),
        TypingTag::Lambda => Err(TakeError::Fault(Word::UnknownTag)),
        TypingTag::Pi => Err(TakeError::Fault(Word::UnknownTag)),
    }
}

/// A rule of reduction that has nothing beside its two trees.
fn reduction_rule(tag: ReductionTag) -> Result<ReductionRule, TakeError>
    ensures { Makes reduction_rule_of result (reduction_rule tag) }
{
    match tag {
        ReductionTag::Chain => Ok(ReductionRule::Chain),
        ReductionTag::Head => Ok(ReductionRule::Head),
        ReductionTag::Beta => Ok(ReductionRule::Beta),
        ReductionTag::Zeta => Ok(ReductionRule::Zeta),
        ReductionTag::Delta => Ok(ReductionRule::Delta),
        ReductionTag::Project => Ok(ReductionRule::Project),
        ReductionTag::Major => Ok(ReductionRule::Major),
        ReductionTag::K => Ok(ReductionRule::K),
        ReductionTag::Structure => Ok(ReductionRule::Structure),
        ReductionTag::Lift => Ok(ReductionRule::Lift),
        ReductionTag::Induction => Ok(ReductionRule::Induction),
        ReductionTag::Operation => Ok(ReductionRule::Operation),
        ReductionTag::Iota => Err(TakeError::Fault(Word::UnknownTag)),
    }
}

/// A rule of conversion that has nothing beside its two trees.
fn conversion_rule(tag: ConversionTag) -> Result<ConversionRule, TakeError>
    ensures made { (c : Contents) → Makes (conversion_rule_of c) result (equality_rule tag) }
    ensures known { (c : Contents) → IfOk result (IsConversionRuleIn c) }
{
    match tag {
        ConversionTag::Reduce => Ok(ConversionRule::Reduce),
        ConversionTag::Sorts => Ok(ConversionRule::Sorts),
        ConversionTag::Constants => Ok(ConversionRule::Constants),
        ConversionTag::Apply => Ok(ConversionRule::Apply),
        ConversionTag::Project => Ok(ConversionRule::Project),
        ConversionTag::Eta => Ok(ConversionRule::Eta),
        ConversionTag::StructureLeft => Ok(ConversionRule::StructureLeft),
        ConversionTag::StructureRight => Ok(ConversionRule::StructureRight),
        ConversionTag::UnitLike => Ok(ConversionRule::UnitLike),
        ConversionTag::Proof => Ok(ConversionRule::Proof),
        ConversionTag::Zero => Ok(ConversionRule::Zero),
        ConversionTag::Successor => Ok(ConversionRule::Successor),
        ConversionTag::TextLeft => Ok(ConversionRule::TextLeft),
        ConversionTag::TextRight => Ok(ConversionRule::TextRight),
        ConversionTag::Lambda => Err(TakeError::Fault(Word::UnknownTag)),
        ConversionTag::Pi => Err(TakeError::Fault(Word::UnknownTag)),
    }
}

/// A rule that has nothing beside its two trees.
#[tactic(auto, using(lk_units::proofs::Lines::fails_then))]
fn plain_rule(tag: RuleTag) -> Result<Rule, TakeError>
    ensures made { (c : Contents) (l : TraceLine) → Makes (λ r. line_by c r l) result
        (plain_line tag (tree_at c l.left) (tree_at c l.right) l.premises.items) }
    ensures known { (c : Contents) → IfOk result (IsRuleIn c) }
{
    match tag {
        RuleTag::Typing(tag) => match typing_rule(tag) {
            Ok(rule) => Ok(Rule::Typing(rule)),
            Err(error) => Err(error),
        },
        RuleTag::Reduction(tag) => match reduction_rule(tag) {
            Ok(rule) => Ok(Rule::Reduction(rule)),
            Err(error) => Err(error),
        },
        RuleTag::Conversion(tag) => match conversion_rule(tag) {
            Ok(rule) => Ok(Rule::Conversion(rule)),
            Err(error) => Err(error),
        },
    }
}

/// A rule of typing that has a Local beside its two trees.
fn local_typing(tag: TypingTag, local: u64) -> Result<Rule, TakeError>
    ensures made { (c : Contents) (l : TraceLine) → Makes (λ r. line_by c r l) result
        (local_line (RuleTag.Typing tag) (tree_at c l.left) (tree_at c l.right) (tree_at c local)
        l.premises.items) }
    ensures known { (c : Contents) → local < length c.trees → IfOk result (IsRuleIn c) }
{
    match tag {
        TypingTag::Lambda => Ok(Rule::Typing(TypingRule::Lambda { local })),
        TypingTag::Pi => Ok(Rule::Typing(TypingRule::Pi { local })),
        _ => Err(TakeError::Fault(Word::UnknownTag)),
    }
}

/// A rule of conversion that has a Local beside its two trees.
fn local_conversion(tag: ConversionTag, local: u64) -> Result<Rule, TakeError>
    ensures made { (c : Contents) (l : TraceLine) → Makes (λ r. line_by c r l) result
        (local_line (RuleTag.Conversion tag) (tree_at c l.left) (tree_at c l.right)
        (tree_at c local) l.premises.items) }
    ensures known { (c : Contents) → local < length c.trees → IfOk result (IsRuleIn c) }
{
    match tag {
        ConversionTag::Lambda => Ok(Rule::Conversion(ConversionRule::Lambda { local })),
        ConversionTag::Pi => Ok(Rule::Conversion(ConversionRule::Pi { local })),
        _ => Err(TakeError::Fault(Word::UnknownTag)),
    }
}

/// A rule that has a Local beside its two trees, a number of the store.
fn local_rule(tag: RuleTag, local: u64) -> Result<Rule, TakeError>
    ensures made { (c : Contents) (l : TraceLine) → Makes (λ r. line_by c r l) result
        (local_line tag (tree_at c l.left) (tree_at c l.right) (tree_at c local)
        l.premises.items) }
    ensures known { (c : Contents) → local < length c.trees → IfOk result (IsRuleIn c) }
{
    match tag {
        RuleTag::Typing(tag) => local_typing(tag, local),
        RuleTag::Reduction(_) => Err(TakeError::Fault(Word::UnknownTag)),
        RuleTag::Conversion(tag) => local_conversion(tag, local),
    }
}

/// A line of a rule that has nothing beside its two trees.
fn plain_derived<N: FileNumber>(
    alloc: Global,
    places: &Numbering,
    tag: RuleTag,
    left: u64,
    right: u64,
    premises: &[N],
) -> Result<Line, TakeError>
    ensures made { (c : Contents) (s : State) (mean : ℕ → Option ℕ)
        → ((q : ℕ) → entry places.now q ≡ mean q) → Makes (line_of c) result
        (plain_said s mean tag (tree_at c left) (tree_at c right) (N.view.values premises.now)) }
    ensures known { (c : Contents) → left < length c.trees → right < length c.trees
        → IfOk result (IsLineIn c) }
{
    let premises = match find_places(alloc, places, premises) {
        Ok(premises) => premises,
        Err(error) => return Err(error),
    };
    match plain_rule(tag) {
        Ok(rule) => Ok(Line {
            rule,
            left,
            right,
            premises,
        }),
        Err(error) => Err(error),
    }
}

/// A line of R-Iota, with the place of the recursor's rule.
fn iota_derived<N: FileNumber>(
    alloc: Global,
    places: &Numbering,
    place: u64,
    left: u64,
    right: u64,
    premises: &[N],
) -> Result<Line, TakeError>
    ensures made { (c : Contents) (s : State) (mean : ℕ → Option ℕ)
        → ((q : ℕ) → entry places.now q ≡ mean q) → Makes (line_of c) result
        (beside_said s mean (RuleTag.Reduction ReductionTag.Iota) (tree_at c left)
        (tree_at c right) place (N.view.values premises.now)) }
    ensures known { (c : Contents) → left < length c.trees → right < length c.trees
        → IfOk result (IsLineIn c) }
{
    match find_places(alloc, places, premises) {
        Ok(premises) => Ok(Line {
            rule: Rule::Reduction(ReductionRule::Iota { place }),
            left,
            right,
            premises,
        }),
        Err(error) => Err(error),
    }
}

/// A line of a rule that has a Local beside its two trees, by its number in the file.
#[tactic(auto, using(lk_units::proofs::Holding::is_below))]
fn local_derived<N: FileNumber>(
    alloc: Global,
    trees: &Numbering,
    places: &Numbering,
    tag: RuleTag,
    left: u64,
    right: u64,
    local: N,
    premises: &[N],
) -> Result<Line, TakeError>
    ensures made { (c : Contents) (s : State) (mean : ℕ → Option ℕ)
        → Numbered trees.now (tree_at c) s.trees → ((q : ℕ) → entry places.now q ≡ mean q)
        → Makes (line_of c) result (local_said s mean tag (tree_at c left) (tree_at c right)
        (N.view.value local) (N.view.values premises.now)) }
    ensures known { (c : Contents) → Below trees.now (length c.trees) → left < length c.trees
        → right < length c.trees → IfOk result (IsLineIn c) }
{
    let tree = match trees.known(local) {
        Ok(tree) => tree,
        Err(error) => return Err(error),
    };
    let premises = match find_places(alloc, places, premises) {
        Ok(premises) => premises,
        Err(error) => return Err(error),
    };
    match local_rule(tag, tree) {
        Ok(rule) => Ok(Line {
            rule,
            left,
            right,
            premises,
        }),
        Err(error) => Err(error),
    }
}

/// A line of a rule that has something beside its two trees.
fn beside_derived<N: FileNumber>(
    alloc: Global,
    trees: &Numbering,
    places: &Numbering,
    tag: RuleTag,
    left: u64,
    right: u64,
    beside: N,
    premises: &[N],
) -> Result<Line, TakeError>
    ensures made { (c : Contents) (s : State) (mean : ℕ → Option ℕ)
        → Numbered trees.now (tree_at c) s.trees → ((q : ℕ) → entry places.now q ≡ mean q)
        → Makes (line_of c) result (beside_said s mean tag (tree_at c left) (tree_at c right)
        (N.view.value beside) (N.view.values premises.now)) }
    ensures known { (c : Contents) → Below trees.now (length c.trees) → left < length c.trees
        → right < length c.trees → IfOk result (IsLineIn c) }
{
    match tag.beside() {
        Beside::Place => iota_derived(alloc, places, beside.widened(), left, right, premises),
        Beside::Local => { local_derived(alloc, trees, places, tag, left, right, beside, premises) }
        Beside::Nothing => {
            local_derived(alloc, trees, places, tag, left, right, beside, premises)
        }
    }
}

/// What a line of a derivation states: trees by their numbers in the store, and premises by their places among the lines of
/// the section.
#[tactic(auto, using(lk_units::proofs::Lines::looked_up))]
pub(crate) fn derived_line<N: FileNumber>(
    alloc: Global,
    trees: &Numbering,
    places: &Numbering,
    line: &DerivationLine<N>,
) -> Result<Line, TakeError>
    ensures made { (c : Contents) (s : State) (mean : ℕ → Option ℕ)
        → Numbered trees.now (tree_at c) s.trees → ((q : ℕ) → entry places.now q ≡ mean q)
        → Makes (line_of c) result (line_said s mean (derivation_values N.view line.now)) }
    ensures known { (c : Contents) → Below trees.now (length c.trees)
        → IfOk result (IsLineIn c) }
{
    let left = match trees.known(line.left) {
        Ok(left) => left,
        Err(error) => return Err(error),
    };
    let right = match trees.known(line.right) {
        Ok(right) => right,
        Err(error) => return Err(error),
    };
    match line.beside {
        None => plain_derived(alloc, places, line.rule, left, right, &line.premises),
        Some(beside) => {
            let premises = &line.premises;
            beside_derived(
                alloc, trees, places, line.rule, left, right, beside, premises,
            )
        }
    }
}
