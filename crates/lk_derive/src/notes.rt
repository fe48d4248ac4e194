//! What is written so far of a section.

ghost use Rattle.std.specs.Prelude.{◌≡◌, ◌++◌, ◌∷◌, [], Some, OnOk, if◌then◌else◌};
ghost use Rattle.std.specs.HashMap as hash_map;
ghost use Rattle.lk_rulebook.specs.Place.{Place};
ghost use Rattle.lk_store.specs.Contents.{Contents};
ghost use Rattle.lk_derive.specs.declared.key.ClaimKey.{ClaimKey};
ghost use Rattle.lk_derive.specs.Keys.{same_key};
ghost use Rattle.lk_derive.specs.Notes.{relation_of, claim_with, claim_of, place_in, AddsLine, IsNotes};

use crate::key::{ClaimKey, claim_key};
use lk_premises::{Claim, Relation};
use lk_store::memory::NoMemory;
use lk_trace::{Line, Rule};
use std::alloc::Global;
use std::collections::HashMap;

/// What is written so far of a section: its lines, and for each claim that a line states the place of that line, from 0.
#[derive(Drop)]
pub struct Notes {
    pub lines: Vec<Line>,
    pub stated: HashMap<ClaimKey, u32>,
}

/// How lines of a rule relate their two trees.
fn relation_of(rule: Rule) -> Relation
    ensures { result ≡ relation_of rule }
{
    match rule {
        Rule::Typing(_) => Relation::Typing,
        Rule::Reduction(_) => Relation::Reduction,
        Rule::Conversion(_) => Relation::Equality,
    }
}

/// What a line of this rule states of two trees.
pub(crate) fn claim_with(rule: Rule, left: u64, right: u64) -> Claim
    ensures { result ≡ claim_with rule left right }
{
    Claim {
        relation: relation_of(rule),
        left,
        right,
    }
}

/// Gives a claim its place.
fn put_place(stated: &mut HashMap<ClaimKey, u32>, key: ClaimKey, place: u32) -> Result<(), NoMemory>
    ensures { OnOk result ((q : ClaimKey) → hash_map.get same_key stated.new q
        ≡ (if same_key key q then Some place else hash_map.get same_key stated.old q)) }
{
    stated.insert(key, place)?;
    Ok(())
}

/// Puts a line behind the others.
fn push_line(lines: &mut Vec<Line>, line: Line) -> Result<(), NoMemory>
    ensures { OnOk result (lines.new.items ≡ lines.old.items ++ line ∷ []) }
{
    lines.push(line)?;
    Ok(())
}

impl Notes {
    /// Nothing is written. It takes no memory.
    pub fn new(alloc: Global) -> Self
        ensures notes { (w : Place) (c : Contents) → IsNotes w c result }
        ensures lines { result.lines.items ≡ [] }
    {
        Notes {
            lines: Vec::new(alloc),
            stated: HashMap::new(alloc),
        }
    }

    /// The place of the line that states a claim of these numbers.
    pub fn place_of(&self, claim: Claim) -> Option<u32>
        ensures { result ≡ place_in self.now claim }
    {
        let key = claim_key(claim);
        match self.stated.get(&key) {
            Some(place) => Some(*place),
            None => None,
        }
    }

    /// Adds a line behind the others. More than 2^32 - 1 lines are want of memory. Behind an error nothing is said of the
    /// notes.
    pub(crate) fn add(&mut self, line: Line) -> Result<(), NoMemory>
        ensures { OnOk result (AddsLine self.old self.new line) }
    {
        if self.lines.len() >= u32::MAX as usize {
            return Err(NoMemory);
        }
        let place = self.lines.len() as u32;
        let claim = claim_with(line.rule, line.left, line.right);
        put_place(&mut self.stated, claim_key(claim), place)?;
        push_line(&mut self.lines, line)?;
        Ok(())
    }
}
