//! Where workers share answers: a desk, and marks of what was left there.

ghost use Rattle.std.specs.Prelude.{◌≡◌, IfOk};
ghost use Rattle.lk_desk.specs.Job.{job_of};
ghost use Rattle.lk_desk.specs.Seats.{job, IsNew};

use lk_desk::entry::{Entry, SpelledAnswer};
use lk_desk::{Desk, Seat};
use lk_env::library::Library;
use lk_memo::key::Key;
use lk_memo::recent::slot_of;
use lk_spell::OwnNode;
use lk_store::memory::NoMemory;
use std::alloc::Global;
use std::sync::atomic::{AtomicU64, Ordering};

/// So many marks there are, a power of two. A question has one of them, which others may have too.
const MARKS: usize = 1 << 16;

/// So many marks stand in a word.
const BITS: usize = 64;

/// The most nodes of an answer that is left, and of all of them together, each a few dozen bytes.
const MOST_OF_ONE: u64 = 512;

const MOST_OF_ALL: u64 = 1 << 20;

/// So many bytes of a text count as one node more.
const BYTES: usize = 32;

/// A desk of a library for answers alone. Marks tell which questions may have an answer there, so
/// that no shard is taken for one that has none. Nothing rests on what a mark says.
#[derive(Drop)]
pub struct AnswerDesk {
    pub desk: Desk,
    marks: Vec<AtomicU64>,
    /// How many nodes all answers have that were left.
    nodes: AtomicU64,
}

fn no_marks(alloc: Global) -> Result<Vec<AtomicU64>, NoMemory> {
    let mut marks = Vec::new(alloc);
    for _ in 0..MARKS / BITS {
        marks.push(AtomicU64::new(0))?;
    }
    Ok(marks)
}

/// The word of a question's mark, and its bit there.
fn mark_of(key: Key) -> (usize, u64) {
    let slot = slot_of(key, MARKS);
    (slot / BITS, 1 << (slot % BITS) as u32)
}

/// What a node counts.
fn weight_of(node: &OwnNode) -> u64 {
    match node {
        OwnNode::Text(text) => 1 + (text.as_bytes().len() / BYTES) as u64,
        _ => 1,
    }
}

/// How many nodes an answer has that the library lacks, and one for itself.
fn nodes_of(entry: &Entry) -> u64 {
    let mut count = 1u64;
    if let SpelledAnswer::Term(spelled) = &entry.answer {
        for node in &spelled.own {
            count = count.saturating_add(weight_of(node));
        }
    }
    count
}

/// How many nodes an answer has, where they are not too many.
pub(crate) fn fitting_nodes(entry: &Entry) -> Option<u64> {
    let nodes = nodes_of(entry);
    if nodes <= MOST_OF_ONE {
        Some(nodes)
    } else {
        None
    }
}

impl AnswerDesk {
    /// A desk of a library with no answer, and its first seat.
    pub fn new(alloc: Global, library: &Library) -> Result<(AnswerDesk, Seat), NoMemory>
        ensures job { IfOk result (λ d. job d.0.desk ≡ job_of library.now) }
        ensures seat { IfOk result (λ d. IsNew d.1 d.0.desk) }
    {
        let marks = no_marks(alloc)?;
        let (desk, seat) = Desk::new(alloc, library)?;
        let nodes = AtomicU64::new(0);
        Ok((AnswerDesk { desk, marks, nodes }, seat))
    }

    /// Whether any answer may have been left.
    #[inline(always)]
    pub(crate) fn has_any(&self) -> bool {
        self.nodes.load(Ordering::SeqCst) != 0
    }

    /// Whether an answer to the question may have been left.
    pub(crate) fn may_have(&self, key: Key) -> bool {
        let (word, bit) = mark_of(key);
        match self.marks.get(word) {
            Some(marks) => marks.load(Ordering::SeqCst) & bit != 0,
            None => false,
        }
    }

    /// Whether there is room for one more answer.
    pub(crate) fn has_room(&self) -> bool {
        self.nodes.load(Ordering::SeqCst) < MOST_OF_ALL
    }

    /// Notes that a question has an answer, of so many nodes.
    pub(crate) fn note(&self, key: Key, nodes: u64) {
        let (word, bit) = mark_of(key);
        if let Some(marks) = self.marks.get(word) {
            let _before = marks.fetch_or(bit, Ordering::SeqCst);
        }
        let _before = self.nodes.fetch_add(nodes, Ordering::SeqCst);
    }
}
