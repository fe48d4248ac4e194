//! Whoever takes the lines of a file one after another.
ghost use Rattle.std.specs.Prelude.{◌≡◌, ◌+◌, ℕ, Bool, List, length, true, Some, Err, OnOk};
ghost use Rattle.lk_store.specs.Contents.{Contents, Extends};
ghost use Rattle.lk_token.specs.Lines.{HasNoLineFeed};
ghost use Rattle.lk_lines.specs.Limits.{limits};
ghost use Rattle.lk_lines.specs.declared.words.Word.{Word as LineWord};
ghost use Rattle.lk_book.specs.Course.{feed_count};
ghost use Rattle.lk_book.specs.Courses.{Step, IsCounted, Goes};

use lk_lines::LineError;
use lk_store::terms::Terms;
use std::alloc::Global;

/// Takes the lines of a file one after another. What they state comes into a store, but for what it
/// keeps itself.
pub trait LineReader<T: Terms> {
    /// What lines come to.
    ghost Course: { Type 0 };

    /// What a line makes of it.
    ghost step: { Step Course };

    /// The course that it stands for, by the numbers of a store.
    ghost stands: { Self → Contents → Course → Type 0 };

    /// The numbers that it has are numbers of the store.
    ghost is_known: { Self → Contents → Type 0 };

    /// How many lines it took.
    ghost number: { Self → ℕ };

    /// How many bytes they have, line feeds counted.
    ghost before: { Self → ℕ };

    /// How many lines it took.
    fn lines_taken(&self) -> u64
        ensures { result ≡ number self.now };

    /// How many bytes they have.
    fn bytes_taken(&self) -> u64
        ensures { result ≡ before self.now };

    /// Takes the next line; `feed` says that a line feed ends it.
    fn take(
        &mut self,
        alloc: Global,
        store: &mut T,
        feed: bool,
        line: &[u8],
    ) -> Result<(), LineError>
        requires known { is_known self.old (T.contents store.old) }
        requires counted { IsCounted (number self.old) (before self.old) }
        requires whole { HasNoLineFeed line.now }
        ensures keeps { Extends (T.contents store.old) (T.contents store.new) }
        ensures rest { T.rest store.new ≡ T.rest store.old }
        ensures known { OnOk result (is_known self.new (T.contents store.new)) }
        ensures counted { OnOk result (feed ≡ true
            → IsCounted (number self.new) (before self.new)) }
        ensures length { OnOk result (before self.new
            ≡ before self.old + length line.now + feed_count feed) }
        ensures step { (c : Course) → stands self.old (T.contents store.old) c
            → Goes (stands self.new (T.contents store.new)) result (step c feed line.now) };

    /// A line that is too long, or goes beyond the input's limit, has just that fault.
    ghost limited: { (r : Self) (store : Contents) (c : Course) (feed : Bool) (line : List ℕ)
        (w : LineWord) → stands r store c → limits (before r) (length line) feed ≡ Some w
        → step c feed line ≡ Err (record { line = number r + 1; word = w }) };
}
