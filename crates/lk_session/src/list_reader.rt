//! The first texts of a list, read into a library.

ghost use Rattle.std.specs.Prelude.{◌≡◌, ◌⊎◌, ◌+◌, ◌++◌, ◌<◌, ◌≤◌, ◌^◌, [], List, length, drop, map, OnOk, OnErr};
ghost use Rattle.lk_env.specs.Units.{library_of};
ghost use Rattle.lk_session.specs.declared.view.Submission.{Submission};
ghost use Rattle.lk_session.specs.Texts.{Says, units_in, texts_of, bytes_of, IsFaultless, AreFaultless};
ghost use Rattle.lk_session.specs.Reading.{HasRead};

use crate::error::TextError;
use crate::texts::{Reads, Text};
use lk_env::library::Library;
use lk_store::memory::NoMemory;
use std::alloc::Global;

/// The library of the first texts of a list, and how many these are.
#[derive(Drop)]
pub(crate) struct ListReader {
    pub(crate) library: Library,
    pub(crate) count: usize,
}

impl ListReader {
    /// It has read no text. It takes no memory.
    pub(crate) fn new(alloc: Global) -> ListReader
        ensures read { (stated : Says) (list : List Submission) → HasRead stated list result }
        ensures none { result.count ≡ 0 }
    {
        ListReader {
            library: Library::empty(alloc),
            count: 0,
        }
    }

    /// The next text is read.
    fn add<T: Reads>(&mut self, alloc: Global, text: &[u8]) -> Result<(), NoMemory>
        requires text { IsFaultless T.stated text.now }
        requires budgets { self.old.library.budgets ≡ [] }
        requires few { self.old.count + 1 < 2 ^ 64 }
        ensures units { OnOk result (library_of self.new.library
            ≡ library_of self.old.library ++ units_in T.stated text.now) }
        ensures count { OnOk result (self.new.count ≡ self.old.count + 1) }
        ensures budgets { self.new.library.budgets ≡ [] }
        ensures same { OnErr result (library_of self.new.library ≡ library_of self.old.library) }
        ensures err { OnErr result (self.new.count ≡ self.old.count) }
    {
        match T::add_text(alloc, &mut self.library, text) {
            Ok(()) => {
                self.count += 1;
                Ok(())
            }
            Err(TextError::NoMemory) => Err(NoMemory),
            // No text of the list has a fault.
            Err(TextError::Fault(_)) => unreachable!(),
        }
    }

    /// Reads the texts that stand behind those that were read. Where memory is wanting, some of
    /// them are read.
    pub(crate) fn catch_up<T: Reads>(
        &mut self,
        alloc: Global,
        texts: &[Text],
    ) -> Result<(), NoMemory>
        requires faultless { AreFaultless T.stated (map bytes_of texts.now) }
        requires budgets { self.old.library.budgets ≡ [] }
        requires few { self.old.count + length texts.now < 2 ^ 64 }
        ensures count { OnOk result (self.new.count ≡ self.old.count + length texts.now) }
        ensures read { (list : List Submission) → HasRead T.stated list self.old
            → map bytes_of texts.now ≡ drop self.old.count (texts_of list)
            → HasRead T.stated list self.new }
    {
        for k in 0..texts.len() {
            self.add::<T>(alloc, texts[k].as_slice())?;
        }
        Ok(())
    }

    /// The one of both that has read more.
    pub(crate) fn keep_longer(&mut self, other: ListReader)
        ensures one { (self.new ≡ self.old) ⊎ (self.new ≡ other) }
        ensures most { (self.old.count ≤ self.new.count) × (other.count ≤ self.new.count) }
    {
        if self.count < other.count {
            *self = other;
        }
    }
}
