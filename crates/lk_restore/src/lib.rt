//! Terms of a larger block read back: what stands for occurrences of other types is replaced by them, and recursors have
//! the names that they have in the file.
#![tactic(auto)]

ghost use Rattle.lk_restore.specs.Originals.{ReadsAs, StayAsTheyAre};

pub mod originals;
pub mod restoring;
pub mod standing;

pub use originals::Original;
pub use restoring::restore;
pub use standing::stand;

/// What the numbers of a store stand for is read back as the definitions say, whatever names the setting has.
pub fn store_reads_as_defined()
    ensures { ReadsAs }
{}

/// Where nothing stands for anything, recursors are as they are.
pub fn nothing_is_read_back()
    ensures { StayAsTheyAre }
{}
