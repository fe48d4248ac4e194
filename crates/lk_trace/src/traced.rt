//! What a file with derivations holds, by the numbers of a store.

use crate::sections::Section;
use lk_env::library::Library;

/// A section as it stands in the file: the numbers of the file's lines that hold its lines, and the
/// number of the line that ends it.
#[derive(Drop)]
pub struct FileSection {
    pub section: Section,
    pub numbers: Vec<u64>,
    pub end: u64,
}

/// The library that stands before `#TR`, and the sections behind it, in their order. Their trees are
/// numbers of the library's store.
#[derive(Drop)]
pub struct Traced {
    pub library: Library,
    pub sections: Vec<FileSection>,
}
