//! The line `#TR`: the library before it has no open block.
ghost use Rattle.std.specs.Prelude.{◌≡◌, map, IfOk, IfErr, Ok};
ghost use Rattle.lk_rulebook.specs.Units.{Library};
ghost use Rattle.lk_members.specs.Stored.{lines_of, AreLinesIn};
ghost use Rattle.lk_members.specs.Finishing.{IsFaultless};
ghost use Rattle.lk_members.specs.Indices.{IsIndexed};
ghost use Rattle.lk_members.specs.Plain.{lines_at};
ghost use Rattle.lk_units.specs.Held.{IsKnown};
ghost use Rattle.lk_book.specs.Course.{Course};
ghost use Rattle.lk_book.specs.Courses.{Fails};
ghost use Rattle.lk_book.specs.File.{units_stated};
ghost use Rattle.lk_book.specs.Passing.{Stands};
ghost use Rattle.lk_traced.specs.Begun.{is_declaration};
ghost use Rattle.lk_traced.specs.Course.{trace_begun};
ghost use Rattle.lk_traced.specs.Standing.{IsBehindKnown, GoesBefore};

use crate::sections::Sections;
use lk_book::Reader;
use lk_lines::{Fault, LineError, Word};
use lk_members::Members;
use lk_store::terms::Terms;
use std::alloc::Global;

/// Which units of the library are declarations alone; or its first line of a block that is open.
fn kinds_of<T: Terms>(alloc: Global, store: &T, members: &Members) -> Result<Vec<bool>, LineError>
    requires lines { AreLinesIn (T.contents store.now) members.now.lines.items }
    requires indexed { IsIndexed members.now }
    requires faultless { IsFaultless (lines_of members.now.lines.items) }
    ensures kinds { IfOk result (λ ks. (us : Library)
        × (units_stated (lines_at (T.contents store.now) members.now.lines.items) ≡ Ok us)
        × (ks.items ≡ map is_declaration us)) }
    ensures fault { IfErr result (λ e. Fails e
        (units_stated (lines_at (T.contents store.now) members.now.lines.items))) }
{
    // The names of the store are apart, so that their numbers tell.
    let _names = store.count_names();
    let open = match members.first_open(alloc) {
        Ok(open) => open,
        Err(_) => return Err(LineError::NoMemory),
    };
    match open {
        Some(line) => Err(LineError::Fault(Fault {
            line,
            word: Word::BlockOpen,
        })),
        None => match members.kinds(alloc) {
            Ok(kinds) => Ok(kinds),
            Err(_) => Err(LineError::NoMemory),
        },
    }
}

/// Takes the line `#TR`. The fault of a block that is open is that of its line.
pub(crate) fn begin_behind<T: Terms>(
    alloc: Global,
    store: &T,
    reader: &mut Reader,
) -> Result<Option<Sections>, LineError>
    requires { IsKnown reader.old.assembler (T.contents store.now) }
    ensures known { IsKnown reader.new.assembler (T.contents store.now) }
    ensures counts { (reader.new.number ≡ reader.old.number)
        × (reader.new.before ≡ reader.old.before) }
    ensures behind { IfOk result (λ x. IsBehindKnown x (T.contents store.now)) }
    ensures follows { (c : Course) → Stands reader.old (T.contents store.now) c
        → GoesBefore reader.new (T.contents store.now) result (trace_begun c) }
{
    let kinds = match kinds_of(alloc, store, &reader.assembler.members) {
        Ok(kinds) => kinds,
        Err(error) => return Err(error),
    };
    reader.first = false;
    Ok(Some(Sections::new(alloc, kinds)))
}
