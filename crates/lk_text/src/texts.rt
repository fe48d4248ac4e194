//! The text of a run.

ghost use Rattle.std.specs.Prelude.{◌≡◌, map, IfOk};
ghost use Rattle.lk_verdict.specs.Held.{verdict};
ghost use Rattle.lk_text.specs.Text.{bad_line, report_text};
ghost use Rattle.lk_axioms.specs.Lists.{axiom_lists};
ghost use Rattle.lk_env.specs.Units.{library_of};

use crate::counts::add_summary;
use crate::units::add_lines;
use itoa::Buffer;
use lk_axioms::AxiomSets;
use lk_env::library::Library;
use lk_lines::Fault;
use lk_store::memory::NoMemory;
use lk_verdict::Verdict;
use std::alloc::Global;

/// The room for the line of a unit whose name is not long.
pub(crate) const LINE: usize = 32;

/// The lines of the units, each with the axioms that it rests on, and the last line. There is room
/// for most of it from the start: a text that grows step by step leaves its former room behind it.
pub fn report(
    alloc: Global,
    library: &Library,
    axioms: &AxiomSets,
    verdicts: &[Verdict],
) -> Result<Vec<u8>, NoMemory>
    requires { axioms.now ≡ axiom_lists (library_of library.now) }
    ensures { IfOk result (λ v. v.items ≡ report_text (library_of library.now)
        (map verdict verdicts.now)) }
{
    let mut out = Vec::with_capacity(alloc, verdicts.len().saturating_mul(LINE))?;
    add_lines(alloc, &mut out, library, axioms, verdicts)?;
    add_summary(&mut out, verdicts)?;
    Ok(out)
}

/// The line of a file's fault.
pub fn fault_line(alloc: Global, fault: Fault) -> Result<Vec<u8>, NoMemory>
    ensures { IfOk result (λ v. v.items ≡ bad_line fault) }
{
    let mut out = Vec::new(alloc);
    let mut buffer = Buffer::new();
    out.extend_from_slice(b"bad line ")?;
    out.extend_from_slice(buffer.format(fault.line).as_bytes())?;
    out.push(b' ')?;
    out.extend_from_slice(fault.word.text().as_bytes())?;
    out.push(b'\n')?;
    Ok(out)
}
