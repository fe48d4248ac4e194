//! The export files by which a checker is tried: an axiom `p`, and as many theorems `p -> p` as are
//! wanted, each proved by the function that gives its argument or by an earlier theorem that a seed
//! draws.
#![tactic(auto)]

ghost use Rattle.std.specs.Prelude.{◌≡◌, ◌+◌, ◌<◌, ◌≤◌, ◌^◌, ◌++◌, IfOk, OnOk, string_bytes};
ghost use Rattle.lk_generator.specs.Generated.{next, expressions_of, file_of, name_line, proof_lines, theorem_line, unit_lines};

use std::alloc::{AllocError, Global};
use std::fmt::Write;

/// What each file begins with: its version, the axiom, and expressions that all theorems share.
const BEGINNING: &str =
    "2.0.0\n1 #NS 0 p\n2 #NS 0 t\n0 #ES 0\n1 #EC 1\n2 #EP #BD 0 1 1\n3 #EV 0\n4 #EL #BD 0 1 3\n#AX 1 0\n";

/// The number behind `x` in the sequence.
fn next(x: u64) -> u64
    requires { x < 2 ^ 32 }
    ensures is { result ≡ next x }
    ensures small { result < 2 ^ 32 }
{
    (1103515245 * x + 12345) % (1 << 31)
}

/// How many expressions a unit has of its own that is proved by unit `j`.
fn expressions_of(j: u64) -> u64
    ensures is { result ≡ expressions_of j }
    ensures few { result ≤ 3 }
{
    if j == 0 { 0 } else { 3 }
}

/// Appends the line of the name of unit `i`.
#[tactic(auto, unfolding(crate::specs::Generated::name_line))]
fn add_name(file: &mut String, i: u64) -> Result<(), AllocError>
    requires { i < 2 ^ 32 }
    ensures { OnOk result (string_bytes file.new ≡ string_bytes file.old ++ name_line i) }
{
    writeln!(file, "{} #NI 2 {i}", i + 2)
}

/// Appends the line of the theorem that is unit `i`, proved by expression `e`.
#[tactic(auto, unfolding(crate::specs::Generated::theorem_line))]
fn add_theorem(file: &mut String, i: u64, e: u64) -> Result<(), AllocError>
    requires { i < 2 ^ 32 }
    ensures { OnOk result (string_bytes file.new ≡ string_bytes file.old ++ theorem_line i e) }
{
    writeln!(file, "#THM {} 2 {e}", i + 2)
}

/// Appends the lines of expressions `e` to `e + 2`, of which the last one is a proof by unit `j`.
#[tactic(auto, unfolding(crate::specs::Generated::proof_lines))]
fn add_proof(file: &mut String, j: u64, e: u64) -> Result<(), AllocError>
    requires unit { j < 2 ^ 32 }
    requires expression { e < 2 ^ 34 }
    ensures { OnOk result (string_bytes file.new ≡ string_bytes file.old ++ proof_lines j e) }
{
    writeln!(file, "{e} #EC {}", j + 2)?;
    writeln!(file, "{} #EA {e} 3", e + 1)?;
    writeln!(file, "{} #EL #BD 0 1 {}", e + 2, e + 1)
}

/// Appends the lines of unit `i`, proved by unit `j`, from expression `e` on.
fn add_unit(file: &mut String, i: u64, j: u64, e: u64) -> Result<(), AllocError>
    requires unit { i < 2 ^ 32 }
    requires earlier { j < i }
    requires expression { e < 2 ^ 34 }
    ensures { OnOk result (string_bytes file.new ≡ string_bytes file.old ++ unit_lines i j e) }
{
    add_name(file, i)?;
    if j == 0 {
        return add_theorem(file, i, 4);
    }
    add_proof(file, j, e)?;
    add_theorem(file, i, e + 2)
}

/// The file of so many units, of one at least, that a seed gives.
pub fn generate(alloc: Global, units: u32, seed: u32) -> Result<Vec<u8>, AllocError>
    ensures { IfOk result (λ v. v.items ≡ file_of units seed) }
{
    let mut file = String::from_str(alloc, BEGINNING)?;
    let mut number = u64::from(seed);
    let mut free = 5;
    for i in 1..u64::from(units) {
        number = next(number);
        let cited = number / 65536 % i;
        add_unit(&mut file, i, cited, free)?;
        free += expressions_of(cited);
    }
    Ok(file.into_bytes())
}
