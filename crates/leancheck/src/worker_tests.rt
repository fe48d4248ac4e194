//! Rows with several workers: what is written is the same for each number of them.

use crate::status::Status;
use crate::tests::{is_row, is_row_at};
use lk_port::{Gate, OpenGate, PairGate};
use std::alloc::{AllocError, Global};
use std::sync::Wait;
use std::sync::atomic::{AtomicU64, Ordering};
use std::test::Fail;
use std::thread::Threads;

// An axiom, and theorems that use it.
const FIVE: &[u8] =
    b"2.0.0\n1 #NS 0 p\n2 #NS 0 t\n0 #ES 0\n1 #EC 1\n2 #EP #BD 0 1 1\n3 #EV 0\n4 #EL #BD 0 1 3\n#AX 1 0\n3 #NI 2 1\n#THM 3 2 4\n4 #NI 2 2\n#THM 4 2 4\n5 #NI 2 3\n#THM 5 2 4\n6 #NI 2 4\n5 #EC 5\n6 #EA 5 3\n7 #EL #BD 0 1 6\n#THM 6 2 7\n";

const FIVE_TOLD: &[u8] =
    b"yes axiom 0 p\n  axiom p\nyes thm 1 t.1\n  axiom p\nyes thm 2 t.2\n  axiom p\nyes thm 3 t.3\n  axiom p\nyes thm 4 t.4\n  axiom p\nunits 5 yes 5 no 0 memory 0\n";

// A Pi whose domain and body are the Pi before it, sixty times.
const DOUBLING: &[u8] =
    b"1 #NS 0 d\n0 #ES 0\n1 #EP #BD 0 0 0\n2 #EP #BD 0 1 1\n3 #EP #BD 0 2 2\n4 #EP #BD 0 3 3\n5 #EP #BD 0 4 4\n6 #EP #BD 0 5 5\n7 #EP #BD 0 6 6\n8 #EP #BD 0 7 7\n9 #EP #BD 0 8 8\n10 #EP #BD 0 9 9\n11 #EP #BD 0 10 10\n12 #EP #BD 0 11 11\n13 #EP #BD 0 12 12\n14 #EP #BD 0 13 13\n15 #EP #BD 0 14 14\n16 #EP #BD 0 15 15\n17 #EP #BD 0 16 16\n18 #EP #BD 0 17 17\n19 #EP #BD 0 18 18\n20 #EP #BD 0 19 19\n21 #EP #BD 0 20 20\n22 #EP #BD 0 21 21\n23 #EP #BD 0 22 22\n24 #EP #BD 0 23 23\n25 #EP #BD 0 24 24\n26 #EP #BD 0 25 25\n27 #EP #BD 0 26 26\n28 #EP #BD 0 27 27\n29 #EP #BD 0 28 28\n30 #EP #BD 0 29 29\n31 #EP #BD 0 30 30\n32 #EP #BD 0 31 31\n33 #EP #BD 0 32 32\n34 #EP #BD 0 33 33\n35 #EP #BD 0 34 34\n36 #EP #BD 0 35 35\n37 #EP #BD 0 36 36\n38 #EP #BD 0 37 37\n39 #EP #BD 0 38 38\n40 #EP #BD 0 39 39\n41 #EP #BD 0 40 40\n42 #EP #BD 0 41 41\n43 #EP #BD 0 42 42\n44 #EP #BD 0 43 43\n45 #EP #BD 0 44 44\n46 #EP #BD 0 45 45\n47 #EP #BD 0 46 46\n48 #EP #BD 0 47 47\n49 #EP #BD 0 48 48\n50 #EP #BD 0 49 49\n51 #EP #BD 0 50 50\n52 #EP #BD 0 51 51\n53 #EP #BD 0 52 52\n54 #EP #BD 0 53 53\n55 #EP #BD 0 54 54\n56 #EP #BD 0 55 55\n57 #EP #BD 0 56 56\n58 #EP #BD 0 57 57\n59 #EP #BD 0 58 58\n60 #EP #BD 0 59 59\n#AX 1 60\n";

// A definition that uses the name of a later unit.
const LATER: &[u8] =
    b"1 #NS 0 q\n2 #NS 0 a\n3 #NS 0 c\n0 #ES 0\n1 #EC 1\n#DEF 2 0 1 O\n#AX 1 0\n#DEF 3 0 1 O\n";

const LATER_TOLD: &[u8] =
    b"no def 0 a\n  why UnknownConstant\nyes axiom 1 q\n  axiom q\nyes def 2 c\n  axiom q\nunits 3 yes 2 no 1 memory 0\n";

// The same units, where that name is of an earlier one.
const EARLIER: &[u8] =
    b"1 #NS 0 q\n2 #NS 0 a\n3 #NS 0 c\n0 #ES 0\n1 #EC 1\n#AX 1 0\n#DEF 2 0 1 O\n#DEF 3 0 1 O\n";

const EARLIER_TOLD: &[u8] =
    b"yes axiom 0 q\n  axiom q\nyes def 1 a\n  axiom q\nyes def 2 c\n  axiom q\nunits 3 yes 3 no 0 memory 0\n";

// Whether a run on these words checks the five units, and two workers were at the gate at one time
// exactly where that is wanted.
fn meets<R: Threads + Wait + Sync>(
    rt: &R,
    alloc: Global,
    line: &str,
    turns: u64,
    wanted: bool,
) -> Result<bool, AllocError> {
    let gate = PairGate::new(turns);
    let is_told = is_row_at(rt, alloc, &gate, line, FIVE, FIVE_TOLD, Status::AllYes)?;
    Ok(is_told && gate.has_met() == wanted)
}

// So many looks that two workers meet on a busy machine too: with two threads for each processor a
// third of the pairs missed each other in 10,000,000. Who is met looks no more.
const PATIENT: u64 = 2_000_000_000;

#[test]
fn workers_meet(rt: HostRuntime) -> Result<(), Fail> {
    let alloc = rt.alloc();
    assert!(rt; meets(&rt, alloc, "leancheck check --workers 2", PATIENT, true)?);
    assert!(rt; meets(&rt, alloc, "leancheck check --workers 8", PATIENT, true)?);
    assert!(rt; meets(&rt, alloc, "leancheck check --workers 1", 10_000_000, false)?);
    Ok(())
}

#[test]
fn later_name(rt: HostRuntime) -> Result<(), Fail> {
    let alloc = rt.alloc();
    for line in [
        "leancheck check --workers 1",
        "leancheck check --workers 2",
        "leancheck check --workers 8",
    ] {
        assert!(rt; is_row(&rt, alloc, line, LATER, LATER_TOLD, Status::SomeNo)?);
        assert!(rt; is_row(&rt, alloc, line, EARLIER, EARLIER_TOLD, Status::AllYes)?);
    }
    Ok(())
}

#[test]
fn doubling(rt: HostRuntime) -> Result<(), Fail> {
    let alloc = rt.alloc();
    // It costs 6 * 2^60 - 3 steps.
    for line in [
        "leancheck check --steps 6917529027641081853 --workers 1",
        "leancheck check --steps 6917529027641081853 --workers 2",
        "leancheck check --steps 6917529027641081853 --workers 8",
    ] {
        let told = b"yes axiom 0 d\n  axiom d\nunits 1 yes 1 no 0 memory 0\n";
        assert!(rt; is_row(&rt, alloc, line, DOUBLING, told, Status::AllYes)?);
    }
    for line in [
        "leancheck check --steps 6917529027641081852 --workers 1",
        "leancheck check --steps 6917529027641081852 --workers 2",
        "leancheck check --steps 6917529027641081852 --workers 8",
    ] {
        let told = b"no axiom 0 d\n  why steps\n  axiom d\nunits 1 yes 0 no 1 memory 0\n";
        assert!(rt; is_row(&rt, alloc, line, DOUBLING, told, Status::SomeNo)?);
    }
    Ok(())
}

// One more axiom of the same type.
const ONE_MORE: &[u8] = b"2 #NS 0 e\n#AX 2 60\n";

// Whether a counter comes to a number while it is looked at so many times.
fn comes_to(counter: &AtomicU64, number: u64, turns: u64) -> bool {
    for _ in 0..turns {
        if counter.load(Ordering::SeqCst) >= number {
            return true;
        }
    }
    false
}

// A gate that lets the first unit wait for the worker of the second one, and that one until the
// first unit is checked: so the second worker finds at the desk what the first one left.
#[derive(Drop)]
struct InTurn {
    came: AtomicU64,
    checked: AtomicU64,
}

impl Gate for InTurn {
    fn before_unit(&self, unit: u32) {
        let _before = self.came.fetch_add(1, Ordering::SeqCst);
        let _came = if unit == 0 {
            comes_to(&self.came, 2, PATIENT)
        } else {
            comes_to(&self.checked, 1, PATIENT)
        };
    }

    fn after_unit(&self, _unit: u32, _yes: bool) {
        let _before = self.checked.fetch_add(1, Ordering::SeqCst);
    }
}

impl InTurn {
    fn new() -> InTurn {
        InTurn {
            came: AtomicU64::new(0),
            checked: AtomicU64::new(0),
        }
    }
}

// Whether two axioms of the doubled type come to this.
fn is_twice<R: Threads + Wait + Sync, G: Gate>(
    rt: &R,
    alloc: Global,
    gate: &G,
    line: &str,
    told: &[u8],
    status: Status,
) -> Result<bool, AllocError> {
    let mut bytes = Vec::from_slice(alloc, DOUBLING)?;
    bytes.extend_from_slice(ONE_MORE)?;
    is_row_at(rt, alloc, gate, line, bytes.as_slice(), told, status)
}

#[test]
fn doubling_twice(rt: HostRuntime) -> Result<(), Fail> {
    let alloc = rt.alloc();
    let told = b"yes axiom 0 d\n  axiom d\nyes axiom 1 e\n  axiom e\nunits 2 yes 2 no 0 memory 0\n";
    let alone = "leancheck check --steps 6917529027641081853 --workers 1";
    assert!(rt; is_twice(&rt, alloc, &OpenGate, alone, told, Status::AllYes)?);
    for line in [
        "leancheck check --steps 6917529027641081853 --workers 2",
        "leancheck check --steps 6917529027641081853 --workers 8",
    ] {
        assert!(rt; is_twice(&rt, alloc, &InTurn::new(), line, told, Status::AllYes)?);
    }
    Ok(())
}

#[test]
fn doubling_twice_and_one_step_less(rt: HostRuntime) -> Result<(), Fail> {
    let alloc = rt.alloc();
    let told =
        b"no axiom 0 d\n  why steps\n  axiom d\nno axiom 1 e\n  why steps\n  axiom e\nunits 2 yes 0 no 2 memory 0\n";
    let alone = "leancheck check --steps 6917529027641081852 --workers 1";
    assert!(rt; is_twice(&rt, alloc, &OpenGate, alone, told, Status::SomeNo)?);
    for line in [
        "leancheck check --steps 6917529027641081852 --workers 2",
        "leancheck check --steps 6917529027641081852 --workers 8",
    ] {
        assert!(rt; is_twice(&rt, alloc, &InTurn::new(), line, told, Status::SomeNo)?);
    }
    Ok(())
}
