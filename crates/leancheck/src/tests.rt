//! Rows: what a run does.

use crate::run::run;
use crate::status::Status;
use lk_command::{LineError, Meaning, Options, Sample, line_means};
use lk_port::{Gate, MemSink, MemSource, OpenGate};
use std::alloc::{AllocError, Global};
use std::sync::Wait;
use std::test::Fail;
use std::thread::Threads;

pub(crate) const IDENTITY: &[u8] =
    b"2.0.0\n1 #NS 0 p\n2 #NS 0 id\n0 #ES 0\n1 #EV 0\n2 #EV 1\n3 #EP #BD 0 1 2\n4 #EP #BD 1 0 3\n5 #EL #BD 0 1 1\n6 #EL #BD 1 0 5\n#THM 2 4 6\n";

const NO_VERSION: &[u8] =
    b"1 #NS 0 p\n2 #NS 0 id\n0 #ES 0\n1 #EV 0\n2 #EV 1\n3 #EP #BD 0 1 2\n4 #EP #BD 1 0 3\n5 #EL #BD 0 1 1\n6 #EL #BD 1 0 5\n#THM 2 4 6";

const TWICE: &[u8] =
    b"2.0.0\n1 #NS 0 p\n2 #NS 0 id\n0 #ES 0\n1 #EV 0\n2 #EV 1\n3 #EP #BD 0 1 2\n4 #EP #BD 1 0 3\n5 #EL #BD 0 1 1\n6 #EL #BD 1 0 5\n#THM 2 4 6\n#THM 2 4 6\n";

// The value is of another type.
const OTHER: &[u8] =
    b"1 #NS 0 p\n2 #NS 0 id\n0 #ES 0\n1 #EV 0\n2 #EV 1\n3 #EP #BD 0 1 2\n4 #EP #BD 1 0 3\n5 #EL #BD 1 0 1\n#THM 2 4 5\n";

// A block with its recursor, axioms on it, and a theorem that holds by what the recursor computes.
const BLOCK: &[u8] =
    b"1 #NS 0 T\n2 #NS 1 mk\n3 #NS 1 rec\n4 #NS 0 u\n5 #NS 0 C\n6 #NS 0 P\n7 #NS 0 p\n8 #NS 0 q\n1 #US 0\n2 #UP 4\n0 #ES 1\n1 #EC 1\n2 #EC 2\n3 #ES 2\n4 #EP #BD 0 1 3\n5 #EV 0\n7 #EV 2\n8 #EA 5 2\n9 #EA 7 5\n10 #EP #BD 0 1 9\n11 #EP #BD 0 8 10\n12 #EP #BD 5 4 11\n13 #EL #BD 0 8 5\n14 #EL #BD 5 4 13\n#IND 1 0 0 0 0 0 1 1 1 2\n#CTOR 2 1 1 0 0 0\n0 #RR 2 0 14\n#REC 3 12 1 1 0 0 1 1 1 0 0 4\n15 #ES 0\n16 #EP #BD 0 1 15\n#AX 6 16\n17 #EC 6\n18 #EA 17 2\n#AX 7 18\n19 #EL #BD 0 1 1\n20 #EC 3 1\n21 #EA 20 19\n22 #EA 21 2\n23 #EA 22 2\n24 #EA 17 23\n25 #EC 7\n#THM 8 24 25\n";

// A type T over an axiom N whose constructor has a field `(T -> N) -> T`.
const NOT_POSITIVE: &[u8] =
    b"1 #NS 0 N\n2 #NS 0 T\n3 #NS 2 mk\n1 #US 0\n0 #ES 1\n1 #EC 1\n2 #EC 2\n3 #EP #BD 0 2 1\n4 #EP #BD 0 3 2\n5 #EP #BD 0 4 2\n#AX 1 0\n#IND 2 0 1 0 0 0 1 2 1 3\n#CTOR 3 5 2 0 0 1\n";

pub(crate) const USAGE: &[u8] =
    b"usage: leancheck check|make|trial|trim|trace|replay|recheck|session [--workers W] [--steps N] [--memo M] [--allow LIST] [--units N] [--seed S] [--name NAME]\n";

pub(crate) fn words_of(alloc: Global, line: &str) -> Result<Vec<String>, AllocError> {
    let mut words = Vec::new(alloc);
    for word in line.split(' ') {
        words.push(String::from_str(alloc, word)?)?;
    }
    Ok(words)
}

// Whether a run on these words and bytes writes this, and ends so.
pub(crate) fn is_row<R: Threads + Wait + Sync>(
    rt: &R,
    alloc: Global,
    line: &str,
    bytes: &[u8],
    written: &[u8],
    status: Status,
) -> Result<bool, AllocError> {
    is_row_at(rt, alloc, &OpenGate, line, bytes, written, status)
}

// The same, where this gate is told of it.
pub(crate) fn is_row_at<R: Threads + Wait + Sync, G: Gate>(
    rt: &R,
    alloc: Global,
    gate: &G,
    line: &str,
    bytes: &[u8],
    written: &[u8],
    status: Status,
) -> Result<bool, AllocError> {
    let words = words_of(alloc, line)?;
    let bytes = Vec::from_slice(alloc, bytes)?;
    let mut source = MemSource { bytes, at: 0 };
    let mut sink = MemSink::new(alloc, 4096)?;
    let end = run(rt, alloc, words.as_slice(), &mut source, &mut sink, gate);
    Ok(end.code() == status.code() && sink.bytes.as_slice() == written)
}

// A definition whose value is a let.
const LET: &[u8] = b"1 #NS 0 c\n1 #US 0\n0 #ES 0\n1 #ES 1\n2 #EZ 0 1 0 0\n#DEF 1 1 2 O\n";

// Two definitions of one level parameter: `Sort (imax u 0)` is 0, and `Sort (succ u)` is not.
const LEVELS: &[u8] =
    b"1 #NS 0 u\n2 #NS 0 a\n3 #NS 0 b\n1 #UP 1\n2 #UIM 1 0\n3 #US 0\n4 #US 1\n0 #ES 2\n1 #ES 3\n2 #ES 4\n#DEF 2 1 0 A 1\n#DEF 3 2 0 A 1\n";

#[test]
fn definitions(rt: HostRuntime) -> Result<(), Fail> {
    let alloc = rt.alloc();
    assert!(rt;
        is_row(
            &rt,
            alloc,
            "leancheck check --memo 1",
            LEVELS,
            b"yes def 0 a\nno def 1 b\n  why ValueType\nunits 2 yes 1 no 1 memory 0\n",
            Status::SomeNo
        )?
    );
    Ok(())
}

#[test]
fn blocks(rt: HostRuntime) -> Result<(), Fail> {
    assert!(rt;
        is_row(
            &rt,
            rt.alloc(),
            "leancheck check",
            BLOCK,
            b"yes block 0 T\nyes axiom 1 P\n  axiom P\nyes axiom 2 p\n  axiom P\n  axiom p\nyes thm 3 q\n  axiom P\n  axiom p\nunits 4 yes 4 no 0 memory 0\n",
            Status::AllYes
        )?
    );
    assert!(rt;
        is_row(
            &rt,
            rt.alloc(),
            "leancheck check",
            NOT_POSITIVE,
            b"yes axiom 0 N\n  axiom N\nno block 1 T\n  why NotPositive\n  axiom N\nunits 2 yes 1 no 1 memory 0\n",
            Status::SomeNo
        )?
    );
    Ok(())
}

#[test]
fn files(rt: HostRuntime) -> Result<(), Fail> {
    let alloc = rt.alloc();
    let check = "leancheck check";
    assert!(rt;
        is_row(
            &rt,
            alloc,
            check,
            IDENTITY,
            b"yes thm 0 id\nunits 1 yes 1 no 0 memory 0\n",
            Status::AllYes
        )?
    );
    assert!(rt;
        is_row(
            &rt,
            alloc,
            check,
            NO_VERSION,
            b"yes thm 0 id\nunits 1 yes 1 no 0 memory 0\n",
            Status::AllYes
        )?
    );
    assert!(rt;
        is_row(
            &rt,
            alloc,
            check,
            b"",
            b"units 0 yes 0 no 0 memory 0\n",
            Status::AllYes
        )?
    );
    assert!(rt;
        is_row(
            &rt,
            alloc,
            check,
            b"1 #NS 0 q\n0 #ES 0\n#THM 1 0 0\n",
            b"no thm 0 q\n  why TheoremNotProp\nunits 1 yes 0 no 1 memory 0\n",
            Status::SomeNo
        )?
    );
    assert!(rt;
        is_row(
            &rt,
            alloc,
            check,
            b"1 #NS 0 q\n0 #EV 0\n#THM 1 0 0\n",
            b"no thm 0 q\n  why LooseVariable\nunits 1 yes 0 no 1 memory 0\n",
            Status::SomeNo
        )?
    );
    assert!(rt;
        is_row(
            &rt,
            alloc,
            check,
            OTHER,
            b"no thm 0 id\n  why ValueType\nunits 1 yes 0 no 1 memory 0\n",
            Status::SomeNo
        )?
    );
    assert!(rt;
        is_row(
            &rt,
            alloc,
            check,
            TWICE,
            b"yes thm 0 id\nno thm 1 id\n  why DuplicateName\nunits 2 yes 1 no 1 memory 0\n",
            Status::SomeNo
        )?
    );
    assert!(rt;
        is_row(
            &rt,
            alloc,
            check,
            b"1 #NS 0 q\n2 #NI 1 5\n0 #ES 0\n#THM 2 0 0 1 2 1\n",
            b"no thm 0 q.5\n  why DuplicateLevel\nunits 1 yes 0 no 1 memory 0\n",
            Status::SomeNo
        )?
    );
    Ok(())
}

const AXIOMS: &[u8] = b"1 #NS 0 a\n2 #NS 0 b\n0 #EV 0\n1 #ES 0\n#AX 1 0\n#AX 2 1\n";

// The third is of the type a, whose own type has a loose variable.
const OF_A_LOOSE_ONE: &[u8] =
    b"1 #NS 0 a\n2 #NS 0 b\n0 #EV 0\n1 #ES 0\n#AX 1 0\n#AX 2 1\n3 #NS 0 c\n2 #EC 1\n#AX 3 2\n";

#[test]
fn axioms(rt: HostRuntime) -> Result<(), Fail> {
    let alloc = rt.alloc();
    let rows: [(&str, &[u8], &[u8], Status); 4] = [
        (
            "leancheck check",
            b"1 #NS 0 a b\n2 #NS 1 \n0 #ES 0\n#AX 2 0\n",
            b"yes axiom 0 a b.\n  axiom a b.\nunits 1 yes 1 no 0 memory 0\n",
            Status::AllYes,
        ),
        (
            "leancheck check --steps 2",
            AXIOMS,
            b"no axiom 0 a\n  why LooseVariable\n  axiom a\nno axiom 1 b\n  why steps\n  axiom b\nunits 2 yes 0 no 2 memory 0\n",
            Status::SomeNo,
        ),
        (
            "leancheck check --steps 3",
            AXIOMS,
            b"no axiom 0 a\n  why LooseVariable\n  axiom a\nyes axiom 1 b\n  axiom b\nunits 2 yes 1 no 1 memory 0\n",
            Status::SomeNo,
        ),
        (
            "leancheck check --steps 3",
            OF_A_LOOSE_ONE,
            b"no axiom 0 a\n  why LooseVariable\n  axiom a\nyes axiom 1 b\n  axiom b\nno axiom 2 c\n  why LooseVariable\n  axiom a\n  axiom c\nunits 3 yes 1 no 2 memory 0\n",
            Status::SomeNo,
        ),
    ];
    for (line, bytes, written, status) in rows {
        assert!(rt; is_row(&rt, alloc, line, bytes, written, status)?, "{line}");
    }
    Ok(())
}

// Axioms A and B of Prop, f : A -> A and b : B; then theorems x : A := f b and y : A := x.
const APPLIED: &[u8] =
    b"1 #NS 0 A\n2 #NS 0 B\n3 #NS 0 f\n4 #NS 0 b\n5 #NS 0 x\n6 #NS 0 y\n0 #ES 0\n1 #EC 1\n2 #EC 2\n3 #EP #BD 0 1 1\n4 #EC 3\n5 #EC 4\n6 #EA 4 5\n7 #EC 5\n#AX 1 0\n#AX 2 0\n#AX 3 3\n#AX 4 2\n#THM 5 1 6\n#THM 6 1 7\n";

// A theorem that is refused is still a constant of its type.
#[test]
fn applications(rt: HostRuntime) -> Result<(), Fail> {
    let alloc = rt.alloc();
    assert!(rt;
        is_row(
            &rt,
            alloc,
            "leancheck check",
            APPLIED,
            b"yes axiom 0 A\n  axiom A\nyes axiom 1 B\n  axiom B\nyes axiom 2 f\n  axiom A\n  axiom f\nyes axiom 3 b\n  axiom B\n  axiom b\nno thm 4 x\n  why ArgumentType\n  axiom A\n  axiom B\n  axiom f\n  axiom b\nyes thm 5 y\n  axiom A\n  axiom B\n  axiom f\n  axiom b\nunits 6 yes 5 no 1 memory 0\n",
            Status::SomeNo
        )?
    );
    Ok(())
}

#[test]
fn files_with_a_fault(rt: HostRuntime) -> Result<(), Fail> {
    let alloc = rt.alloc();
    let rows: [(&[u8], &[u8]); 9] = [
        (b"3.0.0\n", b"bad line 1 BadVersion\n"),
        (b"0 #ES 0\n0 #ES 0\n", b"bad line 2 IndexTaken\n"),
        (b"\n0 #ES 7\n", b"bad line 2 IndexUnknown\n"),
        (b"0 #EM 0\n", b"bad line 1 UnknownTag\n"),
        (b"0 #ES 0 0\n", b"bad line 1 ExtraField\n"),
        (b"0 #ES\n", b"bad line 1 MissingField\n"),
        (b"0 #ES 4294967296", b"bad line 1 NumberTooLarge\n"),
        (b"1 #NS 0 \xff", b"bad line 1 BadUtf8\n"),
        (b"0 #ELS 68 zz", b"bad line 1 BadHex\n"),
    ];
    for (bytes, written) in rows {
        assert!(rt;
            is_row(
                &rt,
                alloc,
                "leancheck check",
                bytes,
                written,
                Status::BadFile
            )?
        );
    }
    Ok(())
}

#[test]
fn words(rt: HostRuntime) -> Result<(), Fail> {
    let alloc = rt.alloc();
    for line in [
        "leancheck check --workers 0",
        "leancheck check x",
        "leancheck",
    ] {
        assert!(rt;
            is_row(&rt, alloc, line, IDENTITY, USAGE, Status::Usage)?,
            "{line}"
        );
    }
    Ok(())
}

// What each unit costs is enough, and one less is not: of a block, of a definition, of a theorem; of an axiom in `axioms`.
#[test]
fn steps(rt: HostRuntime) -> Result<(), Fail> {
    let alloc = rt.alloc();
    let rows: [(&str, &[u8], &[u8], Status); 6] = [
        (
            "leancheck check --steps 69",
            BLOCK,
            b"yes block 0 T\nyes axiom 1 P\n  axiom P\nyes axiom 2 p\n  axiom P\n  axiom p\nyes thm 3 q\n  axiom P\n  axiom p\nunits 4 yes 4 no 0 memory 0\n",
            Status::AllYes,
        ),
        (
            "leancheck check --steps 68",
            BLOCK,
            b"no block 0 T\n  why steps\nyes axiom 1 P\n  axiom P\nyes axiom 2 p\n  axiom P\n  axiom p\nyes thm 3 q\n  axiom P\n  axiom p\nunits 4 yes 3 no 1 memory 0\n",
            Status::SomeNo,
        ),
        (
            "leancheck check --steps 11",
            LET,
            b"yes def 0 c\nunits 1 yes 1 no 0 memory 0\n",
            Status::AllYes,
        ),
        (
            "leancheck check --steps 10",
            LET,
            b"no def 0 c\n  why steps\nunits 1 yes 0 no 1 memory 0\n",
            Status::SomeNo,
        ),
        (
            "leancheck check --steps 25",
            IDENTITY,
            b"yes thm 0 id\nunits 1 yes 1 no 0 memory 0\n",
            Status::AllYes,
        ),
        (
            "leancheck check --steps 24",
            IDENTITY,
            b"no thm 0 id\n  why steps\nunits 1 yes 0 no 1 memory 0\n",
            Status::SomeNo,
        ),
    ];
    for (line, bytes, written, status) in rows {
        assert!(rt; is_row(&rt, alloc, line, bytes, written, status)?, "{line}");
    }
    Ok(())
}

fn are_options(found: Options<'_>, options: Options<'_>) -> bool {
    found.workers == options.workers
        && found.steps == options.steps
        && found.memo == options.memo
        && found.allow == options.allow
}

fn is_sample(found: Sample, sample: Sample) -> bool {
    found.units == sample.units && found.seed == sample.seed
}

// Whether a line means nothing.
fn is_meaningless(alloc: Global, line: &str) -> Result<bool, AllocError> {
    let words = words_of(alloc, line)?;
    Ok(matches!(line_means(alloc, words.as_slice()), Err(LineError::Usage)))
}

// Whether a line asks for this check.
fn is_check(alloc: Global, line: &str, options: Options<'_>) -> Result<bool, AllocError> {
    let words = words_of(alloc, line)?;
    match line_means(alloc, words.as_slice()) {
        Ok(Meaning::Check(found)) => Ok(are_options(found, options)),
        _ => Ok(false),
    }
}

// Whether a line asks for this file.
fn is_make(alloc: Global, line: &str, sample: Sample) -> Result<bool, AllocError> {
    let words = words_of(alloc, line)?;
    match line_means(alloc, words.as_slice()) {
        Ok(Meaning::Make(found)) => Ok(is_sample(found, sample)),
        _ => Ok(false),
    }
}

// Whether a line asks for this trial.
fn is_trial(
    alloc: Global,
    line: &str,
    sample: Sample,
    options: Options<'_>,
) -> Result<bool, AllocError> {
    let words = words_of(alloc, line)?;
    match line_means(alloc, words.as_slice()) {
        Ok(Meaning::Trial(found, how)) => {
            Ok(is_sample(found, sample) && are_options(how, options))
        }
        _ => Ok(false),
    }
}

#[test]
fn words_without_a_meaning(rt: HostRuntime) -> Result<(), Fail> {
    let alloc = rt.alloc();
    for line in [
        "leancheck help",
        "leancheck --help",
        "leancheck check --help",
        "leancheck make --units 5",
        "leancheck make --units 0 --seed 1",
        "leancheck make --units 1048577 --seed 1",
        "leancheck make --units 5 --seed 2147483648",
        "leancheck make --units 5 --seed 1 --seed 1",
        "leancheck make --units 5 --seed 1 --steps 3",
        "leancheck trial",
        "leancheck trial --units 5",
        "leancheck check --units 5",
        "leancheck check --workers 65",
        "leancheck check --workers +2",
        "leancheck check --workers -2",
        "leancheck check --workers",
        "leancheck check --workers 2 --workers 2",
        "leancheck check --steps 0",
        "leancheck check --steps 18446744073709551616",
        "leancheck check --memo 0",
        "leancheck check --memo 1048577",
        "leancheck check --allow",
        "leancheck check --allow a --allow b",
        "leancheck make --units 5 --seed 1 --allow a",
        "leancheck check --words 3",
        "leancheck check -- 3",
    ] {
        assert!(rt; is_meaningless(alloc, line)?, "{line}");
    }
    Ok(())
}

#[test]
fn words_with_a_meaning(rt: HostRuntime) -> Result<(), Fail> {
    let alloc = rt.alloc();
    let defaults = Options {
        workers: 1,
        steps: 1 << 100,
        memo: 65536,
        allow: None,
    };
    for (line, options) in [
        ("leancheck check", defaults),
        ("leancheck check --", defaults),
        (
            "leancheck check --steps=5",
            Options {
                steps: 5,
                ..defaults
            },
        ),
        (
            "leancheck check --steps 005",
            Options {
                steps: 5,
                ..defaults
            },
        ),
        (
            "leancheck check --memo 1048576 --workers 64 --steps 18446744073709551615",
            Options {
                workers: 64,
                steps: 18446744073709551615,
                memo: 1048576,
                allow: None,
            },
        ),
        (
            "leancheck check --allow=propext,Quot.sound",
            Options {
                allow: Some("propext,Quot.sound"),
                ..defaults
            },
        ),
        (
            "leancheck check --allow ",
            Options {
                allow: Some(""),
                ..defaults
            },
        ),
    ] {
        assert!(rt; is_check(alloc, line, options)?, "{line}");
    }
    Ok(())
}

#[test]
fn words_that_ask_for_a_file(rt: HostRuntime) -> Result<(), Fail> {
    let alloc = rt.alloc();
    for (line, units, seed) in [
        ("leancheck make --units 1 --seed 0", 1, 0),
        (
            "leancheck make --seed 2147483647 --units 1048576",
            1048576,
            2147483647,
        ),
    ] {
        assert!(rt; is_make(alloc, line, Sample { units, seed })?, "{line}");
    }
    assert!(rt;
        is_trial(
            alloc,
            "leancheck trial --steps 19 --units 5 --seed 1",
            Sample { units: 5, seed: 1 },
            Options {
                workers: 1,
                steps: 19,
                memo: 65536,
                allow: None
            }
        )?
    );
    Ok(())
}

const ONE_UNIT: &[u8] =
    b"2.0.0\n1 #NS 0 p\n2 #NS 0 t\n0 #ES 0\n1 #EC 1\n2 #EP #BD 0 1 1\n3 #EV 0\n4 #EL #BD 0 1 3\n#AX 1 0\n";

// Three theorems that are proved by themselves, and one by unit 3.
const FIVE_UNITS: &[u8] =
    b"2.0.0\n1 #NS 0 p\n2 #NS 0 t\n0 #ES 0\n1 #EC 1\n2 #EP #BD 0 1 1\n3 #EV 0\n4 #EL #BD 0 1 3\n#AX 1 0\n3 #NI 2 1\n#THM 3 2 4\n4 #NI 2 2\n#THM 4 2 4\n5 #NI 2 3\n#THM 5 2 4\n6 #NI 2 4\n5 #EC 5\n6 #EA 5 3\n7 #EL #BD 0 1 6\n#THM 6 2 7\n";

#[test]
fn files_that_are_made(rt: HostRuntime) -> Result<(), Fail> {
    let alloc = rt.alloc();
    let rows: [(&str, &[u8]); 2] = [
        ("leancheck make --units 1 --seed 0", ONE_UNIT),
        ("leancheck make --units 5 --seed 1", FIVE_UNITS),
    ];
    for (line, written) in rows {
        assert!(rt;
            is_row(&rt, alloc, line, IDENTITY, written, Status::AllYes)?,
            "{line}"
        );
    }
    Ok(())
}

#[test]
fn trials(rt: HostRuntime) -> Result<(), Fail> {
    let alloc = rt.alloc();
    let rows: [(&str, &[u8], Status); 6] = [
        (
            "leancheck trial --units 1000 --seed 7",
            b"units 1000 yes 1000 no 0 memory 0\n",
            Status::AllYes,
        ),
        (
            "leancheck trial --units 1000 --seed 7 --workers 2",
            b"units 1000 yes 1000 no 0 memory 0\n",
            Status::AllYes,
        ),
        (
            "leancheck trial --units 1000 --seed 7 --workers 8",
            b"units 1000 yes 1000 no 0 memory 0\n",
            Status::AllYes,
        ),
        (
            "leancheck trial --units 5 --seed 1 --steps 20",
            b"units 5 yes 5 no 0 memory 0\n",
            Status::AllYes,
        ),
        (
            "leancheck trial --units 5 --seed 1 --steps 19",
            b"units 5 yes 4 no 1 memory 0\n",
            Status::SomeNo,
        ),
        ("leancheck trial --units 5", USAGE, Status::Usage),
    ];
    for (line, written, status) in rows {
        assert!(rt;
            is_row(&rt, alloc, line, IDENTITY, written, status)?,
            "{line}"
        );
    }
    Ok(())
}
