//! Rows: texts that callers add to one list.

use crate::run::run;
use crate::status::Status;
use crate::tests::{is_row, words_of};
use lk_port::{MemSink, MemSource, OpenGate};
use std::alloc::{AllocError, Global};
use std::sync::Wait;
use std::test::Fail;
use std::thread::Threads;

// An axiom, and a text with a definition by it.
const AXIOM_AND_USE: &[u8] =
    b"1 #NS 0 q\n0 #ES 0\n#AX 1 0\n#GO\n1 #NS 0 c\n2 #NS 0 q\n0 #ES 0\n1 #EC 2\n#DEF 1 0 1 O\n";

const IN_ORDER: &[u8] =
    b"submission 0\nyes axiom 0 q\n  axiom q\nsubmission 1\nyes def 1 c\n  axiom q\nunits 2 yes 2 no 0 memory 0\n";

const TURNED: &[u8] =
    b"submission 1\nno def 0 c\n  why UnknownConstant\nsubmission 0\nyes axiom 1 q\n  axiom q\nunits 2 yes 1 no 1 memory 0\n";

#[test]
fn one_caller(rt: HostRuntime) -> Result<(), Fail> {
    let alloc = rt.alloc();
    let rows: [(&[u8], &[u8], Status); 8] = [
        (AXIOM_AND_USE, IN_ORDER, Status::AllYes),
        // No bytes are one text without units.
        (
            b"",
            b"submission 0\nunits 0 yes 0 no 0 memory 0\n",
            Status::AllYes,
        ),
        (
            b"2.0.0\n#GO\n#GO\n2.0.0\n",
            b"submission 0\nsubmission 1\nsubmission 2\nunits 0 yes 0 no 0 memory 0\n",
            Status::AllYes,
        ),
        // Each text has its own numbers.
        (
            b"1 #NS 0 q\n0 #ES 0\n#AX 1 0\n#GO\n#AX 1 0\n",
            b"bad line 5 IndexUnknown\n",
            Status::BadFile,
        ),
        // A fault of an earlier text comes first: its block is open.
        (
            b"1 #NS 0 T\n2 #NS 1 c\n1 #US 0\n0 #ES 1\n1 #EC 1\n#IND 1 0 0 0 0 0 1 1 1 2\n#GO\n#CTOR 2 1 1 0 0 0\n",
            b"bad line 6 BlockOpen\n",
            Status::BadFile,
        ),
        (b"#GO on\n", b"bad line 1 ExtraField\n", Status::BadFile),
        (
            b"1 #NS 0 q\n#GO\n#BUD 1 4\n",
            b"bad line 3 UnknownTag\n",
            Status::BadFile,
        ),
        // The name is given in an earlier text.
        (
            b"1 #NS 0 q\n0 #ES 0\n#AX 1 0\n#GO\n1 #NS 0 q\n0 #ES 0\n#AX 1 0\n",
            b"submission 0\nyes axiom 0 q\n  axiom q\nsubmission 1\nno axiom 1 q\n  why DuplicateName\n  axiom q\nunits 2 yes 1 no 1 memory 0\n",
            Status::SomeNo,
        ),
    ];
    for (bytes, written, status) in rows {
        assert!(rt; is_row(&rt, alloc, "leancheck session", bytes, written, status)?);
    }
    Ok(())
}

// Whether what two callers write is right: one of them comes first, whichever it is.
fn is_either<R: Threads + Wait + Sync>(rt: &R, alloc: Global) -> Result<bool, AllocError> {
    let words = words_of(alloc, "leancheck session --workers 2")?;
    let bytes = Vec::from_slice(alloc, AXIOM_AND_USE)?;
    let mut source = MemSource { bytes, at: 0 };
    let mut sink = MemSink::new(alloc, 4096)?;
    let end = run(
        rt,
        alloc,
        words.as_slice(),
        &mut source,
        &mut sink,
        &OpenGate,
    );
    let written = sink.bytes.as_slice();
    let in_order = end.code() == Status::AllYes.code() && written == IN_ORDER;
    let turned = end.code() == Status::SomeNo.code() && written == TURNED;
    Ok(in_order || turned)
}

#[test]
fn two_callers(rt: HostRuntime) -> Result<(), Fail> {
    let alloc = rt.alloc();
    assert!(rt; is_either(&rt, alloc)?);
    Ok(())
}
