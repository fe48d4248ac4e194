//! Rows: a library with a section for each declaration that says yes.

use crate::status::Status;
use crate::tests::{USAGE, is_row};
use std::test::Fail;

// An axiom.
const AXIOM: &[u8] = b"1 #NS 0 a\n0 #ES 0\n#AX 1 0\n";

// The same with a budget that is not enough for it.
const LOW: &[u8] = b"1 #NS 0 a\n0 #ES 0\n#AX 1 0\n#BUD 1 1\n";

// Two axioms, of which the second rests on the first.
const TWO: &[u8] = b"1 #NS 0 a\n0 #ES 0\n#AX 1 0\n2 #NS 0 b\n1 #EC 1\n#AX 2 1\n";

// The second has the name of the first.
const TWICE: &[u8] = b"1 #NS 0 a\n0 #ES 0\n#AX 1 0\n#AX 1 0\n";

// A block.
const BLOCK: &[u8] =
    b"1 #NS 0 T\n2 #NS 1 c\n1 #US 0\n1 #ES 1\n2 #EC 1\n#IND 1 1 0 0 0 0 1 1 1 2\n#CTOR 2 2 1 0 0 0\n";

#[test]
fn traced(rt: HostRuntime) -> Result<(), Fail> {
    let alloc = rt.alloc();
    let rows: [(&str, &[u8], &[u8], Status); 9] = [
        (
            "leancheck trace",
            AXIOM,
            b"2.0.0\n1 #NS 0 a\n0 #ES 0\n#AX 1 0\n#TR\n#AT 0\n1 #US 0\n1 #ES 1\n0 #TY T-Sort 0 1\n#OK 0\n",
            Status::AllYes,
        ),
        (
            "leancheck trace",
            TWO,
            b"2.0.0\n1 #NS 0 a\n0 #ES 0\n#AX 1 0\n2 #NS 0 b\n1 #EC 1\n#AX 2 1\n#TR\n#AT 0\n1 #US 0\n2 #ES 1\n0 #TY T-Sort 0 2\n#OK 0\n#AT 1\n1 #TY T-Const 1 0\n#OK 1\n",
            Status::AllYes,
        ),
        (
            "leancheck trace",
            TWICE,
            b"2.0.0\n1 #NS 0 a\n0 #ES 0\n#AX 1 0\n#AX 1 0\n#TR\n#AT 0\n1 #US 0\n1 #ES 1\n0 #TY T-Sort 0 1\n#OK 0\n",
            Status::SomeNo,
        ),
        (
            "leancheck trace",
            LOW,
            b"2.0.0\n1 #NS 0 a\n0 #ES 0\n#AX 1 0\n#BUD 1 1\n#TR\n",
            Status::SomeNo,
        ),
        (
            "leancheck trace --steps 1",
            AXIOM,
            b"2.0.0\n1 #NS 0 a\n0 #ES 0\n#AX 1 0\n#TR\n",
            Status::SomeNo,
        ),
        (
            "leancheck trace",
            BLOCK,
            b"2.0.0\n1 #NS 0 T\n1 #US 0\n0 #ES 1\n2 #NS 1 c\n#IND 1 0 0 0 0 0 1 1 1 2\n1 #EC 1\n#CTOR 2 1 1 0 0 0\n#TR\n",
            Status::AllYes,
        ),
        ("leancheck trace", b"", b"2.0.0\n#TR\n", Status::AllYes),
        (
            "leancheck trace",
            b"#TR\n",
            b"bad line 1 UnknownTag\n",
            Status::BadFile,
        ),
        ("leancheck trace --memo 4", AXIOM, USAGE, Status::Usage),
    ];
    for (line, bytes, written, status) in rows {
        assert!(rt; is_row(&rt, alloc, line, bytes, written, status)?, "{line}");
    }
    Ok(())
}
