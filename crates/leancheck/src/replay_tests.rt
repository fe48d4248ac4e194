//! Rows: a library and what is written of its units.

use crate::status::Status;
use crate::tests::{USAGE, is_row};
use std::test::Fail;

// An axiom and its section.
const AXIOM: &[u8] =
    b"1 #NS 0 a\n0 #ES 0\n#AX 1 0\n#TR\n1 #US 0\n1 #ES 1\n#AT 0\n0 #TY T-Sort 0 1\n#OK 0\n";

// The type of its type is stated wrongly.
const WRONG: &[u8] =
    b"1 #NS 0 a\n0 #ES 0\n#AX 1 0\n#TR\n1 #US 0\n1 #ES 1\n#AT 0\n0 #TY T-Sort 0 0\n#OK 0\n";

// The section is not ended.
const OPEN: &[u8] =
    b"1 #NS 0 a\n0 #ES 0\n#AX 1 0\n#TR\n1 #US 0\n1 #ES 1\n#AT 0\n0 #TY T-Sort 0 1\n";

// The parts of the axiom are not named.
const NO_PARTS: &[u8] =
    b"1 #NS 0 a\n0 #ES 0\n#AX 1 0\n#TR\n1 #US 0\n1 #ES 1\n#AT 0\n0 #TY T-Sort 0 1\n#OK\n";

// A block, an axiom without a section, and an axiom with one.
const BLOCK: &[u8] =
    b"1 #NS 0 T\n2 #NS 1 c\n3 #NS 0 a\n4 #NS 3 7\n1 #US 0\n0 #ES 0\n1 #ES 1\n2 #EC 1\n#IND 1 1 0 0 0 0 1 1 1 2\n#CTOR 2 2 1 0 0 0\n#AX 3 0\n#AX 4 0\n#TR\n#AT 2\n5 #TY T-Sort 0 1\n#OK 5\n";

#[test]
fn replayed(rt: HostRuntime) -> Result<(), Fail> {
    let alloc = rt.alloc();
    let rows: [(&str, &[u8], &[u8], Status); 10] = [
        (
            "leancheck replay",
            AXIOM,
            b"ok 0 a\nunits 1 ok 1 bad 0 none 0 block 0\n",
            Status::AllYes,
        ),
        (
            "leancheck replay",
            WRONG,
            b"bad 0 a line 8\nunits 1 ok 0 bad 1 none 0 block 0\n",
            Status::SomeNo,
        ),
        (
            "leancheck replay",
            OPEN,
            b"bad line 7 TraceOrder\n",
            Status::BadFile,
        ),
        (
            "leancheck replay",
            NO_PARTS,
            b"bad 0 a line 9\nunits 1 ok 0 bad 1 none 0 block 0\n",
            Status::SomeNo,
        ),
        (
            "leancheck replay",
            BLOCK,
            b"block 0 T\nnone 1 a\nok 2 a.7\nunits 3 ok 1 bad 0 none 1 block 1\n",
            Status::SomeNo,
        ),
        (
            "leancheck replay",
            b"",
            b"units 0 ok 0 bad 0 none 0 block 0\n",
            Status::AllYes,
        ),
        (
            "leancheck replay",
            b"#GO\n",
            b"bad line 1 UnknownTag\n",
            Status::BadFile,
        ),
        (
            "leancheck check",
            AXIOM,
            b"bad line 4 UnknownTag\n",
            Status::BadFile,
        ),
        ("leancheck replay --steps 4", AXIOM, USAGE, Status::Usage),
        ("leancheck replay more", AXIOM, USAGE, Status::Usage),
    ];
    for (line, bytes, written, status) in rows {
        assert!(rt; is_row(&rt, alloc, line, bytes, written, status)?, "{line}");
    }
    Ok(())
}
