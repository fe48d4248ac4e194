//! Rows: one declaration with all that it needs.

use crate::status::Status;
use crate::tests::is_row;
use std::test::Fail;

// Two types, a function on one of them, and applications of it, of which one is wrong.
const APPLICATIONS: &[u8] =
    b"1 #NS 0 A\n2 #NS 0 B\n3 #NS 0 f\n4 #NS 0 b\n5 #NS 0 x\n6 #NS 0 y\n0 #ES 0\n1 #EC 1\n2 #EC 2\n3 #EP #BD 0 1 1\n4 #EC 3\n5 #EC 4\n6 #EA 4 5\n7 #EC 5\n#AX 1 0\n#AX 2 0\n#AX 3 3\n#AX 4 2\n#DEF 5 1 6 O\n#DEF 6 1 7 O\n";

// What the function needs.
const FUNCTION: &[u8] =
    b"2.0.0\n1 #NS 0 A\n0 #ES 0\n#AX 1 0\n2 #NS 0 f\n1 #EC 1\n2 #EP #BD 0 1 1\n#AX 2 2\n";

#[test]
fn trimmed(rt: HostRuntime) -> Result<(), Fail> {
    let alloc = rt.alloc();
    let rows: [(&str, &[u8], &[u8], Status); 3] = [
        (
            "leancheck trim --name f",
            APPLICATIONS,
            FUNCTION,
            Status::AllYes,
        ),
        (
            "leancheck check",
            FUNCTION,
            b"yes axiom 0 A\n  axiom A\nyes axiom 1 f\n  axiom A\n  axiom f\nunits 2 yes 2 no 0 memory 0\n",
            Status::AllYes,
        ),
        (
            "leancheck trim --name zz",
            APPLICATIONS,
            b"unknown zz\n",
            Status::NoSuchName,
        ),
    ];
    for (line, bytes, written, status) in rows {
        assert!(rt; is_row(&rt, alloc, line, bytes, written, status)?, "{line}");
    }
    Ok(())
}
