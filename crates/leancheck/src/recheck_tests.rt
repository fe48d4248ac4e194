//! Rows: a library and changes of it.

use crate::status::Status;
use crate::tests::is_row;
use std::test::Fail;

// An axiom, a definition by it and another axiom; then the first axiom is a type that is no proposition.
const CHANGED_AXIOM: &[u8] =
    b"1 #NS 0 q\n2 #NS 0 c\n3 #NS 0 d\n0 #ES 0\n1 #EC 1\n#AX 1 0\n#DEF 2 0 1 O\n#AX 3 0\n#GO\n1 #US 0\n2 #ES 1\n#AX 1 2\n";

// A type, and its constructor in the next part.
const PARTED_BLOCK: &[u8] =
    b"1 #NS 0 T\n2 #NS 1 c\n1 #US 0\n0 #ES 1\n1 #EC 1\n#IND 1 0 0 0 0 0 1 1 1 2\n#GO\n#CTOR 2 1 1 0 0 0\n";

// A block, and the same again with its lines in another order.
const BLOCK_AGAIN: &[u8] =
    b"1 #NS 0 T\n2 #NS 1 c\n1 #US 0\n0 #ES 1\n1 #EC 1\n#IND 1 0 0 0 0 0 1 1 1 2\n#CTOR 2 1 1 0 0 0\n#GO\n#CTOR 2 1 1 0 0 0\n#IND 1 0 0 0 0 0 1 1 1 2\n";

// A block, and the same again with its constructor twice.
const TWICE_IN_A_PART: &[u8] =
    b"1 #NS 0 T\n2 #NS 1 c\n1 #US 0\n0 #ES 1\n1 #EC 1\n#IND 1 0 0 0 0 0 1 1 1 2\n#CTOR 2 1 1 0 0 0\n#GO\n#IND 1 0 0 0 0 0 1 1 1 2\n#CTOR 2 1 1 0 0 0\n#CTOR 2 1 1 0 0 0\n";

// A definition that comes to need an axiom of its own change.
const NEEDS_WHAT_COMES_LAST: &[u8] =
    b"1 #NS 0 q\n2 #NS 0 c\n3 #NS 0 d\n0 #ES 0\n1 #EC 1\n2 #EC 3\n#AX 1 0\n#DEF 2 0 1 O\n#GO\n#AX 3 0\n#DEF 2 0 2 O\n";

#[test]
fn rechecked(rt: HostRuntime) -> Result<(), Fail> {
    let alloc = rt.alloc();
    let rows: [(&[u8], &[u8], Status); 15] = [
        (
            CHANGED_AXIOM,
            b"yes axiom 0 q\n  axiom q\nyes def 1 c\n  axiom q\nyes axiom 2 d\n  axiom d\nunits 3 yes 3 no 0 memory 0\nchecked 3\nyes axiom 0 q\n  axiom q\nno def 1 c\n  why ValueType\n  axiom q\nyes axiom 2 d\n  axiom d\nunits 3 yes 2 no 1 memory 0\nchecked 2\n",
            Status::SomeNo,
        ),
        (
            b"#GO\n",
            b"units 0 yes 0 no 0 memory 0\nchecked 0\nunits 0 yes 0 no 0 memory 0\nchecked 0\n",
            Status::AllYes,
        ),
        // Names and terms of an earlier part, and a part without units.
        (
            b"1 #NS 0 q\n0 #ES 0\n#GO\n#AX 1 0\n#GO\n",
            b"units 0 yes 0 no 0 memory 0\nchecked 0\nyes axiom 0 q\n  axiom q\nunits 1 yes 1 no 0 memory 0\nchecked 1\nyes axiom 0 q\n  axiom q\nunits 1 yes 1 no 0 memory 0\nchecked 0\n",
            Status::AllYes,
        ),
        (
            b"",
            b"units 0 yes 0 no 0 memory 0\nchecked 0\n",
            Status::AllYes,
        ),
        (
            b"#GO",
            b"units 0 yes 0 no 0 memory 0\nchecked 0\nunits 0 yes 0 no 0 memory 0\nchecked 0\n",
            Status::AllYes,
        ),
        (
            b"1 #NS 0 q\n0 #ES 0\n#AX 1 0\n#GO\n#AX 1 0\n",
            b"yes axiom 0 q\n  axiom q\nunits 1 yes 1 no 0 memory 0\nchecked 1\nyes axiom 0 q\n  axiom q\nunits 1 yes 1 no 0 memory 0\nchecked 0\n",
            Status::AllYes,
        ),
        (
            BLOCK_AGAIN,
            b"yes block 0 T\nunits 1 yes 1 no 0 memory 0\nchecked 1\nyes block 0 T\nunits 1 yes 1 no 0 memory 0\nchecked 0\n",
            Status::AllYes,
        ),
        (
            NEEDS_WHAT_COMES_LAST,
            b"yes axiom 0 q\n  axiom q\nyes def 1 c\n  axiom q\nunits 2 yes 2 no 0 memory 0\nchecked 2\nyes axiom 0 q\n  axiom q\nno def 1 c\n  why UnknownConstant\nyes axiom 2 d\n  axiom d\nunits 3 yes 2 no 1 memory 0\nchecked 2\n",
            Status::SomeNo,
        ),
        (
            TWICE_IN_A_PART,
            b"bad line 11 RepeatedMember\n",
            Status::BadFile,
        ),
        // Open in both parts: the first such line. Another fault comes before it.
        (
            b"1 #NS 0 T\n2 #NS 1 c\n1 #US 0\n0 #ES 1\n1 #EC 1\n#IND 1 0 0 0 0 0 1 1 1 2\n#GO\n#IND 1 0 0 0 0 0 1 1 1 2\n",
            b"bad line 6 BlockOpen\n",
            Status::BadFile,
        ),
        (
            b"1 #NS 0 T\n2 #NS 1 c\n1 #US 0\n0 #ES 1\n1 #EC 1\n#IND 1 0 0 0 0 0 1 1 1 2\n#GO\n#AX 9 0\n",
            b"bad line 8 IndexUnknown\n",
            Status::BadFile,
        ),
        (PARTED_BLOCK, b"bad line 6 BlockOpen\n", Status::BadFile),
        (b"#GO on\n", b"bad line 1 ExtraField\n", Status::BadFile),
        (b"#GO\n2.0.0\n", b"bad line 2 BadNumber\n", Status::BadFile),
        (
            b"1 #NS 0 q\n#BUD 1 4\n",
            b"bad line 2 UnknownTag\n",
            Status::BadFile,
        ),
    ];
    for (bytes, written, status) in rows {
        assert!(rt; is_row(&rt, alloc, "leancheck recheck", bytes, written, status)?);
    }
    Ok(())
}
