//! Rows: what the pages state of commands and files. `docs/check.py --write` writes this table.

use crate::status::Status;
use crate::tests::is_row;
use std::test::Fail;

// Words, input, output, status.
const ROWS: [(&str, &[u8], &[u8], Status); 43] = [
    (
        "leancheck check",
        b"2.0.0\n1 #NS 0 p\n2 #NS 0 id\n0 #ES 0\n1 #EV 0\n2 #EV 1\n3 #EP #BD 0 1 2\n4 #EP #BD 1 0 3\n5 #EL #BD 0 1 1\n6 #EL #BD 1 0 5\n#THM 2 4 6\n",
        b"yes thm 0 id\nunits 1 yes 1 no 0 memory 0\n",
        Status::AllYes,
    ),
    (
        "leancheck check",
        b"1 #NS 0 q\n2 #NS 0 c\n0 #ES 0\n1 #EC 1\n#AX 1 0\n#AX 1 0\n#DEF 2 0 1 O\n",
        b"yes axiom 0 q\n  axiom q\nno axiom 1 q\n  why DuplicateName\n  axiom q\nyes def 2 c\n  axiom q\nunits 3 yes 2 no 1 memory 0\n",
        Status::SomeNo,
    ),
    (
        "leancheck trim --name f",
        b"2.0.0\n1 #NS 0 A\n2 #NS 0 B\n3 #NS 0 C\n4 #NS 0 b\n5 #NS 0 f\n6 #NS 0 g\n7 #NS 0 h\n10 #ES 0\n11 #EC 1\n12 #EC 2\n13 #EC 3\n14 #EC 4\n15 #EV 0\n20 #EP #BI 7 11 11\n21 #EL #BI 7 11 15\n#BUD 5 1000\n#AX 1 10\n#AX 2 10\n#DEF 3 10 20 R 1\n#AX 4 12\n#THM 5 13 21\n#THM 6 12 14\n#BUD 5 2000\n",
        b"2.0.0\n1 #NS 0 A\n0 #ES 0\n#AX 1 0\n2 #NS 0 C\n1 #EC 1\n2 #EP #BD 0 1 1\n#DEF 2 0 2 R 1\n3 #NS 0 f\n3 #EC 2\n4 #EV 0\n5 #EL #BD 0 1 4\n#THM 3 3 5\n#BUD 3 1000\n",
        Status::AllYes,
    ),
    (
        "leancheck trim --name p",
        b"1 #NS 0 p\n2 #NS 0 id\n0 #ES 0\n1 #EV 0\n2 #EV 1\n3 #EP #BD 0 1 2\n4 #EP #BD 1 0 3\n5 #EL #BD 0 1 1\n6 #EL #BD 1 0 5\n#THM 2 4 6\n",
        b"unknown p\n",
        Status::NoSuchName,
    ),
    (
        "leancheck recheck",
        b"1 #NS 0 P\n2 #NS 0 p\n3 #NS 0 T\n4 #NS 0 t\n0 #ES 0\n1 #EC 1\n2 #EC 2\n3 #EP #BD 0 1 1\n4 #EV 0\n5 #EL #BD 0 1 4\n#AX 1 0\n#AX 2 1\n#THM 3 1 2\n#THM 4 3 5\n#GO\n6 #EL #BD 0 1 2\n#THM 4 3 6\n#GO\n1 #US 0\n7 #ES 1\n#AX 1 7\n#GO\n",
        b"yes axiom 0 P\n  axiom P\nyes axiom 1 p\n  axiom P\n  axiom p\nyes thm 2 T\n  axiom P\n  axiom p\nyes thm 3 t\n  axiom P\nunits 4 yes 4 no 0 memory 0\nchecked 4\nyes axiom 0 P\n  axiom P\nyes axiom 1 p\n  axiom P\n  axiom p\nyes thm 2 T\n  axiom P\n  axiom p\nyes thm 3 t\n  axiom P\n  axiom p\nunits 4 yes 4 no 0 memory 0\nchecked 1\nyes axiom 0 P\n  axiom P\nyes axiom 1 p\n  axiom P\n  axiom p\nno thm 2 T\n  why TheoremNotProp\n  axiom P\n  axiom p\nno thm 3 t\n  why TheoremNotProp\n  axiom P\n  axiom p\nunits 4 yes 2 no 2 memory 0\nchecked 4\nyes axiom 0 P\n  axiom P\nyes axiom 1 p\n  axiom P\n  axiom p\nno thm 2 T\n  why TheoremNotProp\n  axiom P\n  axiom p\nno thm 3 t\n  why TheoremNotProp\n  axiom P\n  axiom p\nunits 4 yes 2 no 2 memory 0\nchecked 0\n",
        Status::SomeNo,
    ),
    (
        "leancheck session",
        b"2.0.0\n1 #NS 0 P\n0 #ES 0\n#AX 1 0\n#GO\n2.0.0\n1 #NS 0 t\n2 #NS 0 P\n0 #EC 2\n1 #EP #BD 0 0 0\n2 #EV 0\n3 #EL #BD 0 0 2\n#THM 1 1 3\n#GO\n1 #NS 0 P\n2 #NS 0 t\n3 #NS 0 u\n0 #EC 1\n1 #EP #BD 0 0 0\n2 #EV 0\n3 #EL #BD 0 0 2\n4 #EC 2\n#THM 2 1 3\n#THM 3 1 4\n",
        b"submission 0\nyes axiom 0 P\n  axiom P\nsubmission 1\nyes thm 1 t\n  axiom P\nsubmission 2\nno thm 2 t\n  why DuplicateName\n  axiom P\nyes thm 3 u\n  axiom P\nunits 4 yes 3 no 1 memory 0\n",
        Status::SomeNo,
    ),
    (
        "leancheck check",
        b"2.0.0\n1 #NS 0 not_a_proposition\n2 #NS 0 wrong_proof\n3 #NS 0 right_proof\n4 #NS 0 open_term\n5 #NS 0 p\n6 #NS 0 h\n0 #ES 0\n1 #EV 0\n2 #EV 1\n3 #EP #BD 6 1 2\n4 #EP #BD 5 0 3\n5 #EL #BD 6 1 1\n6 #EL #BD 5 0 5\n7 #EL #BD 5 0 1\n#THM 1 0 0\n#THM 2 4 7\n#THM 3 4 6\n#THM 3 4 6\n#THM 4 1 6\n",
        b"no thm 0 not_a_proposition\n  why TheoremNotProp\nno thm 1 wrong_proof\n  why ValueType\nyes thm 2 right_proof\nno thm 3 right_proof\n  why DuplicateName\nno thm 4 open_term\n  why LooseVariable\nunits 5 yes 1 no 4 memory 0\n",
        Status::SomeNo,
    ),
    (
        "leancheck check",
        b"3.0.0\n",
        b"bad line 1 BadVersion\n",
        Status::BadFile,
    ),
    (
        "leancheck check",
        b"2.1\n",
        b"bad line 1 BadNumber\n",
        Status::BadFile,
    ),
    (
        "leancheck check",
        b"x\n",
        b"bad line 1 BadNumber\n",
        Status::BadFile,
    ),
    (
        "leancheck check",
        b"2.0.0 x\n",
        b"bad line 1 BadNumber\n",
        Status::BadFile,
    ),
    (
        "leancheck check",
        b"2.0.0\n2.0.0\n",
        b"bad line 2 BadNumber\n",
        Status::BadFile,
    ),
    (
        "leancheck check",
        b"2\n",
        b"bad line 1 MissingField\n",
        Status::BadFile,
    ),
    (
        "leancheck check",
        b"#ES 0\n",
        b"bad line 1 UnknownTag\n",
        Status::BadFile,
    ),
    (
        "leancheck check",
        b"5 #AX 0 0\n",
        b"bad line 1 UnknownTag\n",
        Status::BadFile,
    ),
    (
        "leancheck check",
        b"0 #EQ 1\n",
        b"bad line 1 UnknownTag\n",
        Status::BadFile,
    ),
    (
        "leancheck check",
        b"4294967296 #EQ\n",
        b"bad line 1 NumberTooLarge\n",
        Status::BadFile,
    ),
    (
        "leancheck check",
        b"0 #EV 4294967296\n",
        b"bad line 1 NumberTooLarge\n",
        Status::BadFile,
    ),
    (
        "leancheck check",
        b"1 #NI 0 18446744073709551616\n",
        b"bad line 1 NumberTooLarge\n",
        Status::BadFile,
    ),
    (
        "leancheck check",
        b"1 #NS 0 a\n#BUD 1 18446744073709551616\n",
        b"bad line 2 NumberTooLarge\n",
        Status::BadFile,
    ),
    (
        "leancheck check",
        b"1 #NS 0 a\n#BUD 1\n",
        b"bad line 2 MissingField\n",
        Status::BadFile,
    ),
    (
        "leancheck check",
        b"1 #NS 0 a\n#BUD\n",
        b"bad line 2 MissingField\n",
        Status::BadFile,
    ),
    (
        "leancheck check",
        b"1 #NS 0 a\n0 #BUD 1 5\n",
        b"bad line 2 UnknownTag\n",
        Status::BadFile,
    ),
    (
        "leancheck check",
        b"#BUD 1 5\n1 #NS 0 a\n",
        b"bad line 1 IndexUnknown\n",
        Status::BadFile,
    ),
    (
        "leancheck check",
        b"0 #ES 0\n1 #EA 0\n",
        b"bad line 2 MissingField\n",
        Status::BadFile,
    ),
    (
        "leancheck check",
        b"0 #ES 0 0\n",
        b"bad line 1 ExtraField\n",
        Status::BadFile,
    ),
    (
        "leancheck check",
        b"0 #EA 0 0\n",
        b"bad line 1 IndexUnknown\n",
        Status::BadFile,
    ),
    (
        "leancheck check",
        b"0 #ES 1\n",
        b"bad line 1 IndexUnknown\n",
        Status::BadFile,
    ),
    (
        "leancheck check",
        b"0 #NS 0 a\n",
        b"bad line 1 IndexTaken\n",
        Status::BadFile,
    ),
    (
        "leancheck check",
        b"0 #US 0\n",
        b"bad line 1 IndexTaken\n",
        Status::BadFile,
    ),
    (
        "leancheck check",
        b"0 #ES 0\n\n0 #ES 0\n",
        b"bad line 3 IndexTaken\n",
        Status::BadFile,
    ),
    (
        "leancheck check",
        b"0 #ELS 6\n",
        b"bad line 1 BadHex\n",
        Status::BadFile,
    ),
    (
        "leancheck check",
        b"0 #ELS C3\n",
        b"bad line 1 BadUtf8\n",
        Status::BadFile,
    ),
    (
        "leancheck check",
        b"0 #ES 0\n1 #EL #BX 0 0 0\n",
        b"bad line 2 BadWord\n",
        Status::BadFile,
    ),
    (
        "leancheck check",
        b"0 #ES 0\n#DEF 0 0 0 Q\n",
        b"bad line 2 BadWord\n",
        Status::BadFile,
    ),
    (
        "leancheck check",
        b"0 #ES 0\n#DEF 0 0 0 R\n",
        b"bad line 2 MissingField\n",
        Status::BadFile,
    ),
    (
        "leancheck check",
        b"1 #NS 0 T\n0 #ES 0\n#IND 1 0 0 0 0 0 2 1\n",
        b"bad line 3 BadCount\n",
        Status::BadFile,
    ),
    (
        "leancheck check",
        b"1 #NS 0 T\n0 #ES 0\n#IND 1 0 0 0 0 0 1 0 0\n",
        b"bad line 3 BadCount\n",
        Status::BadFile,
    ),
    (
        "leancheck check",
        b"1 #NS 0 T\n0 #ES 0\n#IND 1 0 0 0 0 0 1 1 0\n#IND 1 0 0 0 0 0 1 1 0\n",
        b"bad line 4 RepeatedMember\n",
        Status::BadFile,
    ),
    (
        "leancheck check",
        b"1 #NS 0 T\n2 #NS 1 mk\n0 #ES 0\n#IND 1 0 0 0 0 0 1 1 1 2\n",
        b"bad line 4 BlockOpen\n",
        Status::BadFile,
    ),
    (
        "leancheck check",
        b"1 #NS 0 T\n2 #NS 0 c\n0 #ES 0\n#CTOR 2 0 1 0 0 0\n",
        b"bad line 4 BlockOpen\n",
        Status::BadFile,
    ),
    (
        "leancheck check",
        b"1 #NS 0 p\n2 #NS 0 id\n0 #ES 0\n1 #EV 0\n2 #EV 1\n3 #EP #BD 0 1 2\n4 #EP #BD 1 0 3\n5 #EL #BD 1 0 1\n#THM 2 4 5\n",
        b"no thm 0 id\n  why ValueType\nunits 1 yes 0 no 1 memory 0\n",
        Status::SomeNo,
    ),
    (
        "leancheck replay",
        b"2.0.0\n1 #NS 0 P\n0 #ES 0\n#AX 1 0\n2 #NS 0 t\n1 #EV 0\n2 #EV 1\n3 #EP #BD 0 1 2\n4 #EL #BD 0 0 3\n5 #EC 1\n6 #EA 4 5\n7 #EL #BD 0 5 1\n#THM 2 6 7\n#TR\n#AT 0\n1 #US 0\n8 #ES 1\n0 #TY T-Sort 0 8\n#OK 0\n#AT 1\n1 #TY T-Sort 0 8\n9 #EF 0 0\n2 #TY T-Local 9 0\n10 #EP #BD 0 9 9\n2 #UIM 0 0\n11 #ES 2\n12 #EF 1 9\n3 #TY T-Pi 10 11 12 2 2\n13 #EP #BD 0 0 11\n4 #TY T-Lam 4 13 9 1 3\n5 #TY T-Const 5 0\n6 #TY T-App 6 11 4 5\n14 #EF 0 5\n7 #TY T-Local 14 5\n15 #EP #BD 0 5 5\n8 #TY T-Lam 7 15 14 5 7\n9 #RD R-Beta 6 15\n10 #CV E-Reduce 15 6 9\n#OK 6 8 10\n",
        b"ok 0 P\nok 1 t\nunits 2 ok 2 bad 0 none 0 block 0\n",
        Status::AllYes,
    ),
];

#[test]
fn rows_of_the_pages(rt: HostRuntime) -> Result<(), Fail> {
    let alloc = rt.alloc();
    for (line, bytes, written, status) in ROWS {
        assert!(rt; is_row(&rt, alloc, line, bytes, written, status)?);
    }
    Ok(())
}
