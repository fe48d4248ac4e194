//! Rows: budgets of units, and allowed axioms.

use crate::status::Status;
use crate::tests::is_row;
use std::test::Fail;

// Two definitions of one level parameter, of which the second has the wrong type; each costs 5
// steps. What the file says of the first one's budget is put behind.
const FOUR_STEPS: &[u8] =
    b"1 #NS 0 u\n2 #NS 0 a\n3 #NS 0 b\n1 #UP 1\n2 #UIM 1 0\n3 #US 0\n4 #US 1\n0 #ES 2\n1 #ES 3\n2 #ES 4\n#DEF 2 1 0 A 1\n#DEF 3 2 0 A 1\n#BUD 2 4\n";

const FIVE_STEPS: &[u8] =
    b"1 #NS 0 u\n2 #NS 0 a\n3 #NS 0 b\n1 #UP 1\n2 #UIM 1 0\n3 #US 0\n4 #US 1\n0 #ES 2\n1 #ES 3\n2 #ES 4\n#DEF 2 1 0 A 1\n#DEF 3 2 0 A 1\n#BUD 2 5\n";

// An axiom, once more, and a definition of its type.
const AXIOM_TWICE: &[u8] =
    b"1 #NS 0 q\n2 #NS 0 c\n0 #ES 0\n1 #EC 1\n#AX 1 0\n#AX 1 0\n#DEF 2 0 1 O\n";

#[test]
fn own_budgets(rt: HostRuntime) -> Result<(), Fail> {
    let alloc = rt.alloc();
    let rows: [(&[u8], &[u8]); 2] = [
        (
            FOUR_STEPS,
            b"no def 0 a\n  why steps\nno def 1 b\n  why ValueType\nunits 2 yes 0 no 2 memory 0\n",
        ),
        (
            FIVE_STEPS,
            b"yes def 0 a\nno def 1 b\n  why ValueType\nunits 2 yes 1 no 1 memory 0\n",
        ),
    ];
    for (bytes, written) in rows {
        assert!(rt;
            is_row(
                &rt,
                alloc,
                "leancheck check",
                bytes,
                written,
                Status::SomeNo
            )?
        );
    }
    Ok(())
}

#[test]
fn allowed_axioms(rt: HostRuntime) -> Result<(), Fail> {
    let alloc = rt.alloc();
    let rows: [(&str, &[u8]); 3] = [
        (
            "leancheck check --allow q",
            b"yes axiom 0 q\n  axiom q\nno axiom 1 q\n  why DuplicateName\n  axiom q\nyes def 2 c\n  axiom q\nunits 3 yes 2 no 1 memory 0\n",
        ),
        (
            "leancheck check --allow r",
            b"no axiom 0 q\n  why AxiomNotAllowed\n  axiom q\nno axiom 1 q\n  why DuplicateName\n  axiom q\nno def 2 c\n  why AxiomNotAllowed\n  axiom q\nunits 3 yes 0 no 3 memory 0\n",
        ),
        (
            "leancheck trial --units 5 --seed 1 --allow q",
            b"units 5 yes 0 no 5 memory 0\n",
        ),
    ];
    for (line, written) in rows {
        assert!(rt;
            is_row(&rt, alloc, line, AXIOM_TWICE, written, Status::SomeNo)?,
            "{line}"
        );
    }
    Ok(())
}
