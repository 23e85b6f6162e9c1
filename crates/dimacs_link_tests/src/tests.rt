//! Texts of solvers with their answers, or with the places of their faults, which were worked out by hand.

use dimacs_link::{Answer, AnswerFault, read_answer};
use std::alloc::Global;
use std::process::Abort;
use std::test::Fail;

#[test]
fn reads_truth_values(rt: HostRuntime) -> Result<(), Fail> {
    let text = b"c a solver\r\nv 1 -2\r\ns SATISFIABLE\r\nv  3 0\r\n";
    let Answer::Sat(values) = read_answer(rt.alloc(), text, 4)? else {
        panic!(rt; "no truth values");
    };
    assert!(rt; values.len() == 4);
    assert!(rt; values.get(0) && !values.get(1) && values.get(2) && !values.get(3));
    Ok(())
}

#[test]
fn reads_other_ends(rt: HostRuntime) -> Result<(), Fail> {
    let alloc = rt.alloc();
    let unsat = read_answer(alloc, b"c x\n\ns UNSATISFIABLE", 2)?;
    assert!(rt; matches!(unsat, Answer::Unsat));
    let unknown = read_answer(alloc, b"s UNKNOWN\n", 2)?;
    assert!(rt; matches!(unknown, Answer::Unknown));
    Ok(())
}

fn assert_fault(rt: &impl Abort, alloc: Global, text: &[u8], line: u64, byte: u64) {
    let fault = read_answer(alloc, text, 2).err();
    assert!(rt; fault == Some(AnswerFault::Form { line, byte }));
}

#[test]
fn finds_the_first_fault(rt: HostRuntime) -> Result<(), Fail> {
    let table = [
        (b"s SATISFIABLE\nv 1 3 0\n".as_slice(), 2, 18),
        (b"s SATISFIABLE\nv 1 -1 0\n".as_slice(), 2, 18),
        (b"s SATISFIABLE\nv 2\n".as_slice(), 3, 18),
        (b"v 1 0\n\ns UNSATISFIABLE\n".as_slice(), 3, 7),
        (
            b"s SATISFIABLE\nv 340282366920938463463374607431768211457 0\n".as_slice(),
            2,
            16,
        ),
    ];
    for (text, line, byte) in table {
        assert_fault(&rt, rt.alloc(), text, line, byte);
    }
    Ok(())
}
