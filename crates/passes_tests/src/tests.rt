//! Lists as they are written, with the number of their passes.

use pass_laws::{ListFault, Pass};
use passes::parse_list;

const NAMES: &str =
    "nnf,nnf,nnf,nnf,nnf,nnf,nnf,nnf,nnf,nnf,nnf,nnf,nnf,nnf,nnf,nnf,nnf,nnf,nnf,nnf,nnf,nnf,nnf,nnf,nnf,nnf,nnf,nnf,nnf,nnf,nnf,nnf";

const TOO_MANY: &str =
    "nnf,nnf,nnf,nnf,nnf,nnf,nnf,nnf,nnf,nnf,nnf,nnf,nnf,nnf,nnf,nnf,nnf,nnf,nnf,nnf,nnf,nnf,nnf,nnf,nnf,nnf,nnf,nnf,nnf,nnf,nnf,nnf,nnf";

/// How many passes a list has.
fn count_of(text: &str) -> Result<usize, ListFault> {
    Ok(parse_list(text)?.len())
}

#[test]
fn lists(rt: HostRuntime) {
    for (text, count) in [
        ("nnf", Ok(1)),
        ("simplify,nnf,aig,prenex,reads,shannon,selfsub", Ok(7)),
        (NAMES, Ok(32)),
        (TOO_MANY, Err(ListFault::BadPass)),
        ("", Err(ListFault::BadPass)),
        ("nnf,", Err(ListFault::BadPass)),
        ("nnf, aig", Err(ListFault::BadPass)),
        ("nnf,rules,nnf", Ok(3)),
        ("ite,cnf,rules", Ok(3)),
        ("rules,nnf,cnf", Err(ListFault::AfterRules)),
        ("ackermann,rules", Ok(2)),
        ("rules,ackermann", Err(ListFault::AfterRules)),
    ] {
        assert!(rt; count_of(text) == count, "{text}");
    }
}

#[test]
fn order(rt: HostRuntime) {
    let last = match parse_list("nnf,aig") {
        Ok(passes) if passes.len() == 2 => passes.pass(1),
        _ => Pass::Rules,
    };
    assert!(rt; last == Pass::Aig);
}
