//! Each line of the tables of negation normal form and and-inverter form, and formulas that are far larger as trees than
//! as nodes. Expected forms were worked out by hand.

mod terms;

use std::test::Fail;
use terms::{Tower, nodes_after};

/// No terms to begin with.
const NONE: Tower<'static> = Tower {
    start: b"",
    turn: b"",
    turns: 0,
};

#[test]
fn lines_of_negation_normal_form(rt: HostRuntime) -> Result<(), Fail> {
    let lines = b"
N T T               N ~T F
N F F               N ~F T
N a a               N ~a ~a
N =nm =nm           N ~=nm ~=nm
N #3nmn #3nmn       N ~#3nmn ~#3nmn
N ~~a a             N ~~~a ~a
N &3a~~bc &3abc     N ~&3a~bc |3~ab~c
N |3a~~bc |3abc     N ~|3a~bc &3~ab~c
N >ab |~ab          N ~>ab &a~b
N ^ab |&a~b&~ab     N ~^ab &|~ab|a~b
N =ab &|~ab|a~b     N ~=ab |&a~b&~ab
N ?abc &|~ab|ac     N ~?abc &|~a~b|a~c
N #ab |&a~b&~ab     N ~#ab &|~ab|a~b
N #3abc F           N ~#3abc T
N Ap>ap Ap|~ap      N ~Ap>ap Ep&a~p
N E3pq>pq E3pq|~pq  N ~E3pq>pq A3pq&p~q
";
    nodes_after(&rt, rt.alloc(), NONE, lines)?;
    Ok(())
}

#[test]
fn lines_of_and_inverter_form(rt: HostRuntime) -> Result<(), Fail> {
    let lines = b"
G T T                       G F F
G a a                       G ~=nm ~=nm
G ~a ~a                     G ~~a a
G &3a~~bc &3abc             G ~&ab ~&ab
G |3~abT ~&3a~b~T           G ~|ab &~a~b
G >ab ~&a~b                 G >a~b ~&ab
G =ab &~&a~b~&~ab           G ~=ab ~&~&a~b~&~ab
G ^ab ~&~&a~b~&~ab          G ~^ab &~&a~b~&~ab
G ?abc &~&a~b~&~a~c         G ?~ab~c &~&~a~b~&ac
G #ab ~&~&a~b~&~ab          G #3abc F
G Ap|ap Ap~&~a~p            G ~E3pq~~p ~E3pqp
";
    nodes_after(&rt, rt.alloc(), NONE, lines)?;
    Ok(())
}

#[test]
fn pairs_under_negation_normal_form(rt: HostRuntime) -> Result<(), Fail> {
    let pairs = Tower {
        start: b"x ~x",
        turn: b"&|Xa|Xb |&Y~a&Y~b",
        turns: 100,
    };
    assert!(rt; nodes_after(&rt, rt.alloc(), pairs, b"NXX N~XY")? == 607);
    Ok(())
}

#[test]
fn pairs_under_and_inverter_form(rt: HostRuntime) -> Result<(), Fail> {
    let pairs = Tower {
        start: b"x x",
        turn: b"&|Xa|Xb &~&~Y~a~&~Y~b",
        turns: 100,
    };
    assert!(rt; nodes_after(&rt, rt.alloc(), pairs, b"GXY G~X~Y")? == 907);
    Ok(())
}

#[test]
fn a_chain_of_exclusive_or(rt: HostRuntime) -> Result<(), Fail> {
    let normal = Tower {
        start: b"x x ~x",
        turn: b"^Xa |&Y~a&Za &|Za|Y~a",
        turns: 1000,
    };
    assert!(rt; nodes_after(&rt, rt.alloc(), normal, b"NXY N~XZ")? == 7005);
    let inverted = Tower {
        start: b"x x ~x",
        turn: b"^Xa ~&~&Y~a~&Za &~&Y~a~&Za",
        turns: 1000,
    };
    assert!(rt; nodes_after(&rt, rt.alloc(), inverted, b"GXY G~XZ")? == 7005);
    Ok(())
}

#[test]
fn a_million_nested_negations(rt: HostRuntime) -> Result<(), Fail> {
    let negations = Tower {
        start: b"a",
        turn: b"~X",
        turns: 1_000_000,
    };
    assert!(rt; nodes_after(&rt, rt.alloc(), negations, b"NXa N~X~a GXa G~X~a")? == 1_000_002);
    Ok(())
}
