//! Texts from outside, long texts, and each public function once.

ghost use Rattle.std.specs.Prelude.{◌<◌, ◌^◌, length};

use smt_lex::{Item, LexFault, Until, line_of, scan, symbol_text};
use std::alloc::Global;
use std::test::Fail;

// What is wrong with the text.
fn fault_of(alloc: Global, text: &[u8], until: Until) -> Result<Option<LexFault>, Fail>
    requires { length text.now < 2 ^ 32 }
{
    let bytes = text.to_vec(alloc)?;
    Ok(scan(alloc, bytes, until).err())
}

fn bad_byte(place: u32, line: u64) -> Option<LexFault> {
    Some(LexFault::BadByte { place, line })
}

fn bad_token(place: u32, line: u64) -> Option<LexFault> {
    Some(LexFault::BadToken { place, line })
}

fn open_text(place: u32, line: u64) -> Option<LexFault> {
    Some(LexFault::OpenText { place, line })
}

fn unbalanced(place: u32, line: u64) -> Option<LexFault> {
    Some(LexFault::Unbalanced { place, line })
}

#[test]
fn finds_the_first_fault(rt: HostRuntime) -> Result<(), Fail> {
    let table = [
        (b"(assert a".as_slice(), Until::End, unbalanced(9, 1)),
        (b")".as_slice(), Until::End, unbalanced(0, 1)),
        (b"007".as_slice(), Until::End, bad_token(0, 1)),
        (b"|a\\b|".as_slice(), Until::End, bad_byte(2, 1)),
        (b"(echo \"x)".as_slice(), Until::End, open_text(6, 1)),
        (b"[".as_slice(), Until::End, bad_byte(0, 1)),
        (b"a\n\n ; [\r\n01".as_slice(), Until::End, bad_token(9, 4)),
        (b"(exit) [".as_slice(), Until::Exit, None),
        (b"((exit)) [".as_slice(), Until::Exit, bad_byte(9, 1)),
        (b"(|exit|) [".as_slice(), Until::Exit, bad_byte(9, 1)),
    ];
    for (text, until, want) in table {
        assert!(rt; text.len() < 100);
        assert_eq!(rt; fault_of(rt.alloc(), text, until)?, want, "{text:?}");
    }
    Ok(())
}

const SCRIPT: &[u8] =
    b"(set-info :source |written by hand; x: |)\n(set-logic QF_BV)\n(declare-fun p () Bool)\n(declare-fun x () (_ BitVec 8))\n(declare-fun y () (_ BitVec 8))\n(assert (let ((.def_0 (ite p x y))) (let ((.def_1 (bvult .def_0 (_ bv3 8)))) .def_1)))\n(check-sat)\n(exit)";

// Where the lines of the script end, each with the `)` before it.
const LINE_ENDS: [usize; 7] = [41, 59, 83, 115, 147, 234, 246];

#[test]
fn cuts_a_script_anywhere(rt: HostRuntime) -> Result<(), Fail> {
    assert_eq!(rt; SCRIPT.len(), 253);
    let mut line = 1;
    for (i, _) in SCRIPT.iter().enumerate() {
        assert!(rt; line < 1000);
        if LINE_ENDS.contains(&i) {
            line += 1;
        }
        let length = i + 1;
        let want = match length {
            11 => bad_token(10, 1),
            19..=39 => open_text(18, 1),
            253 => None,
            _ if LINE_ENDS.contains(&length) || LINE_ENDS.contains(&i) => None,
            _ => unbalanced(length as u32, line),
        };
        assert_eq!(rt;
            fault_of(rt.alloc(), &SCRIPT[..length], Until::End)?,
            want,
            "{length}"
        );
    }
    Ok(())
}

#[test]
fn shows_a_forest(rt: HostRuntime) -> Result<(), Fail> {
    let bytes = b"(a |b c| (exit) \"x\"\"y\" 1.5)".to_vec(rt.alloc())?;
    let forest = scan(rt.alloc(), bytes, Until::Exit)?;
    let table = [
        (0, Item::Left, b"(".as_slice(), b"(".as_slice(), 9),
        (2, Item::Quoted, b"|b c|".as_slice(), b"b c".as_slice(), 3),
        (3, Item::Left, b"(".as_slice(), b"(".as_slice(), 6),
        (
            6,
            Item::Text,
            b"\"x\"\"y\"".as_slice(),
            b"\"x\"\"y\"".as_slice(),
            7,
        ),
        (8, Item::Right, b")".as_slice(), b")".as_slice(), 9),
    ];
    for (i, item, text, name, after) in table {
        assert!(rt; i < forest.len());
        assert!(rt; forest.item(i) == item && forest.after(i) == after, "{i}");
        assert!(rt; forest.text(i) == text && forest.name(i) == name, "{i}");
    }
    assert!(rt; forest.len() == 9);
    assert!(rt; forest.span(6).end == 22 && line_of(forest.bytes(), 5) == 1);
    Ok(())
}

#[test]
fn prints_symbols(rt: HostRuntime) -> Result<(), Fail> {
    let table = [
        (b"let".as_slice(), b"=|let|".as_slice()),
        (b"abc".as_slice(), b"=abc".as_slice()),
        (b"a b".as_slice(), b"=|a b|".as_slice()),
        (b"".as_slice(), b"=||".as_slice()),
        (b"set-option".as_slice(), b"=|set-option|".as_slice()),
        (b"9x".as_slice(), b"=|9x|".as_slice()),
    ];
    for (name, want) in table {
        assert!(rt; name.iter().all(|byte| *byte != b'|' && *byte != b'\\'));
        let mut out = vec![in rt.alloc(); b'=']?;
        symbol_text(rt.alloc(), name, &mut out)?;
        assert_eq!(rt; out.as_slice(), want);
    }
    Ok(())
}

#[test]
fn scans_a_million_lists(rt: HostRuntime) -> Result<(), Fail> {
    let million = 1_000_000;
    let mut nested = vec![in rt.alloc(); b'('; million]?;
    let closing = vec![in rt.alloc(); b')'; million]?;
    nested.extend_from_slice(&closing)?;
    assert!(rt; nested.len() == 2 * million);
    let forest = scan(rt.alloc(), nested, Until::Exit)?;
    assert!(rt; forest.len() == 2 * million);
    assert!(rt; forest.after(0) == 2 * million && forest.after(million - 1) == million + 1);
    Ok(())
}

#[test]
fn scans_long_tokens(rt: HostRuntime) -> Result<(), Fail> {
    for (mark, item) in [(b'a', Item::Word), (b'"', Item::Text), (b'|', Item::Quoted)] {
        let mut text = vec![in rt.alloc(); b'a'; 1_000_000]?;
        text.insert(0, mark)?;
        text.push(mark)?;
        assert!(rt; text.len() == 1_000_002);
        let forest = scan(rt.alloc(), text, Until::End)?;
        assert!(rt; forest.len() == 1);
        assert!(rt; forest.item(0) == item && forest.text(0).len() == 1_000_002);
    }
    Ok(())
}

#[test]
fn scans_spaces(rt: HostRuntime) -> Result<(), Fail> {
    for length in [67_108_864usize, 67_108_865] {
        let spaces = vec![in rt.alloc(); b' '; length]?;
        assert!(rt; length < 100_000_000 && spaces.len() == length);
        assert!(rt; scan(rt.alloc(), spaces, Until::Exit)?.len() == 0);
    }
    Ok(())
}

#[test]
fn refuses_any_bytes(rt: HostRuntime) -> Result<(), Fail> {
    let mut bytes = Vec::new(rt.alloc());
    for _ in 0..4096 {
        for byte in 0..=255u8 {
            bytes.push(byte)?;
        }
    }
    assert!(rt; bytes.len() == 1_048_576);
    assert!(rt; scan(rt.alloc(), bytes, Until::End).err() == bad_byte(0, 1));
    Ok(())
}
