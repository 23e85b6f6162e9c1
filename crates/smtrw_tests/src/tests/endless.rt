//! A standard input that never ends.

ghost use Rattle.std.specs.Prelude.{None, Some, Option, option_map};

use super::{ROOM, WORDS, answer};
use smt_io::{Failed, Inputs, MemSink, StartFault};
use smtrw_answers::{Status, TOO_LONG};
use std::alloc::Global;
use std::test::Fail;

/// Gives spaces, as many as there is room for.
#[derive(Drop)]
struct Endless {
    name: Option<String>,
    given: u64,
}

impl Inputs for Endless {
    ghost use Rattle.std.specs.Prelude.{None, Option, option_map, string_bytes};

    ghost text = { λ _ _. None };

    ghost begun = { λ e. option_map string_bytes e.name };

    ghost rest = { λ _. None };

    ghost faults = { λ _ _. 0 };

    ghost given = { λ e. e.given };

    fn begin(&mut self, alloc: Global, name: &str) -> Result<(), StartFault> {
        self.name = None;
        match String::from_str(alloc, name) {
            Ok(name) => {
                self.name = Some(name);
                Ok(())
            }
            Err(_) => Err(StartFault::Memory),
        }
    }

    fn read(&mut self, buffer: &mut [u8]) -> Result<usize, Failed> {
        buffer.fill(b' ');
        if self.name.is_none() {
            return Ok(0);
        }
        self.given = self.given.saturating_add(buffer.len() as u64);
        Ok(buffer.len())
    }
}

#[test]
fn an_endless_input_is_too_long(rt: HostRuntime) -> Result<(), Fail> {
    let alloc = rt.alloc();
    let mut inputs = Endless {
        name: None,
        given: 0,
    };
    let mut out = MemSink::new(alloc, 7, ROOM)?;
    let mut err = MemSink::new(alloc, 7, ROOM)?;
    let status = answer(alloc, WORDS, &mut inputs, &mut out, &mut err)?;
    assert_eq!(rt; status, Status::Refused(TOO_LONG));
    let said: &[u8] = b"smtrw: script refused: 2 TooLong at command 0, line 0, byte 67108864\n";
    assert!(rt; err.bytes() == said);
    assert!(rt; out.bytes().is_empty());
    Ok(())
}
