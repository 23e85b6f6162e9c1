//! Texts of the host: files and the standard streams.
ghost use Rattle.std.specs.Prelude.{◌≡◌, ℕ, ◌≤◌, None, length, IfOk};
ghost use Rattle.smt_io.specs.Host.{Host, new_host, host_begun, host_faults};

use crate::fault_counts::FaultCounts;
use crate::inputs::{Inputs, StartFault};
use crate::sink::{Failed, Sink};
use std::alloc::{AllocError, Global};
use std::io::{Read, Write};
use std::marker::Model;
use std::rt::Files;
use std::{fs, io};

// What a text is read from.
#[derive(Drop)]
enum Stream<F, R> {
    Closed,
    File(F),
    Standard(R),
}

impl<F: Read, R: Read> Stream<F, R> {
    fn read(&mut self, buf: &mut [u8]) -> io::Result<usize>
        ensures { IfOk result (λ n. n ≤ length buf.new) }
    {
        match self {
            Stream::Closed => Ok(0),
            Stream::File(file) => file.read(buf),
            Stream::Standard(input) => input.read(buf),
        }
    }
}

/// The files of the host by their names, and standard input by the name `-`. It tells no text, and
/// keeps a count of faults for each name that was given to `begin`.
#[derive(Drop)]
pub struct HostInputs<R: Files + Input + Drop> {
    rt: R,
    counts: FaultCounts,
    begun: Option<usize>,
    stream: Stream<R::File, R::Reader>,
    given: u64,
}

impl<R: Files + Input + Drop> Model for HostInputs<R> {
    ghost use Rattle.smt_io.specs.Host.{Host};
    ghost use Rattle.smt_io.specs.NameCounts.{IsPlaceOfName};

    ghost Value = { Host };

    ghost view = { λ s. record { counts = s.counts; begun = s.begun; given = s.given } };

    ghost invariant = { λ s. IsPlaceOfName s.begun s.counts };
}

impl<R: Files + Input + Drop> HostInputs<R> {
    /// The texts that the runtime reaches. Every count of faults is 0.
    pub fn new(alloc: Global, rt: R) -> HostInputs<R>
        ensures { result ≡ new_host }
    {
        HostInputs {
            rt,
            counts: FaultCounts::new(alloc),
            begun: None,
            stream: Stream::Closed,
            given: 0,
        }
    }
}

// Opens the file of that name, or standard input.
fn open<R: Files + Input>(rt: &R, name: &str) -> io::Result<Stream<R::File, R::Reader>> {
    if name == "-" {
        return Ok(Stream::Standard(rt.reader()));
    }
    let file = fs::open(rt, name)?;
    Ok(Stream::File(file))
}

impl<R: Files + Input + Drop> Inputs for HostInputs<R> {
    ghost text = { λ _ _. None };

    ghost begun = { host_begun };

    ghost rest = { λ _. None };

    ghost faults = { host_faults };

    ghost given = { λ s. s.given };

    fn begin(&mut self, _alloc: Global, name: &str) -> Result<(), StartFault> {
        self.begun = None;
        self.stream = Stream::Closed;
        let place = match self.counts.place_for(name) {
            Ok(place) => place,
            Err(AllocError) => return Err(StartFault::Memory),
        };
        match open(&self.rt, name) {
            Ok(stream) => {
                self.stream = stream;
                self.begun = Some(place);
                Ok(())
            }
            Err(_) => {
                self.counts.raise_at(Some(place));
                Err(StartFault::Failed)
            }
        }
    }

    fn read(&mut self, buf: &mut [u8]) -> Result<usize, Failed> {
        let Some(place) = self.begun else {
            return Ok(0);
        };
        match self.stream.read(buf) {
            Ok(n) => {
                self.given = self.given.saturating_add(n as u64);
                Ok(n)
            }
            Err(_) => {
                self.counts.raise_at(Some(place));
                Err(Failed)
            }
        }
    }
}

/// A writer of the host. It tells no byte. A write that takes nothing of a piece that isn't empty is
/// a fault. Contracts see its count of faults.
#[derive(Drop)]
pub struct HostSink<W: Write + Drop> {
    writer: W,
    faults: u64,
}

impl<W: Write + Drop> Model for HostSink<W> {
    ghost use Rattle.std.specs.Prelude.{ℕ};

    ghost Value = { ℕ };

    ghost view = { λ s. s.faults };
}

impl<W: Write + Drop> HostSink<W> {
    /// A sink over the writer, whose count of faults is 0.
    pub fn new(writer: W) -> HostSink<W>
        ensures { result ≡ 0 }
    {
        HostSink { writer, faults: 0 }
    }
}

impl<W: Write + Drop> Sink for HostSink<W> {
    ghost sent = { λ _. None };

    ghost flushed = { λ _. None };

    ghost faults = { λ count. count };

    fn write(&mut self, piece: &[u8]) -> Result<usize, Failed> {
        match self.writer.write(piece) {
            Ok(n) if n > 0 || piece.is_empty() => Ok(n),
            _ => {
                self.faults = self.faults.saturating_add(1);
                Err(Failed)
            }
        }
    }

    fn flush(&mut self) -> Result<(), Failed> {
        match self.writer.flush() {
            Ok(()) => Ok(()),
            Err(_) => {
                self.faults = self.faults.saturating_add(1);
                Err(Failed)
            }
        }
    }
}
