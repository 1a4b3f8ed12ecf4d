ghost use Rattle.std.specs.Prelude.{◌≡◌, None};

use crate::streams::{Failed, Sink, Source};
use std::io::{Read, Write};

/// A source over a reader, as standard input. It tells nothing of the bytes.
#[derive(Drop)]
pub struct ReaderSource<R> {
    reader: R,
    faults: u64,
}

impl<R: Read> ReaderSource<R> {
    pub fn new(reader: R) -> Self
        ensures { ⟦<ReaderSource<R> as Source>⟧.told result ≡ record { rest = None; faults = 0 } }
    {
        ReaderSource { reader, faults: 0 }
    }
}

impl<R: Read> Source for ReaderSource<R> {
    ghost told = { λ s. record { rest = None; faults = s.faults } };

    fn faults(&self) -> u64 {
        self.faults
    }

    fn read(&mut self, out: &mut [u8]) -> Result<usize, Failed> {
        match self.reader.read(out) {
            Ok(n) => Ok(n),
            Err(_) => {
                self.faults = self.faults.saturating_add(1);
                Err(Failed)
            }
        }
    }
}

/// A sink over a writer, as standard output. It tells nothing of the bytes.
#[derive(Drop)]
pub struct WriterSink<W> {
    writer: W,
    faults: u64,
}

impl<W: Write> WriterSink<W> {
    pub fn new(writer: W) -> Self
        ensures { ⟦<WriterSink<W> as Sink>⟧.told result ≡ record { taken = None; faults = 0 } }
    {
        WriterSink { writer, faults: 0 }
    }
}

impl<W: Write> Sink for WriterSink<W> {
    ghost told = { λ s. record { taken = None; faults = s.faults } };

    fn faults(&self) -> u64 {
        self.faults
    }

    fn write(&mut self, bytes: &[u8]) -> Result<usize, Failed> {
        let outcome = self.writer.write(bytes);
        let n = match outcome {
            Ok(n) => n,
            Err(_) => {
                self.faults = self.faults.saturating_add(1);
                return Err(Failed);
            }
        };
        if n == 0 && !bytes.is_empty() {
            self.faults = self.faults.saturating_add(1);
        }
        Ok(n)
    }
}
