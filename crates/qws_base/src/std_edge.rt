//! The edge: std's reader and writer as a source and a sink. They tell no bytes.
ghost use Rattle.std.specs.Prelude.{None};

use crate::streams::{Failed, Sink, Source};
use std::io::{Read, Write};

/// A reader of std as a source.
#[derive(Debug, Drop)]
pub struct StdSource<R> {
    reader: R,
    faults: u64,
}

impl<R> StdSource<R> {
    /// A source that hasn't failed yet.
    pub fn new(reader: R) -> Self {
        StdSource { reader, faults: 0 }
    }
}

impl<R: Read> Source for StdSource<R> {
    ghost left = { λ s. None };

    ghost faults = { λ s. s.faults };

    ghost reads = { λ s. 0 };

    fn read(&mut self, piece: &mut [u8]) -> Result<usize, Failed> {
        match self.reader.read(piece) {
            Ok(n) => Ok(n),
            Err(_) => {
                self.faults = self.faults.saturating_add(1);
                Err(Failed)
            }
        }
    }
}

/// A writer of std as a sink.
#[derive(Debug, Drop)]
pub struct StdSink<W> {
    writer: W,
    faults: u64,
}

impl<W> StdSink<W> {
    /// A sink that hasn't failed yet.
    pub fn new(writer: W) -> Self {
        StdSink { writer, faults: 0 }
    }
}

impl<W: Write> Sink for StdSink<W> {
    ghost written = { λ s. None };

    ghost faults = { λ s. s.faults };

    fn write(&mut self, piece: &[u8]) -> Result<usize, Failed> {
        match self.writer.write(piece) {
            Ok(n) if n > 0 || piece.is_empty() => Ok(n),
            _ => {
                self.faults = self.faults.saturating_add(1);
                Err(Failed)
            }
        }
    }
}
