//! The file of a session, taken apart.
ghost use Rattle.std.specs.Prelude.{◌≡◌};
ghost use Rattle.session_journal.specs.declared.files.FileStop.TheVariants.{OutOfMemory as no_memory};

use qws_base::{Bytes, Size};
use std::alloc::{AllocError, AllocFailed};
use std::marker::Model;

/// The comment lines of a file, each as the bytes behind its `#`. Contracts see a list of lists of bytes.
#[derive(Debug, Drop)]
pub struct Lines {
    lines: Vec<Bytes>,
}

impl Model for Lines {
    ghost use Rattle.std.specs.Prelude.{ℕ, List};

    ghost Value = { List (List ℕ) };

    ghost view = { λ l. l.lines.items };
}

impl Lines {
    /// The lines of a vector. It takes no memory.
    pub fn of(v: Vec<Bytes>) -> Lines
        ensures { result ≡ v.items }
    {
        Lines { lines: v }
    }

    /// The lines in order.
    pub fn as_slice(&self) -> &[Bytes]
        ensures { result.now ≡ self.now }
    {
        self.lines.as_slice()
    }
}

/// A raw PPM file of Netpbm: its width and height in pixels, its comment lines, and its raster of three bytes a pixel, red,
/// green and blue, the pixels by rows.
#[derive(Debug, Drop)]
pub struct File {
    pub size: Size,
    pub lines: Lines,
    pub raster: Bytes,
}

/// Why bytes weren't read as a file.
#[derive(Clone, Copy, Debug, PartialEq, Eq)]
pub enum FileStop {
    /// They are no file. `at` is the length of the longest prefix of them with which some file begins.
    Bad { at: usize },
    /// No memory was there.
    OutOfMemory,
}

impl From<AllocError> for FileStop {
    ghost from_gives = { λ _ stop. stop ≡ no_memory };

    fn from(_: AllocError) -> Self {
        FileStop::OutOfMemory
    }
}

impl<T: Drop> From<AllocFailed<T>> for FileStop {
    ghost from_gives = { λ _ stop. stop ≡ no_memory };

    fn from(_: AllocFailed<T>) -> Self {
        FileStop::OutOfMemory
    }
}
