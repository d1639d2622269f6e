//! What a check of a file tells.

/// Whether a file is that of a script, or what is wrong with it first.
#[derive(Clone, Copy, Debug, PartialEq, Eq)]
pub enum Verdict {
    /// It is the file of a history of the script's calls.
    Holds,
    /// Its picture has another size than the script's screen, this many columns and rows of pixels.
    BadScreen { w: u32, h: u32 },
    /// That comment line, counted from 1, isn't the text of the next call of its client with the reply due there; or it is
    /// the line behind the last, and calls of some client are left.
    BadEntry { line: u64 },
    /// That pixel, counted from 0 by rows, isn't the shown one.
    BadPixel { index: u64 },
}
