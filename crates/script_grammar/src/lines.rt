//! The lines of calls, and why a line is bad.
ghost use Rattle.std.specs.Prelude.{◌≡◌};
ghost use Rattle.script_grammar.specs.declared.lines.ScriptStop.TheVariants.{OutOfMemory as no_memory};

use qws_base::{Bytes, Ink, OutOfMemory, Point, Rect, Rects, Rgb, Words};
use std::alloc::{AllocError, AllocFailed};
use std::marker::Model;

/// A list of points.
#[derive(Debug, Drop)]
pub struct Points {
    items: Vec<Point>,
}

impl Model for Points {
    ghost use Rattle.std.specs.Prelude.{List};
    ghost use Rattle.qws_base.specs.declared.points.Point.{Point};

    ghost Value = { List Point };

    ghost view = { λ p. p.items.items };
}

impl Points {
    /// The list of a vector. It takes no memory.
    pub fn of(v: Vec<Point>) -> Self
        ensures { result ≡ v.items }
    {
        Points { items: v }
    }

    /// What is in the list.
    pub fn as_slice(&self) -> &[Point]
        ensures { result.now ≡ self.now }
    {
        self.items.as_slice()
    }
}

/// How a line names a window.
#[derive(Debug, Drop)]
pub enum Window {
    /// By the name that a `create` of the same client gave.
    Named { name: Bytes },
    /// By its slot: `#` and 0 to 31, or 32 for no window.
    Numbered { slot: u32 },
}

/// What a client calls in a line, behind the client's number.
#[derive(Debug, Drop)]
pub enum LineCall {
    /// `create NAME LAYER`
    Create {
        name: Bytes,
        layer: u32,
    },
    /// `destroy WIN`
    Destroy {
        window: Window,
    },
    /// `region WIN OX OY` and 0 to 64 groups `X Y W H`
    Region {
        window: Window,
        origin: Point,
        rects: Rects,
    },
    /// `move WIN OX OY`
    Move {
        window: Window,
        origin: Point,
    },
    /// `raise WIN`
    Raise {
        window: Window,
    },
    /// `lower WIN`
    Lower {
        window: Window,
    },
    /// `shape W H CELLS`, a cell being `alpha * 2^24 + colour`
    Shape {
        w: u32,
        h: u32,
        cells: Words,
    },
    /// `cursor X Y`
    Cursor {
        at: Point,
    },
    /// `show 0` or `show 1`
    Show {
        shown: bool,
    },
    /// `join WORD`
    Join {
        channel: Bytes,
    },
    /// `leave WORD`
    Leave {
        channel: Bytes,
    },
    /// `send WORD WORD HEX`
    Send {
        channel: Bytes,
        message: Bytes,
        payload: Bytes,
    },
    /// `take`
    Take,
    /// `known WORD`
    Known {
        channel: Bytes,
    },
    /// `fill WIN X Y W H INK`
    Fill {
        window: Window,
        rect: Rect,
        ink: Ink,
    },
    /// `tile WIN X Y W H IMAGE`
    Tile {
        window: Window,
        rect: Rect,
        image: u32,
    },
    /// `blit WIN X Y IMAGE ALPHA`
    Blit {
        window: Window,
        at: Point,
        image: u32,
        alpha: u8,
    },
    /// `line WIN X0 Y0 X1 Y1 COLOUR`
    Line {
        window: Window,
        from: Point,
        to: Point,
        colour: Rgb,
    },
    /// `polyline WIN COLOUR` and 2 to 64 points `X Y`
    Polyline {
        window: Window,
        colour: Rgb,
        points: Points,
    },
    /// `polygon WIN INK` and 3 to 64 points `X Y`
    Polygon {
        window: Window,
        ink: Ink,
        points: Points,
    },
    /// `text WIN FONT X Y INK` and 1 to 256 codes
    Text {
        window: Window,
        font: u32,
        at: Point,
        ink: Ink,
        codes: Words,
    },
}

/// A line with a call: its client, and what the client calls.
#[derive(Debug, Drop)]
pub struct CallLine {
    pub client: u32,
    pub call: LineCall,
}

/// Why a line is bad. Where several causes apply, the first in this order is given.
#[derive(Clone, Copy, Debug, PartialEq, Eq)]
pub enum Cause {
    /// The line isn't of a form that may stand there, by its fixed words and its number of words.
    Form,
    /// A word isn't spelled as its kind.
    Number,
    /// A value or a length is out of its range.
    Range,
    /// The client, the font or the image isn't declared.
    Unknown,
    /// The latest font has the code.
    Repeated,
    /// The font lacks a code of a text.
    Missing,
    /// There are too many of a kind: fonts, images, or calls of a client.
    Many,
    /// The bytes end too early, or go on behind the line `end`.
    End,
}

/// Why no script was read.
#[derive(Clone, Copy, Debug, PartialEq, Eq)]
pub enum ScriptStop {
    /// The bytes are no script. The first bad line, counted from 1, and the first cause that applies to it.
    Bad { line: u64, cause: Cause },
    /// No memory was there.
    OutOfMemory,
}

impl From<AllocError> for ScriptStop {
    ghost from_gives = { λ _ e. e ≡ no_memory };

    fn from(_: AllocError) -> Self {
        ScriptStop::OutOfMemory
    }
}

impl<T: Drop> From<AllocFailed<T>> for ScriptStop {
    ghost from_gives = { λ _ e. e ≡ no_memory };

    fn from(_: AllocFailed<T>) -> Self {
        ScriptStop::OutOfMemory
    }
}

impl From<OutOfMemory> for ScriptStop {
    ghost from_gives = { λ _ e. e ≡ no_memory };

    fn from(_: OutOfMemory) -> Self {
        ScriptStop::OutOfMemory
    }
}
