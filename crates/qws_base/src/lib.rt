//! The types that all crates of the window server share, and the definitions that their contracts speak of.
#![tactic(auto)]

mod bounds;
mod cells;
mod colours;
mod commands;
mod gates;
mod inks;
mod journals;
mod laws;
mod lists;
mod memory;
mod pictures;
mod points;
mod replies;
mod std_edge;
mod streams;
mod windows;

pub use bounds::Bounds;
pub use cells::offset_in;
pub use colours::{Depth, Rgb, narrow, wide};
pub use commands::Command;
pub use gates::{Gate, NoGate, Place};
pub use inks::{Ink, after, after_at};
pub use journals::{Book, BookEntry, JournalEntry};
pub use laws::{
    all_allocated, equal_values_are_same, merges_by_order, narrow_of_wide, no_slot_is_free,
    one_owner, opaque_blend, other_commands_leave_windows, owners_are_told, rects_have_pixels,
    refused_stays, revisions_rise, transparent_blend, windows_stay_arranged,
};
pub use lists::{Bytes, OutOfMemory, Rects, Words};
pub use memory::{CleanSink, CleanSource, MemSink, MemSource};
pub use pictures::{Picture, RowBuf, is_row};
pub use points::{Point, Rect, Size};
pub use replies::{Event, PaintReply, Refusal, Reply};
pub use std_edge::{StdSink, StdSource};
pub use streams::{Failed, ReadStop, Sink, Source, WriteFault, read_all, write_all};
pub use windows::{Cursor, WindowView};
