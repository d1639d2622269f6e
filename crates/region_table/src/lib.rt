//! The layout of the shared words: what each word of the published table holds, and the numbers of all words.
#![tactic(auto)]

mod laws;
mod numbers;
mod packing;
mod spelling;
mod tables;

pub use laws::{
    opening_table_of_words, table_of_its_words, table_tells_windows, words_are_of_one_kind,
};
pub use numbers::{
    CLOSED_GATE, FIRST_CELL, FIRST_PIXEL, FIRST_ROW, FIRST_SAVED, GATE, PLACE, ROW_SIZE, SHAPE,
    STAMP, cell_at, pixel_at, row_at, saved_at,
};
pub use packing::{pack, unpack};
pub use spelling::{origin_word, owner_word, place_word, shape_word, word_of};
pub use tables::{Row, Rows, Table};
