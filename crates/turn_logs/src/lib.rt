//! The logs of turns: what was read and written on pixel words, when a log carries a scene on, and what a whole session of
//! such turns shows. Words and tables are plain lists here; who may read and write them is told elsewhere.
#![tactic(auto)]

mod items;
mod laws;

pub use items::Item;
pub use laws::{
    cells_are_lifted, logs_away_carry, paints_are_carried, phases_carry, pictures_are_shown,
    pixels_carry, reads_carry, sessions_are_carried, stamps_alone_change, steps_are_carried,
    tables_are_published, tables_follow_each_other,
};
