//! The shared words of one screen: tokens that step on them, and the rule that holds between any two steps.
#![tactic(auto)]

mod client_steps;
mod known;
mod laws;
mod plays;
mod screen;
mod seats;
mod server_steps;
mod tokens;

pub use known::{
    Call, Client, Closed, KeptClip, Looked, Mode, PaintCall, PaintSheet, ScreenSetting, Server,
    ServerMode, StepCall, View,
};
pub use laws::{
    closed_turns_are_kept, kept_clips_are_judged, kept_clips_are_rows, logs_stay_true, looks_go_on,
    owned_words_are_given, reads_find_what_was_written, rows_are_spelled, sessions_are_whole,
    stubs_stay_seated,
};
pub use screen::{Screen, WordRule};
pub use tokens::{Head, Pass, Stub};
