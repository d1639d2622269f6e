//! Frames: how bytes spell commands and replies.
#![tactic(auto)]

mod building;
mod checks;
mod decode;
mod encode;
mod fields;
mod laws;
mod round_trips;
mod stops;

pub use decode::{decode_command, decode_reply};
pub use encode::{encode_command, encode_reply};
pub use laws::{
    one_command, one_command_frame, one_reply, one_reply_frame, spelled_command_passes,
    spelled_reply_passes, unrefused_bytes_spell_a_command, unrefused_bytes_spell_a_reply,
};
pub use round_trips::{command_round_trip, reply_round_trip};
pub use stops::{EncodeStop, FrameStop};
