//! What is encoded, decoded again.
ghost use Rattle.std.specs.Prelude.{◌≡◌, IfOk};
ghost use Rattle.qws_frames.specs.Stops.{command_refusal, reply_refusal, encode_refusal_in, IsOrNoMemory};

use crate::decode::{decode_command, decode_reply};
use crate::encode::{encode_command, encode_reply};
use crate::stops::{EncodeStop, FrameStop};
use qws_base::{Command, Reply};
use std::alloc::Global;

/// Encodes a command and decodes its frame. Where the command encodes, its frame decodes to it, or memory lacks.
pub fn command_round_trip(
    alloc: Global,
    command: &Command,
) -> Result<Result<Command, FrameStop>, EncodeStop>
    ensures back { IfOk result (λ back. IsOrNoMemory back command.now) }
    ensures refusal { encode_refusal_in result ≡ command_refusal command.now }
{
    let frame = encode_command(alloc, command)?;
    Ok(decode_command(alloc, &frame))
}

/// Encodes a reply and decodes its frame. Where the reply encodes, its frame decodes to it, or memory lacks.
pub fn reply_round_trip(
    alloc: Global,
    reply: &Reply,
) -> Result<Result<Reply, FrameStop>, EncodeStop>
    ensures back { IfOk result (λ back. IsOrNoMemory back reply.now) }
    ensures refusal { encode_refusal_in result ≡ reply_refusal reply.now }
{
    let frame = encode_reply(alloc, reply)?;
    Ok(decode_reply(alloc, &frame))
}
