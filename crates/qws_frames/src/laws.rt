//! Laws of the grammar of frames. Each function does nothing; its clause is the law.
ghost use Rattle.std.specs.Prelude.{◌≡◌, false, true, None};
ghost use Rattle.qws_base.specs.declared.commands.Command.{Command};
ghost use Rattle.qws_base.specs.declared.replies.Reply.{Reply};
ghost use Rattle.qws_frames.specs.Layout.{SpellsCommand, SpellsReply};
ghost use Rattle.qws_frames.specs.Stops.{frame_refusal};

use qws_base::{Command, Reply};

/// Bytes spell at most one command.
pub fn one_command(first: &Command, second: &Command, bytes: &[u8])
    requires first { SpellsCommand first.now bytes.now }
    requires second { SpellsCommand second.now bytes.now }
    ensures { first.now ≡ second.now }
{
    let _ = first;
    let _ = second;
    let _ = bytes;
}

/// Bytes spell at most one reply.
pub fn one_reply(first: &Reply, second: &Reply, bytes: &[u8])
    requires first { SpellsReply first.now bytes.now }
    requires second { SpellsReply second.now bytes.now }
    ensures { first.now ≡ second.now }
{
    let _ = first;
    let _ = second;
    let _ = bytes;
}

/// A command has at most one frame.
pub fn one_command_frame(command: &Command, first: &[u8], second: &[u8])
    requires first { SpellsCommand command.now first.now }
    requires second { SpellsCommand command.now second.now }
    ensures { first.now ≡ second.now }
{
    let _ = command;
    let _ = first;
    let _ = second;
}

/// A reply has at most one frame.
pub fn one_reply_frame(reply: &Reply, first: &[u8], second: &[u8])
    requires first { SpellsReply reply.now first.now }
    requires second { SpellsReply reply.now second.now }
    ensures { first.now ≡ second.now }
{
    let _ = reply;
    let _ = first;
    let _ = second;
}

/// No cause refuses the bytes of a command.
pub fn spelled_command_passes(command: &Command, bytes: &[u8])
    requires { SpellsCommand command.now bytes.now }
    ensures { frame_refusal false bytes.now ≡ None }
{
    let _ = command;
    let _ = bytes;
}

/// No cause refuses the bytes of a reply.
pub fn spelled_reply_passes(reply: &Reply, bytes: &[u8])
    requires { SpellsReply reply.now bytes.now }
    ensures { frame_refusal true bytes.now ≡ None }
{
    let _ = reply;
    let _ = bytes;
}

/// Bytes that no cause refuses spell a command.
pub fn unrefused_bytes_spell_a_command(bytes: &[u8])
    requires { frame_refusal false bytes.now ≡ None }
    ensures { (command : Command) × SpellsCommand command bytes.now }
{
    let _ = bytes;
}

/// Bytes that no cause refuses spell a reply.
pub fn unrefused_bytes_spell_a_reply(bytes: &[u8])
    requires { frame_refusal true bytes.now ≡ None }
    ensures { (reply : Reply) × SpellsReply reply bytes.now }
{
    let _ = bytes;
}
