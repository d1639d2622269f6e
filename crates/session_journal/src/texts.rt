//! The words of replies.
ghost use Rattle.std.specs.Prelude.{◌≡◌, IfOk, string_bytes};
ghost use Rattle.session_journal.specs.Texts.{refusal_words, event_words, reply_words, paint_words};
ghost use Rattle.session_journal.specs.Printed.{PrintsRefusal, PrintsEvent, PrintsReply, PrintsPaint};

use qws_base::{Event, PaintReply, Refusal, Reply};
use std::alloc::{AllocError, Global};

// A refusal: its number and its fields.
fn refusal_text(alloc: Global, cause: Refusal) -> Result<String, AllocError>
    ensures words { IfOk result (λ text. string_bytes text ≡ refusal_words cause) }
    ensures prints { PrintsRefusal cause }
{
    match cause {
        Refusal::NoWindow { slot } => format!(in alloc; "1 {slot}"),
        Refusal::NotYours { slot, owner } => format!(in alloc; "2 {slot} {owner}"),
        Refusal::NoSlot => String::from_str(alloc, "3"),
        Refusal::BadLayer { layer } => format!(in alloc; "4 {layer}"),
        Refusal::BadRegion { index } => format!(in alloc; "5 {index}"),
        Refusal::TooComplex { slot, rects } => format!(in alloc; "6 {slot} {rects}"),
        Refusal::OffScreen { x, y } => format!(in alloc; "7 {x} {y}"),
        Refusal::BadShape { w, h } => format!(in alloc; "8 {w} {h}"),
        Refusal::Joined => String::from_str(alloc, "9"),
        Refusal::TooManyChannels => String::from_str(alloc, "10"),
        Refusal::BadName => String::from_str(alloc, "11"),
        Refusal::NotJoined => String::from_str(alloc, "12"),
        Refusal::NoChannel => String::from_str(alloc, "13"),
        Refusal::MailboxFull { client } => format!(in alloc; "14 {client}"),
        Refusal::TooLarge { len } => format!(in alloc; "15 {len}"),
        Refusal::Empty => String::from_str(alloc, "16"),
    }
}

fn event_text(alloc: Global, event: &Event) -> Result<String, AllocError>
    ensures words { IfOk result (λ text. string_bytes text ≡ event_words event.now) }
    ensures prints { PrintsEvent event.now }
{
    match event {
        Event::Message {
            channel: _,
            from,
            message: _,
            payload,
        } => {
            let from = *from;
            let len = payload.as_slice().len();
            format!(in alloc; "message {from} {len}")
        }
        Event::RegionModified { slot } => {
            let slot = *slot;
            format!(in alloc; "modified {slot}")
        }
    }
}

/// The words of a reply.
pub fn reply_text(alloc: Global, reply: &Reply) -> Result<String, AllocError>
    ensures words { IfOk result (λ text. string_bytes text ≡ reply_words reply.now) }
    ensures prints { PrintsReply reply.now }
{
    match reply {
        Reply::Created { slot } => {
            let slot = *slot;
            format!(in alloc; "created {slot}")
        }
        Reply::Done => String::from_str(alloc, "done"),
        Reply::Sent { to } => {
            let to = *to;
            format!(in alloc; "sent {to}")
        }
        Reply::Registered { yes: true } => String::from_str(alloc, "registered 1"),
        Reply::Registered { yes: false } => String::from_str(alloc, "registered 0"),
        Reply::Event { event } => event_text(alloc, event),
        Reply::Refused { cause } => {
            let words = refusal_text(alloc, *cause)?;
            format!(in alloc; "refused {words}")
        }
    }
}

/// The words of a paint's reply.
pub fn paint_text(alloc: Global, reply: PaintReply) -> Result<String, AllocError>
    ensures words { IfOk result (λ text. string_bytes text ≡ paint_words reply) }
    ensures prints { PrintsPaint reply }
{
    match reply {
        PaintReply::Painted { pixels } => format!(in alloc; "painted {pixels}"),
        PaintReply::Gone => String::from_str(alloc, "gone"),
    }
}
