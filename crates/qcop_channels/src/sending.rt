//! Messages to the subscribers of a channel.
ghost use Rattle.std.specs.Prelude.{◌≡◌, ◌-◌, replicate, length, true, None, IfOk};
ghost use Rattle.qws_base.specs.Mail.{is_message, subscribers_of, first_full, delivered};
ghost use Rattle.qws_base.specs.declared.replies.Event.TheVariants.{Message};
ghost use Rattle.qcop_channels.specs.Views.{channels_of, AreDistinctBelow};
ghost use Rattle.qcop_channels.specs.Stops.{refusal_in, send_cause};

use crate::mailboxes::{self, Mailbox};
use crate::names::is_name;
use crate::stops::QcopStop;
use crate::subscriptions::{self, Known};
use qws_base::{Bytes, Event, OutOfMemory};
use std::alloc::Global;
use std::marker::Model;

/// The most bytes of a payload.
const MOST_BYTES: usize = 4096;

/// A message of a client to a channel.
#[derive(Clone, Copy, Debug)]
pub struct Letter<'a> {
    pub from: u32,
    pub channel: &'a [u8],
    pub message: &'a [u8],
    pub payload: &'a [u8],
}

/// A message with a copy for each subscriber of its channel: all memory that sending it takes.
#[derive(Debug, Drop)]
pub struct PreparedSend {
    from: u32,
    channel: Bytes,
    message: Bytes,
    payload: Bytes,
    receivers: Vec<u32>,
    // For each receiver but one, who gets the parts above.
    copies: Vec<Event>,
}

impl Model for PreparedSend {
    ghost use Rattle.std.specs.Prelude.{◌≡◌, ◌-◌, replicate, length};
    ghost use Rattle.qws_base.specs.declared.replies.Event.TheVariants.{Message};
    ghost use Rattle.qcop_channels.specs.Views.{AreDistinctBelow};
    ghost use Rattle.qcop_channels.specs.Prepared.{SendView};

    ghost Value = { SendView };

    ghost view = { λ s. record { from = s.from; channel = s.channel; message = s.message; payload = s.payload; receivers = s.receivers.items } };

    ghost invariant = { λ s. AreDistinctBelow 16 s.receivers.items × (s.copies.items ≡ replicate (length s.receivers.items - 1) (Message s.channel s.from s.message s.payload)) };
}

impl PreparedSend {
    /// The number of clients that get the message.
    pub fn to(&self) -> u32
        ensures { result ≡ length self.now.receivers }
    {
        self.receivers.len() as u32
    }
}

fn bytes_of(alloc: Global, bytes: &[u8]) -> Result<Bytes, OutOfMemory>
    ensures { IfOk result (λ copy. copy ≡ bytes.now) }
{
    Ok(Bytes::of(bytes.to_vec(alloc)?))
}

fn event_of(alloc: Global, letter: Letter) -> Result<Event, OutOfMemory>
    ensures { IfOk result (λ event. event ≡ Message letter.entry.channel.now letter.entry.from letter.entry.message.now letter.entry.payload.now) }
{
    Ok(Event::Message {
        channel: bytes_of(alloc, letter.channel)?,
        from: letter.from,
        message: bytes_of(alloc, letter.message)?,
        payload: bytes_of(alloc, letter.payload)?,
    })
}

// That many copies of the message.
fn copies(alloc: Global, letter: Letter, count: usize) -> Result<Vec<Event>, OutOfMemory>
    ensures { IfOk result (λ all. all.items ≡ replicate count (Message letter.entry.channel.now letter.entry.from letter.entry.message.now letter.entry.payload.now)) }
{
    let mut all = Vec::new(alloc);
    for _ in 0..count {
        all.push(event_of(alloc, letter)?)?;
    }
    Ok(all)
}

/// The subscribers that a message goes to, or why it doesn't go.
pub fn receivers<'a>(
    known: &'a Known,
    boxes: &[Mailbox],
    letter: Letter,
) -> Result<&'a [u32], QcopStop>
    ensures to { IfOk result (λ clients. clients.now ≡ subscribers_of (channels_of known.now.entries) letter.entry.channel.now) }
    ensures clients { IfOk result (λ clients. AreDistinctBelow 16 clients.now) }
    ensures refusal { refusal_in result ≡ send_cause (channels_of known.now.entries) boxes.now letter.entry.channel.now letter.entry.message.now letter.entry.payload.now }
{
    if !is_name(letter.message) {
        return Err(QcopStop::BadName);
    }
    if letter.payload.len() > MOST_BYTES {
        let len = letter.payload.len().min(u32::MAX as usize) as u32;
        return Err(QcopStop::TooLarge { len });
    }
    let Some(clients) = subscriptions::subscribers(known, letter.channel) else {
        return Err(QcopStop::NoChannel);
    };
    match mailboxes::first_full(boxes, clients) {
        Some(client) => Err(QcopStop::MailboxFull { client }),
        None => Ok(clients),
    }
}

/// The memory that sending a message to these clients takes.
pub fn prepare(
    alloc: Global,
    receivers: &[u32],
    letter: Letter,
) -> Result<PreparedSend, OutOfMemory>
    requires { AreDistinctBelow 16 receivers.now }
    ensures { IfOk result (λ send. send ≡ record { from = letter.entry.from; channel = letter.entry.channel.now; message = letter.entry.message.now; payload = letter.entry.payload.now; receivers = receivers.now }) }
{
    Ok(PreparedSend {
        from: letter.from,
        channel: bytes_of(alloc, letter.channel)?,
        message: bytes_of(alloc, letter.message)?,
        payload: bytes_of(alloc, letter.payload)?,
        receivers: receivers.to_vec(alloc)?,
        copies: copies(alloc, letter, receivers.len().saturating_sub(1))?,
    })
}

/// One message at the end of the mailbox of each receiver.
pub fn carry(boxes: &mut [Mailbox], send: PreparedSend)
    requires boxes { length boxes.old ≡ 16 }
    requires room { first_full boxes.old send.receivers ≡ None }
    ensures { boxes.new ≡ delivered (Message send.channel send.from send.message send.payload) send.receivers boxes.old }
{
    let PreparedSend {
        from,
        channel,
        message,
        payload,
        receivers,
        copies,
    } = send;
    let event = Event::Message {
        channel,
        from,
        message,
        payload,
    };
    deliver(boxes, &receivers, event, copies);
}

// The message, or a copy of it, at the end of the mailbox of each receiver.
fn deliver(boxes: &mut [Mailbox], receivers: &[u32], message: Event, mut copies: Vec<Event>)
    requires boxes { length boxes.old ≡ 16 }
    requires message { is_message message ≡ true }
    requires receivers { AreDistinctBelow 16 receivers.now }
    requires room { first_full boxes.old receivers.now ≡ None }
    requires copies { copies.items ≡ replicate (length receivers.now - 1) message }
    ensures { boxes.new ≡ delivered message receivers.now boxes.old }
{
    let Some((first, others)) = receivers.split_first() else {
        return;
    };
    for client in others {
        if let Some(copy) = copies.pop() {
            boxes[*client as usize].put(copy);
        }
    }
    boxes[*first as usize].put(message);
}
