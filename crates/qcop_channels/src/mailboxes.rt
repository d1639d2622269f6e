//! The mailbox of a client: a queue of events with a count of its messages.
ghost use Rattle.std.specs.Prelude.{nat_le, ◌≡◌, ◌<◌, ◌≤◌, ◌++◌, [], ◌∷◌, drop, map, filter, not, true, slice_get, IfOk};
ghost use Rattle.std.specs.List.{list_any, range_with_len};
ghost use Rattle.std.specs.VecDeque.{deque_len, deque_capacity};
ghost use Rattle.std.specs.Option.{option_copied};
ghost use Rattle.qws_base.specs.Mail.{is_message, is_region_of, message_count, mailbox_of, first_full};
ghost use Rattle.qcop_channels.specs.Views.{box_noted};

use qws_base::{Event, OutOfMemory};
use std::alloc::Global;
use std::collections::VecDeque;
use std::marker::Model;

/// The most messages that a mailbox holds.
const MOST_MESSAGES: usize = 256;

/// The most events that a mailbox holds: its messages, and one for each of 32 slots.
const MOST_EVENTS: usize = 288;

fn is_message(event: &Event) -> bool
    ensures { result ≡ is_message event.now }
{
    match event {
        Event::Message { .. } => true,
        Event::RegionModified { .. } => false,
    }
}

fn is_region_of(slot: u32, event: &Event) -> bool
    ensures { result ≡ is_region_of slot event.now }
{
    match event {
        Event::Message { .. } => false,
        Event::RegionModified { slot: other } => *other == slot,
    }
}

/// The events of a client, oldest first: at most 256 messages, and at most one `RegionModified` for each of 32 slots. There
/// is room for all of these from the start.
#[derive(Debug, Drop)]
pub struct Mailbox {
    events: VecDeque<Event>,
    messages: usize,
}

impl Model for Mailbox {
    ghost use Rattle.std.specs.Prelude.{List};
    ghost use Rattle.std.specs.VecDeque.{deque_capacity};
    ghost use Rattle.qws_base.specs.declared.replies.Event.{Event};
    ghost use Rattle.qcop_channels.specs.Views.{IsMailbox};

    ghost Value = { List Event };

    ghost view = { λ b. b.events.items };

    ghost invariant = { λ b. IsMailbox b.events.items b.messages (deque_capacity b.events) };
}

impl Mailbox {
    /// An empty mailbox.
    pub fn new(alloc: Global) -> Result<Mailbox, OutOfMemory>
        ensures { IfOk result (λ mailbox. mailbox ≡ []) }
    {
        Ok(Mailbox {
            events: VecDeque::with_capacity(alloc, MOST_EVENTS)?,
            messages: 0,
        })
    }

    /// Whether it holds 256 messages.
    pub fn is_full(&self) -> bool
        ensures { result ≡ nat_le 256 (message_count self.now) }
    {
        self.messages >= MOST_MESSAGES
    }

    /// The oldest event.
    pub fn oldest(&self) -> Option<&Event>
        ensures { option_copied result ≡ slice_get self.now 0 }
    {
        self.events.front()
    }

    /// The message is the newest event.
    pub fn put(&mut self, message: Event)
        requires message { is_message message ≡ true }
        requires room { message_count self.old < 256 }
        ensures { self.new ≡ self.old ++ message ∷ [] }
    {
        self.events.push_back_reserved(message);
        self.messages += 1;
    }

    /// The oldest event leaves.
    pub fn take(&mut self) -> Option<Event>
        ensures oldest { result ≡ slice_get self.old 0 }
        ensures rest { self.new ≡ drop 1 self.old }
    {
        let event = self.events.pop_front();
        if event.as_ref().is_some_and(is_message) {
            self.messages -= 1;
        }
        event
    }

    /// Whether it holds the event of the slot.
    fn tells(&self, slot: u32) -> bool
        ensures { result ≡ list_any (is_region_of slot) self.now }
    {
        self.events.iter().any(|event| is_region_of(slot, event))
    }

    /// The event of the slot stands in it, as the newest where it had none.
    pub fn tell(&mut self, slot: u32)
        requires { slot < 32 }
        ensures { self.new ≡ box_noted slot self.old }
    {
        if !self.tells(slot) {
            self.events
                .push_back_reserved(Event::RegionModified { slot });
        }
    }

    /// The event of the slot leaves.
    pub fn forget(&mut self, slot: u32)
        ensures { self.new ≡ filter (λ e. not (is_region_of slot e)) self.old }
    {
        self.events.retain(|event| !is_region_of(slot, event));
    }

    /// A mailbox with the same events.
    pub fn copy(&self, alloc: Global) -> Result<Mailbox, OutOfMemory>
        ensures { IfOk result (λ copy. copy ≡ self.now) }
    {
        Ok(Mailbox {
            events: copy_of(alloc, &self.events)?,
            messages: self.messages,
        })
    }
}

// The same events, in room for all that a mailbox holds.
fn copy_of(alloc: Global, events: &VecDeque<Event>) -> Result<VecDeque<Event>, OutOfMemory>
    requires { deque_len events.now ≤ 288 }
    ensures items { IfOk result (λ copy. copy.items ≡ events.now.items) }
    ensures room { IfOk result (λ copy. deque_capacity copy ≡ 288) }
{
    let mut copy = VecDeque::with_capacity(alloc, MOST_EVENTS)?;
    for place in 0..events.len() {
        copy.push_back_reserved(events[place].copy(alloc)?);
    }
    Ok(copy)
}

/// 16 empty mailboxes.
pub fn empty_boxes(alloc: Global) -> Result<Vec<Mailbox>, OutOfMemory>
    ensures { IfOk result (λ boxes. boxes.items ≡ map (λ client. []) (range_with_len 0 16)) }
{
    let mut boxes = Vec::new(alloc);
    for _ in 0..16u32 {
        boxes.push(Mailbox::new(alloc)?)?;
    }
    Ok(boxes)
}

/// Mailboxes with the same events.
pub fn copy_boxes(alloc: Global, boxes: &[Mailbox]) -> Result<Vec<Mailbox>, OutOfMemory>
    ensures { IfOk result (λ all. all.items ≡ boxes.now) }
{
    let mut all = Vec::new(alloc);
    for mailbox in boxes {
        all.push(mailbox.copy(alloc)?)?;
    }
    Ok(all)
}

fn is_full(boxes: &[Mailbox], client: u32) -> bool
    ensures { result ≡ nat_le 256 (message_count (mailbox_of boxes.now client)) }
{
    boxes
        .get(client as usize)
        .is_some_and(|mailbox| mailbox.is_full())
}

/// The first of these clients whose mailbox holds 256 messages.
pub fn first_full(boxes: &[Mailbox], clients: &[u32]) -> Option<u32>
    ensures { result ≡ first_full boxes.now clients.now }
{
    clients
        .iter()
        .copied()
        .find(|client| is_full(boxes, *client))
}
