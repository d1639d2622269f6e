//! The channels and the mailboxes of 16 clients.
ghost use Rattle.std.specs.Prelude.{◌≡◌, ◌<◌, IfOk, IfErr, OnOk, OnErr, Ok, Some, nat_le, length};
ghost use Rattle.std.specs.Option.{option_copied};
ghost use Rattle.qws_base.specs.Mail.{opening_mail, mailbox_of, message_count, is_known, is_subscriber, subscribers_of, mail_joined, mail_left, mail_sent, mail_taken, mail_noted, mail_forgotten, receiver_count, oldest_event};
ghost use Rattle.qcop_channels.specs.Stops.{refusal_in, join_refusal, leave_refusal, send_refusal, take_refusal};
ghost use Rattle.qcop_channels.specs.Prepared.{CanJoin, CanSend};

use crate::mailboxes::{self, Mailbox};
use crate::sending::{self, Letter, PreparedSend};
use crate::stops::QcopStop;
use crate::subscriptions::{self, Known, PreparedJoin};
use qws_base::{Event, OutOfMemory};
use std::alloc::Global;
use std::marker::Model;

/// Named channels with their subscribers, and a mailbox for each of 16 clients. Contracts see the channels in the order in
/// which they became known, and each mailbox with its oldest event first.
///
/// Room for 64 channels of 16 subscribers and for all events that the mailboxes may hold is taken at the start. A join or a
/// send takes what else it needs when it is prepared, and nothing when it is carried out.
#[derive(Debug, Drop)]
pub struct Channels {
    alloc: Global,
    known: Known,
    mailboxes: Vec<Mailbox>,
}

impl Model for Channels {
    ghost use Rattle.std.specs.Prelude.{◌≡◌, ◌≤◌, ◌+◌, length};
    ghost use Rattle.indexmap.specs.IndexMap.{index_map_len, spare};
    ghost use Rattle.qws_base.specs.Mail.{Mail};
    ghost use Rattle.qcop_channels.specs.Views.{channels_of};

    ghost Value = { Mail };

    ghost view = { λ c. record { channels = channels_of c.known.entries; mailboxes = c.mailboxes.items } };

    ghost invariant = { λ c. (length c.mailboxes.items ≡ 16) × (length (channels_of c.known.entries) ≤ 64) × (64 ≤ index_map_len c.known + spare c.known) };
}

impl Channels {
    /// No channel, and 16 empty mailboxes.
    #[tactic(auto, unfolding(qws_base::specs::Mail::opening_mail))]
    pub fn new(alloc: Global) -> Result<Self, OutOfMemory>
        ensures { IfOk result (λ channels. channels ≡ opening_mail) }
    {
        Ok(Channels {
            alloc,
            known: subscriptions::none_known(alloc)?,
            mailboxes: mailboxes::empty_boxes(alloc)?,
        })
    }

    /// The same channels and mailboxes.
    pub fn copy(&self, alloc: Global) -> Result<Self, OutOfMemory>
        ensures { IfOk result (λ copy. copy ≡ self.now) }
    {
        Ok(Channels {
            alloc,
            known: subscriptions::copy(alloc, &self.known)?,
            mailboxes: mailboxes::copy_boxes(alloc, &self.mailboxes)?,
        })
    }

    /// The memory for a join of the client. Refused with `BadName`, `Joined`, `TooManyChannels`, in this order.
    pub fn prepare_join(
        &self,
        alloc: Global,
        client: u32,
        channel: &[u8],
    ) -> Result<PreparedJoin, QcopStop>
        requires { client < 16 }
        ensures join { IfOk result (λ join. join ≡ record { client = client; channel = channel.now }) }
        ensures can { IfOk result (CanJoin self.now) }
        ensures refusal { refusal_in result ≡ join_refusal self.now client channel.now }
    {
        subscriptions::may_join(&self.known, client, channel)?;
        Ok(subscriptions::prepare(alloc, client, channel)?)
    }

    /// The client becomes the channel's last subscriber; an unknown channel becomes known, as the last. It takes no memory.
    pub fn carry_join(&mut self, join: PreparedJoin)
        requires { CanJoin self.old join }
        ensures { self.new ≡ mail_joined self.old join.client join.channel }
    {
        subscriptions::carry(&mut self.known, join);
    }

    /// The client becomes the channel's last subscriber; an unknown channel becomes known, as the last. Refused with
    /// `BadName`, `Joined`, `TooManyChannels`, in this order.
    pub fn join(&mut self, client: u32, channel: &[u8]) -> Result<(), QcopStop>
        requires { client < 16 }
        ensures joined { OnOk result (self.new ≡ mail_joined self.old client channel.now) }
        ensures unchanged { OnErr result (self.new ≡ self.old) }
        ensures refusal { refusal_in result ≡ join_refusal self.old client channel.now }
    {
        let join = self.prepare_join(self.alloc, client, channel)?;
        self.carry_join(join);
        Ok(())
    }

    /// The client is no subscriber any more; the channel stays known. Refused with `NotJoined`.
    pub fn leave(&mut self, client: u32, channel: &[u8]) -> Result<(), QcopStop>
        requires { client < 16 }
        ensures left { OnOk result (self.new ≡ mail_left self.old client channel.now) }
        ensures unchanged { OnErr result (self.new ≡ self.old) }
        ensures refusal { refusal_in result ≡ leave_refusal self.old client channel.now }
        ensures no_other { IfErr result (λ stop. stop ≡ QcopStop.NotJoined) }
    {
        subscriptions::leave(&mut self.known, client, channel)
    }

    /// The memory for a message: a copy for each subscriber. Refused with `BadName` for the message, `TooLarge`, `NoChannel`,
    /// `MailboxFull` with the first subscriber whose mailbox is full, in this order.
    pub fn prepare_send(
        &self,
        alloc: Global,
        from: u32,
        channel: &[u8],
        message: &[u8],
        payload: &[u8],
    ) -> Result<PreparedSend, QcopStop>
        requires { from < 16 }
        ensures send { IfOk result (λ send. send ≡ record { from = from; channel = channel.now; message = message.now; payload = payload.now; receivers = subscribers_of self.now.channels channel.now }) }
        ensures can { IfOk result (CanSend self.now) }
        ensures refusal { refusal_in result ≡ send_refusal self.now channel.now message.now payload.now }
    {
        let letter = Letter {
            from,
            channel,
            message,
            payload,
        };
        let receivers = sending::receivers(&self.known, &self.mailboxes, letter)?;
        Ok(sending::prepare(alloc, receivers, letter)?)
    }

    /// The message at the end of each subscriber's mailbox. It takes no memory.
    pub fn carry_send(&mut self, send: PreparedSend)
        requires { CanSend self.old send }
        ensures { self.new ≡ mail_sent self.old send.from send.channel send.message send.payload }
    {
        sending::carry(&mut self.mailboxes, send);
    }

    /// One message from the client at the end of each subscriber's mailbox, also its own where it is one. Gives the number
    /// of subscribers. Refused with `BadName` for the message, `TooLarge`, `NoChannel`, `MailboxFull` with the first
    /// subscriber whose mailbox is full, in this order.
    pub fn send(
        &mut self,
        from: u32,
        channel: &[u8],
        message: &[u8],
        payload: &[u8],
    ) -> Result<u32, QcopStop>
        requires { from < 16 }
        ensures sent { OnOk result (self.new ≡ mail_sent self.old from channel.now message.now payload.now) }
        ensures to { IfOk result (λ to. to ≡ receiver_count self.old channel.now) }
        ensures unchanged { OnErr result (self.new ≡ self.old) }
        ensures refusal { refusal_in result ≡ send_refusal self.old channel.now message.now payload.now }
    {
        let send = self.prepare_send(self.alloc, from, channel, message, payload)?;
        let to = send.to();
        self.carry_send(send);
        Ok(to)
    }

    /// The client's oldest event, which stays in its mailbox.
    pub fn oldest(&self, client: u32) -> Option<&Event>
        requires { client < 16 }
        ensures { option_copied result ≡ oldest_event self.now client }
    {
        self.mailboxes[client as usize].oldest()
    }

    /// The client's oldest event leaves its mailbox. Refused with `Empty`, where there is none.
    pub fn take(&mut self, client: u32) -> Result<Event, QcopStop>
        requires { client < 16 }
        ensures oldest { IfOk result (λ event. oldest_event self.old client ≡ Some event) }
        ensures taken { OnOk result (self.new ≡ mail_taken self.old client) }
        ensures unchanged { OnErr result (self.new ≡ self.old) }
        ensures refusal { refusal_in result ≡ take_refusal self.old client }
        ensures no_other { IfErr result (λ stop. stop ≡ QcopStop.Empty) }
    {
        match self.mailboxes[client as usize].take() {
            Some(event) => Ok(event),
            None => Err(QcopStop::Empty),
        }
    }

    /// `RegionModified` of the slot is at the end of the client's mailbox, unless that held one for the slot. It takes no
    /// memory.
    pub fn tell_region(&mut self, client: u32, slot: u32)
        requires client { client < 16 }
        requires slot { slot < 32 }
        ensures { self.new ≡ mail_noted self.old client slot }
    {
        self.mailboxes[client as usize].tell(slot);
    }

    /// `RegionModified` of the slot is at the end of the client's mailbox, unless that held one for the slot. There is room
    /// for it from the start, so that it is always `Ok`.
    pub fn note_region(&mut self, client: u32, slot: u32) -> Result<(), OutOfMemory>
        requires client { client < 16 }
        requires slot { slot < 32 }
        ensures noted { self.new ≡ mail_noted self.old client slot }
        ensures done { result ≡ Ok tt }
    {
        self.tell_region(client, slot);
        Ok(())
    }

    /// `RegionModified` of the slot leaves the client's mailbox.
    pub fn forget_region(&mut self, client: u32, slot: u32)
        requires client { client < 16 }
        requires slot { slot < 32 }
        ensures { self.new ≡ mail_forgotten self.old client slot }
    {
        self.mailboxes[client as usize].forget(slot);
    }

    /// Whether the channel is known.
    pub fn is_registered(&self, channel: &[u8]) -> bool
        ensures { result ≡ is_known self.now.channels channel.now }
    {
        subscriptions::is_known(&self.known, channel)
    }

    /// Whether the client subscribes to the channel.
    pub fn is_subscriber(&self, client: u32, channel: &[u8]) -> bool
        ensures { result ≡ is_subscriber self.now.channels client channel.now }
    {
        subscriptions::is_subscriber(&self.known, client, channel)
    }

    /// The number of the channel's subscribers, which is 0 for an unknown channel.
    pub fn subscriber_count(&self, channel: &[u8]) -> u32
        ensures { result ≡ receiver_count self.now channel.now }
    {
        match subscriptions::subscribers(&self.known, channel) {
            Some(clients) => clients.len() as u32,
            None => 0,
        }
    }

    /// Whether the client's mailbox holds 256 messages.
    pub fn is_full(&self, client: u32) -> bool
        requires { client < 16 }
        ensures { result ≡ nat_le 256 (message_count (mailbox_of self.now.mailboxes client)) }
    {
        self.mailboxes[client as usize].is_full()
    }
}
