//! Plans of the commands on channels and mailboxes.
ghost use Rattle.std.specs.Prelude.{◌≡◌, ◌<◌, IfOk};
ghost use Rattle.qws_base.specs.declared.commands.Command.TheVariants.{Join, Leave, Send, Take, IsRegistered};
ghost use Rattle.window_core.specs.CoreViews.{IsServed};
ghost use Rattle.window_core.specs.Planning.{IsPlanned, IsStopped, size_of, state_of};
ghost use Rattle.qcop_channels.specs.Stops.{refusal_of};

use crate::changes::MailChange;
use crate::held::{Held, Planned};
use qcop_channels::QcopStop;
use qws_base::{Bytes, OutOfMemory, Refusal, Reply};
use std::alloc::Global;

impl Held {
    // The plan of a command that the channels stopped.
    fn stopped(&self, alloc: Global, stop: QcopStop) -> Result<Planned, OutOfMemory>
        ensures { IfOk result (IsStopped self.now (refusal_of stop)) }
    {
        match stop.cause() {
            Some(cause) => self.refused(alloc, cause),
            None => Err(OutOfMemory),
        }
    }

    /// The plan of a Join.
    pub fn plan_join(
        &self,
        alloc: Global,
        client: u32,
        channel: &Bytes,
    ) -> Result<Planned, OutOfMemory>
        requires client { client < 16 }
        requires served { IsServed (size_of self.now) (state_of self.now) }
        ensures { IfOk result (IsPlanned self.now client (Join channel.now)) }
    {
        match self
            .channels
            .prepare_join(alloc, client, channel.as_slice())
        {
            Ok(join) => self.kept(alloc, Reply::Done, MailChange::Join { join }),
            Err(stop) => self.stopped(alloc, stop),
        }
    }

    /// The plan of a Leave.
    pub fn plan_leave(
        &self,
        alloc: Global,
        client: u32,
        channel: &Bytes,
    ) -> Result<Planned, OutOfMemory>
        requires client { client < 16 }
        requires served { IsServed (size_of self.now) (state_of self.now) }
        ensures { IfOk result (IsPlanned self.now client (Leave channel.now)) }
    {
        if !self.channels.is_subscriber(client, channel.as_slice()) {
            return self.refused(alloc, Refusal::NotJoined);
        }
        let channel = channel.copy(alloc)?;
        self.kept(alloc, Reply::Done, MailChange::Leave { client, channel })
    }

    /// The plan of a Send.
    pub fn plan_send(
        &self,
        alloc: Global,
        client: u32,
        channel: &Bytes,
        message: &Bytes,
        payload: &Bytes,
    ) -> Result<Planned, OutOfMemory>
        requires client { client < 16 }
        requires served { IsServed (size_of self.now) (state_of self.now) }
        ensures { IfOk result (IsPlanned self.now client (Send channel.now message.now payload.now)) }
    {
        let sending = self.channels.prepare_send(
            alloc,
            client,
            channel.as_slice(),
            message.as_slice(),
            payload.as_slice(),
        );
        match sending {
            Ok(send) => {
                let to = send.to();
                self.kept(alloc, Reply::Sent { to }, MailChange::Send { send })
            }
            Err(stop) => self.stopped(alloc, stop),
        }
    }

    /// The plan of a Take.
    pub fn plan_take(&self, alloc: Global, client: u32) -> Result<Planned, OutOfMemory>
        requires client { client < 16 }
        requires served { IsServed (size_of self.now) (state_of self.now) }
        ensures { IfOk result (IsPlanned self.now client Take) }
    {
        match self.channels.oldest(client) {
            None => self.refused(alloc, Refusal::Empty),
            Some(event) => {
                let event = event.copy(alloc)?;
                self.kept(alloc, Reply::Event { event }, MailChange::Take { client })
            }
        }
    }

    /// The plan of an IsRegistered.
    pub fn plan_is_registered(
        &self,
        alloc: Global,
        client: u32,
        channel: &Bytes,
    ) -> Result<Planned, OutOfMemory>
        requires { IsServed (size_of self.now) (state_of self.now) }
        ensures { IfOk result (IsPlanned self.now client (IsRegistered channel.now)) }
    {
        let _ = client;
        let yes = self.channels.is_registered(channel.as_slice());
        self.kept(alloc, Reply::Registered { yes }, MailChange::Nothing)
    }
}
