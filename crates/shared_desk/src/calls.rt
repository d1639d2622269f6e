//! Calls through the shared desk.
ghost use Rattle.std.specs.Prelude.{◌≡◌, ◌<◌, IfOk, IfErr, OnErr};
ghost use Rattle.fb_words.specs.declared.known.Mode.TheVariants.{Idle};
ghost use Rattle.server_desk.specs.Answers.{answered_pass};
ghost use Rattle.shared_desk.specs.Desks.{SameDesk};
ghost use Rattle.shared_desk.specs.Leases.{IsOf};
ghost use Rattle.shared_desk.specs.Calls.{IsAnsweredIn, SharedStopsAt};

use crate::callers::{Caller, HeldLease, Lease};
use crate::shared::SharedDesk;
use fb_words::Screen;
use qws_base::Command;
use server_desk::{Answer, CallStop, Desk};
use std::alloc::Global;
use std::sync::Wait;
use std::thread;

/// Why a call through the shared desk was not made. The pass has made no call then.
#[derive(Clone, Copy, Debug, PartialEq, Eq)]
pub enum SharedStop {
    /// The journal holds as many entries of this client as it can.
    JournalFull { held: u64 },
    /// There was no memory for the plan or for the answer.
    OutOfMemory,
}

// The most times that a caller yields between two tries.
const MOST_YIELDS: u32 = 16;

impl SharedDesk {
    // Tries until the desk is at home. Between two tries it yields, each time twice as often as before, up to MOST_YIELDS: so the
    // callers who wait seldom take the desk's word from the one who calls.
    fn take<R: Wait>(&self, rt: &R, lease: Lease) -> (HeldLease, Desk)
        requires of { IsOf self.now lease }
        ensures lease { result.0 ≡ lease }
        ensures desk { SameDesk result.1 lease.desk }
    {
        let mut lease = lease;
        let mut yields = 1u32;
        for _ in rt.forever() {
            match self.try_take(lease) {
                Ok(took) => return took,
                Err(same) => lease = same,
            }
            for _ in 0..yields {
                thread::yield_now();
            }
            yields = MOST_YIELDS.min(yields.saturating_mul(2));
        }
        unreachable!()
    }

    /// Takes the desk, makes the call, waiting while a painter is in its turn, and gives the desk back, on every answer. The
    /// command is planned once, and the pass stays seated while the call waits.
    /// The caller's pass has grown by this call alone: the answer has its number in the journal and its reply. JournalFull
    /// comes exactly where the pass has made as many calls as its step limit; OutOfMemory for want of memory. After both the
    /// pass has made no call. The private part is the one that the caller had. It waits, and may not return.
    pub fn call<R: Wait>(
        &self,
        rt: &R,
        alloc: Global,
        screen: &Screen,
        caller: Caller,
        command: &Command,
    ) -> (Caller, Result<Answer, SharedStop>)
        requires of { IsOf self.now caller.lease }
        requires desk { self.now.desk.screen ≡ screen.now }
        requires pass { caller.pass.screen ≡ screen.now }
        requires idle { caller.pass.client.mode ≡ Idle }
        ensures lease { result.0.lease ≡ caller.lease }
        ensures answer { IfOk result.1 (λ answer. IsAnsweredIn screen.now.setting.size caller.pass.client.number command.now answer) }
        ensures pass { IfOk result.1 (λ answer. result.0.pass ≡ answered_pass caller.pass command.now answer) }
        ensures later { IfOk result.1 (λ answer. caller.pass.client.seen < answer.number) }
        ensures back { OnErr result.1 (result.0.pass ≡ caller.pass) }
        ensures stop { IfErr result.1 (λ stop. SharedStopsAt caller.pass.client stop) }
    {
        let Caller { pass, lease } = caller;
        let (held, mut desk) = self.take(rt, lease);
        let (pass, answer) = desk.call(rt, alloc, screen, pass, command);
        let lease = self.give(held, desk);
        let caller = Caller { pass, lease };
        match answer {
            Ok(answer) => (caller, Ok(answer)),
            Err(CallStop::JournalFull { held }) => (caller, Err(SharedStop::JournalFull { held })),
            Err(CallStop::OutOfMemory) => (caller, Err(SharedStop::OutOfMemory)),
            Err(CallStop::Busy { .. }) => unreachable!(),
        }
    }
}
