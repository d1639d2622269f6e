//! What a core holds, and what a plan holds of the next state.
ghost use Rattle.std.specs.Prelude.{IfOk};
ghost use Rattle.window_core.specs.Planning.{Keeps};

use crate::changes::MailChange;
use qcop_channels::Channels;
use qws_base::{Cursor, OutOfMemory, Refusal, Reply};
use std::alloc::Global;
use std::sync::Arc;
use window_arrangements::Arrangement;

/// The state of the server. Windows with their regions, and the cursor, are shared with plans that leave them.
#[derive(Debug, Drop)]
pub struct Held {
    pub arrangement: Arc<Arrangement>,
    pub revisions: [u64; 32],
    pub cursor: Arc<Cursor>,
    pub channels: Channels,
}

/// A reply, and what the next state needs; where the command is refused that is the present one.
#[derive(Debug, Drop)]
pub struct Planned {
    pub reply: Reply,
    pub arrangement: Arc<Arrangement>,
    pub revisions: [u64; 32],
    pub risen: Vec<u32>,
    pub cursor: Arc<Cursor>,
    pub change: MailChange,
}

impl Held {
    /// A plan that leaves the windows and the cursor.
    pub fn kept(
        &self,
        alloc: Global,
        reply: Reply,
        change: MailChange,
    ) -> Result<Planned, OutOfMemory>
        ensures { IfOk result (Keeps self.now reply change) }
    {
        let arrangement = Arc::try_clone(&self.arrangement)?;
        let cursor = Arc::try_clone(&self.cursor)?;
        Ok(Planned {
            reply,
            arrangement,
            revisions: self.revisions,
            risen: Vec::new(alloc),
            cursor,
            change,
        })
    }

    /// The plan of a refused command.
    pub fn refused(&self, alloc: Global, cause: Refusal) -> Result<Planned, OutOfMemory>
        ensures { IfOk result (Keeps self.now (Reply.Refused cause) MailChange.Nothing) }
    {
        self.kept(alloc, Reply::Refused { cause }, MailChange::Nothing)
    }
}
