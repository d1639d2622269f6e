//! What a client has at hand as it makes its calls.
ghost use Rattle.std.specs.Prelude.{◌≡◌, replicate, None, IfOk};
ghost use Rattle.script_names.specs.Naming.{no_names, naming};

use crate::clips::Clips;
use qws_base::{OutOfMemory, RowBuf};
use session_script::Names;
use std::alloc::Global;

/// The names that the client has given, its clips, and room for a row of inks.
#[derive(Drop)]
pub(crate) struct Workspace {
    pub(crate) names: Names,
    pub(crate) clips: Clips,
    pub(crate) row: RowBuf,
}

impl Workspace {
    /// No names and no clips of a client.
    pub(crate) fn new(alloc: Global, client: u32) -> Result<Workspace, OutOfMemory>
        ensures client { IfOk result (λ space. space.names.client ≡ client) }
        ensures names { IfOk result (λ space. naming space.names.slots ≡ no_names) }
        ensures clips { IfOk result (λ space. space.clips.list.items ≡ replicate 33 None) }
    {
        Ok(Workspace {
            names: Names::new(alloc, client)?,
            clips: Clips::new(alloc)?,
            row: RowBuf::new(alloc)?,
        })
    }
}
