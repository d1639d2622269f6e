//! A client's clips.
ghost use Rattle.std.specs.Prelude.{◌≡◌, ◌<◌, length, slice_set, slice_index_or, map, replicate, List, Option, Some, None, IfOk};
ghost use Rattle.client_session.specs.Keeping.{clip_of};

use clip_refetch::Clip;
use qws_base::OutOfMemory;
use std::alloc::Global;

// The slots, and one more that is no window's.
const SLOTS: usize = 33;

/// A client's clips, one a slot, each made at the first paint there and kept from then on.
#[derive(Drop)]
pub(crate) struct Clips {
    pub(crate) list: Vec<Option<Clip>>,
}

impl Clips {
    /// No clips yet.
    pub(crate) fn new(alloc: Global) -> Result<Clips, OutOfMemory>
        ensures { IfOk result (λ clips. clips.list.items ≡ replicate 33 None) }
    {
        let mut list = Vec::with_capacity(alloc, SLOTS)?;
        for _slot in 0..SLOTS {
            list.push_reserved(None);
        }
        Ok(Clips { list })
    }

    /// Hands out the clip of a slot, a new one where none was made.
    pub(crate) fn take(&mut self, alloc: Global, slot: u32) -> Result<Clip, OutOfMemory>
        requires slot { slot < 33 }
        requires long { length self.old.list.items ≡ 33 }
        ensures clip { IfOk result (λ clip. clip ≡ clip_of self.old.list.items slot) }
        ensures list { self.new.list.items ≡ slice_set self.old.list.items slot None }
    {
        match self.list[slot as usize].take() {
            Some(clip) => Ok(clip),
            None => Clip::new(alloc, slot),
        }
    }

    /// Puts the clip of a slot back.
    pub(crate) fn put(&mut self, slot: u32, clip: Clip)
        requires slot { slot < 33 }
        requires long { length self.old.list.items ≡ 33 }
        ensures list { self.new.list.items ≡ slice_set self.old.list.items slot (Some clip) }
    {
        self.list[slot as usize] = Some(clip);
    }
}
