//! The history of a closed session, replayed on a core and a plain picture.
ghost use Rattle.std.specs.Prelude.{◌≡◌, IsTrue, All};
ghost use Rattle.std.specs.Bool.{OnTrue};
ghost use Rattle.window_core.specs.CoreViews.{CanRise};
ghost use Rattle.session_journal.specs.Merging.{AreStamps};

use crate::stops::Stop;
use crate::workers::picture_of;
use pixel_model::{Canvas, are_placed};
use qws_base::{Book, BookEntry, Command, Depth, PaintReply, Reply, Rgb, Size, Words};
use server_desk::Closed;
use session_journal::{Entry, History, merge};
use std::alloc::Global;
use window_core::Core;

// The state of the server and the picture behind a history.
#[derive(Drop)]
struct World {
    core: Core,
    canvas: Canvas,
}

// Whether no revision is the last.
fn can_rise(core: &Core) -> bool
    ensures { OnTrue result (CanRise core.now.state) }
{
    for slot in 0..32 {
        if core.revision(slot) == u64::MAX {
            return false;
        }
    }
    true
}

// The slot of a move.
fn slot_moved(command: &Command) -> Option<u32> {
    match command {
        Command::Move { slot, origin: _ } => Some(*slot),
        _ => None,
    }
}

impl World {
    // A command of a client, which is to be answered so.
    fn step(
        &mut self,
        alloc: Global,
        client: u32,
        command: &Command,
        reply: &Reply,
    ) -> Result<bool, Stop> {
        if client >= 16 {
            return Err(Stop::NoClient);
        }
        if !can_rise(&self.core) {
            return Err(Stop::LastRevision);
        }
        let plan = self.core.plan(alloc, client, command)?;
        let same = plan.reply() == reply;
        if !matches!(reply, Reply::Refused { cause: _ }) {
            let (before, after) = (self.core.windows(), plan.windows());
            if !are_placed(before) || !are_placed(after) {
                return Err(Stop::NotPlaced);
            }
            self.canvas.apply_step(before, after, slot_moved(command));
        }
        self.core.commit(plan);
        Ok(same)
    }

    // A paint of a client, which is to be answered so.
    fn paint(&mut self, client: u32, slot: u32, tag: u64, reply: PaintReply) -> Result<bool, Stop> {
        let windows = self.core.windows();
        if !are_placed(windows) {
            return Err(Stop::NotPlaced);
        }
        let picture = picture_of(client, tag)?;
        Ok(self.canvas.apply_paint(windows, client, slot, &picture) == reply)
    }

    fn entry(&mut self, alloc: Global, entry: &Entry) -> Result<bool, Stop> {
        match entry {
            Entry::Step {
                client,
                command,
                reply,
            } => self.step(alloc, *client, command, reply),
            Entry::Paint {
                client,
                slot,
                tag,
                reply,
            } => self.paint(*client, *slot, *tag, *reply),
        }
    }

    fn shown(&self, alloc: Global) -> Result<Words, Stop> {
        let _windows = self.core.windows();
        Ok(self.canvas.show(alloc, self.core.cursor())?)
    }
}

// Whether stamps never fall, and none is above the last.
fn are_stamps(last: u64, entries: &[BookEntry]) -> bool
    ensures { IsTrue result → AreStamps last entries.now }
{
    for k in 0..entries.len() {
        let stamp = entries[k].stamp;
        if stamp > last {
            return false;
        }
        if k > 0 {
            if stamp < entries[k - 1].stamp {
                return false;
            }
        }
    }
    true
}

// Whether the stamps of all books are so.
fn are_all_stamps(last: u64, books: &[Book]) -> bool
    ensures { IsTrue result → All (λ book. AreStamps last book.entries) books.now }
{
    for k in 0..books.len() {
        if !are_stamps(last, books[k].entries()) {
            return false;
        }
    }
    true
}

/// The merge of a session's journal and books.
pub fn history_of(alloc: Global, closed: &Closed) -> Result<History, Stop> {
    let (journal, books) = (closed.journal(), closed.books());
    let last = journal.len() as u64;
    if !are_all_stamps(last, books) {
        return Err(Stop::NoStamps);
    }
    Ok(merge(alloc, journal, books)?)
}

/// Replays a history on a new screen, and compares each reply: the picture that is shown then.
pub fn replay(
    alloc: Global,
    size: Size,
    depth: Depth,
    backdrop: Rgb,
    history: &History,
) -> Result<Words, Stop> {
    let core = Core::new(alloc, size, backdrop)?;
    let canvas = Canvas::new(alloc, size, depth, backdrop)?;
    let mut world = World { core, canvas };
    for (entry, made) in history.as_slice().iter().enumerate() {
        if !world.entry(alloc, made)? {
            return Err(Stop::Differs { entry });
        }
    }
    world.shown(alloc)
}
