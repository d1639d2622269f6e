//! The close of a session.
ghost use Rattle.std.specs.Prelude.{◌≡◌, ◌≤◌, ◌<◌, false, [], length, map, All, IfOk, IfErr, vec_capacity};
ghost use Rattle.qws_base.specs.Points.{pixel_count};
ghost use Rattle.fb_words.specs.declared.known.Mode.TheVariants.{Idle};
ghost use Rattle.fb_words.specs.Views.{is_writing};
ghost use Rattle.fb_words.specs.Steps.{AllSit, SitOnce, AllHere};
ghost use Rattle.fb_words.specs.Desks.{AreKeptTurns, IsWhole, history_of};
ghost use Rattle.server_desk.specs.Reading.{ShowsWhole};
ghost use Rattle.server_desk.specs.DeskViews.{connected, journal_in};
ghost use Rattle.server_desk.specs.Sessions.{clients_of, books_among, history_in, IsSessionOf, CallsAreOwn};
ghost use Rattle.server_desk.specs.Answers.{IsCloseStop};
ghost use Rattle.server_desk.specs.Grabs.{GrabsAreShown};

use crate::answers::CloseStop;
use crate::desks::Desk;
use crate::kept::Kept;
use crate::pictures::{picture_of, room_for};
use crate::seating::{books_of, seat_all};
use crate::sessions::Closed;
use display_lock::withdraw;
use fb_words::{Head, Pass, Screen, sessions_are_whole};
use qws_base::Book;
use std::alloc::Global;
use turn_logs::{pictures_are_shown, sessions_are_carried};

// The clients of all passes sit, and the server reads the picture of the whole session in a turn that it opens. It takes no memory.
fn read_session(screen: &Screen, head: Head, passes: Vec<Pass>, shown: Vec<u32>) -> Vec<u32>
    requires screen { head.screen ≡ screen.now }
    requires passes { All (λ pass. (pass.screen ≡ screen.now) × (pass.client.mode ≡ Idle)) passes.items }
    requires none { head.sitting ≡ [] }
    requires not_writing { is_writing head.server.mode ≡ false }
    requires quiet { head.server.log ≡ [] }
    requires all { length passes.items ≡ length head.server.limits }
    requires setting { head.server.setting ≡ screen.now.setting }
    requires kept { AreKeptTurns head.server.setting.size head.server.closed head.server.tables }
    requires empty { shown.items ≡ [] }
    requires room { pixel_count screen.now.setting.size ≤ vec_capacity shown }
    ensures sits { AllSit head.server (map (λ pass. pass.client) passes.items) }
    ensures once { SitOnce (map (λ pass. pass.client) passes.items) }
    ensures here { AllHere head.server (map (λ pass. pass.client) passes.items) }
    ensures whole { IsWhole head.server (clients_of (length head.server.limits) passes.items) }
    ensures grabs { GrabsAreShown head.server.setting head.server.closed (history_of head.server (clients_of (length head.server.limits) passes.items)) }
    ensures shown { ShowsWhole head.server (clients_of (length head.server.limits) passes.items) result.items }
{
    sessions_are_whole();
    sessions_are_carried();
    pictures_are_shown();
    let mut head = head;
    seat_all(screen, &mut head, passes);
    withdraw(screen, &mut head);
    screen.announce(&mut head);
    match screen.settle(&mut head) {
        Ok(()) => picture_of(screen, &mut head, shown),
        Err(_) => unreachable!(),
    }
}

impl Desk {
    /// How many clients are connected.
    pub fn connected(&self) -> u32
        ensures value { result ≡ connected self.now }
        ensures few { result ≤ 16 }
    {
        self.kept.connected
    }

    // Takes the desk apart where all connected clients' passes are there, with their books and the room for the picture. It takes no
    // memory.
    fn finish(self, screen: Screen, passes: Vec<Pass>, books: Vec<Book>, shown: Vec<u32>) -> Closed
        requires screen { self.screen ≡ screen }
        requires passes { All (λ pass. (pass.screen ≡ screen) × (pass.client.mode ≡ Idle)) passes.items }
        requires all { length passes.items ≡ connected self }
        requires books { books.items ≡ books_among passes.items (connected self) }
        requires empty { shown.items ≡ [] }
        requires room { pixel_count screen.setting.size ≤ vec_capacity shown }
        ensures journal { result.journal ≡ journal_in self }
        ensures session { IsSessionOf screen.setting (clients_of (connected self) passes.items) result }
        ensures calls { CallsAreOwn passes.items (history_in result.journal (clients_of (connected self) passes.items)) }
        ensures grabs { GrabsAreShown screen.setting self.server.closed (history_in result.journal (clients_of (connected self) passes.items)) }
    {
        let Desk { kept } = self;
        let Kept {
            head,
            core: _,
            journal,
            connected: _,
            made: _,
            left: _,
            room: _,
        } = kept;
        let shown = read_session(&screen, head, passes, shown);
        Closed {
            size: screen.size(),
            shown,
            journal,
            books,
        }
    }

    /// Closes the session, with the passes of all clients, in any order. The journal has all closed turns of the server, and the
    /// books the paints of each client. The merge of the journal with these paints and their sheets is a legal history; `shown` is
    /// the picture after it, with the cursor above, in colours of 24 bits; and each client's entries in it are the own calls of its
    /// pass. What was read at the begin of a closed turn is the picture of the entries before its command.
    ///
    /// `Missing` comes exactly where the number of passes isn't the number connected. After an error all is handed back as it was.
    pub fn close(
        self,
        alloc: Global,
        screen: Screen,
        passes: Vec<Pass>,
    ) -> Result<Closed, (Desk, Screen, Vec<Pass>, CloseStop)>
        requires screen { self.screen ≡ screen }
        requires passes { All (λ pass. (pass.screen ≡ screen) × (pass.client.mode ≡ Idle)) passes.items }
        ensures journal { IfOk result (λ closed. closed.journal ≡ journal_in self) }
        ensures session { IfOk result (λ closed. IsSessionOf screen.setting (clients_of (connected self) passes.items) closed) }
        ensures calls { IfOk result (λ closed. CallsAreOwn passes.items (history_in closed.journal (clients_of (connected self) passes.items))) }
        ensures grabs { IfOk result (λ closed. GrabsAreShown screen.setting self.server.closed (history_in closed.journal (clients_of (connected self) passes.items))) }
        ensures all { IfOk result (λ _. length passes.items ≡ connected self) }
        ensures stop { IfErr result (λ back. IsCloseStop (length passes.items) (connected self) back.3) }
        ensures back { IfErr result (λ back. (back.0 ≡ self) × (back.1 ≡ screen) × (back.2.items ≡ passes.items)) }
    {
        let held = passes.len() as u64;
        let wanted = u64::from(self.connected());
        if held != wanted {
            return Err((self, screen, passes, CloseStop::Missing { held, wanted }));
        }
        let Ok(books) = books_of(alloc, &passes, wanted as u32) else {
            return Err((self, screen, passes, CloseStop::OutOfMemory));
        };
        let Ok(shown) = room_for(alloc, &screen) else {
            return Err((self, screen, passes, CloseStop::OutOfMemory));
        };
        Ok(self.finish(screen, passes, books, shown))
    }
}
