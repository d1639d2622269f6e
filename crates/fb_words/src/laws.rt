//! Laws of kept clips, owned words and looked rows, of the server's log, and of whole sessions. Each function does nothing;
//! its clause is the law.
ghost use Rattle.fb_words.specs.Clips.{KeptLaw, LookedLaw, RowLaw};
ghost use Rattle.fb_words.specs.Rights.{OwnedLaw};
ghost use Rattle.fb_words.specs.Looks.{LooksLaw, GoingLaw};
ghost use Rattle.fb_words.specs.ServerLogs.{LogLaw, ReadingLaw};
ghost use Rattle.fb_words.specs.Steps.{StubLaw};
ghost use Rattle.fb_words.specs.Desks.{KeepingLaw, WholeLaw};

use qws_base::windows_stay_arranged;
use turn_logs::{pictures_are_shown, sessions_are_carried};

/// What a client keeps for a slot is a clip of that slot. Its rectangles are at most 256, on the screen and disjoint; its
/// revision is at most that of the slot's row in the table that the client sees; and where the two are equal, it is that row,
/// which the client owns.
pub fn kept_clips_are_judged()
    ensures { KeptLaw }
{}

/// A word that a client owns in its turn is the framebuffer word of a pixel that a table which the client sees gives it in the
/// kept clip's slot, or the saved word of a shown cell over such a pixel.
pub fn owned_words_are_given()
    ensures { OwnedLaw }
{}

/// What a desk keeps of each closed turn is kept before the first one, and by each turn that is kept.
pub fn closed_turns_are_kept()
    ensures { KeepingLaw }
{
    windows_stay_arranged();
}

/// Where all admitted clients sit between turns, and a desk has kept the closed turns, the merge of the journal with the
/// clients' paints is a legal history, it leads to the state after all closed turns, and its picture is shown in the words.
pub fn sessions_are_whole()
    ensures { WholeLaw }
{
    sessions_are_carried();
    pictures_are_shown();
}

/// A turn of the server that only reads finds what all closed turns have written.
pub fn reads_find_what_was_written()
    ensures { ReadingLaw }
{}

/// The log of a turn of the server is true at first, and after each read and each write.
pub fn logs_stay_true()
    ensures { LogLaw }
{}

/// Looks of one word after another are those of all. The looked words spell a row exactly where each of its words was looked at
/// and the client owns it.
pub fn rows_are_spelled()
    ensures { LookedLaw }
{}

/// Looks at table words one after another, alone and with reads and writes of pixels between them: what was looked at and
/// owned stays, nothing but those words is looked at, and what is kept for a slot changes only where they are of its row.
pub fn looks_go_on()
    ensures looks { LooksLaw }
    ensures items { GoingLaw }
{}

/// Looked words are the table's. A row that they spell whole is judged by the table and has its row's revision; and a kept
/// clip with the row's revision is the row of its slot, whose pixels its rectangles have.
pub fn kept_clips_are_rows()
    ensures { RowLaw }
{}

/// The stub of a client that sits down sits with the head. Stubs that sit stay so where another client sits down or rises.
pub fn stubs_stay_seated()
    ensures { StubLaw }
{}
