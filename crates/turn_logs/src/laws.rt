//! Laws of logs, of words that stand for scenes, of published tables and of sessions. Each function does nothing; its clause
//! is the law.
ghost use Rattle.turn_logs.specs.Carries.{StepLaw, PaintLaw};
ghost use Rattle.turn_logs.specs.Sessions.{SessionLaw, PictureLaw};
ghost use Rattle.turn_logs.specs.Publishing.{PublishLaw, FollowLaw, StampLaw, StillLaw};
ghost use Rattle.turn_logs.specs.Phases.{PhaseLaw, AwayLaw, CellsLaw};
ghost use Rattle.turn_logs.specs.Pixels.{PixelsLaw};

use qws_base::{refused_stays, windows_stay_arranged};

/// Where words stand for a scene that is the backdrop outside all rows, the words after a log that carries a step stand
/// for the scene after the step.
pub fn steps_are_carried()
    ensures { StepLaw }
{}

/// Where words stand for a scene, the words after a log that carries a paint with its reply stand for the scene after the
/// paint.
pub fn paints_are_carried()
    ensures { PaintLaw }
{}

/// Where turns follow each other, each carrying its entry, their entries are a legal history, and the words after all
/// their logs stand for the scene after it.
pub fn sessions_are_carried()
    ensures { SessionLaw }
{
    refused_stays();
    windows_stay_arranged();
}

/// The words that a screen opens with are those of the opening world. Where words are those of a world, the colours of
/// their framebuffer words are its shown picture.
pub fn pictures_are_shown()
    ensures { PictureLaw }
{
    windows_stay_arranged();
}

/// The words that spell the table of a state are a table, and are read as that one.
pub fn tables_are_published()
    ensures { PublishLaw }
{}

/// Words that spell two tables of which each row is equal, or has a greater revision in the second, follow each other.
pub fn tables_follow_each_other()
    ensures { FollowLaw }
{}

/// Words of which only the stamp is another are a table with that stamp, with the same cursor, and follow what they followed.
pub fn stamps_alone_change()
    ensures { StampLaw }
{}

/// A log without a write carries a command that is refused, where the cursor stays, and one that moves no window, where the
/// rows stay too. Then the words but the stamp may stay. An empty log carries a paint that is gone.
pub fn reads_carry()
    ensures { StillLaw }
{}

/// A true log that lifts the cursor off the framebuffer, changes the scene there and puts the cursor down carries a step.
pub fn phases_carry()
    ensures { PhaseLaw }
{}

/// A log with nothing on the words under the shown cells of a cursor that stays carries a step where it changes the scene.
pub fn logs_away_carry()
    ensures { AwayLaw }
{}

/// Cell by cell, a shown cursor is lifted off the framebuffer and put down there; a hidden one asks for nothing.
pub fn cells_are_lifted()
    ensures { CellsLaw }
{}

/// The items of a sheet on the pixels of a slot, in any order, carry its paint; as many have ink as the reply counts. Pixels
/// without ink may be left out.
pub fn pixels_carry()
    ensures { PixelsLaw }
{}
