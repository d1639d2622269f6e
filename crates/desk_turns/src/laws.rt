//! Laws of the regions that a step changes. Each function does nothing; its clause is the law.
ghost use Rattle.desk_turns.specs.Asked.{AskedLaw};
ghost use Rattle.desk_turns.specs.Redraws.{RedrawnLaw};

use scene_turns::scenes_are_changed;
use turn_logs::{cells_are_lifted, phases_carry};

/// The pixels that a move carries, and those that lose their last owner, are what an accepted step asks of the scene.
pub fn steps_ask_for_regions()
    ensures { AskedLaw }
{}

/// A true log that lifts the cursor off, carries and fills what a step asks, and puts the cursor down carries the step.
pub fn redrawn_steps_are_carried()
    ensures { RedrawnLaw }
{
    cells_are_lifted();
    phases_carry();
    scenes_are_changed();
}
