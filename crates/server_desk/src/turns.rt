//! A turn of the desk's server.
ghost use Rattle.std.specs.Prelude.{◌≡◌, ◌≢◌, ◌+◌, ◌<◌, ◌≤◌, [], length, vec_capacity, IfOk, IfErr, MatchResult};
ghost use Rattle.qws_base.specs.Steps.{step};
ghost use Rattle.region_table.specs.Numbers.{closed_gate};
ghost use Rattle.turn_logs.specs.Lists.{total};
ghost use Rattle.fb_words.specs.Views.{is_client};
ghost use Rattle.display_lock.specs.Turns.{shut_out, IsOpenServer, SameServerTurn};
ghost use Rattle.window_core.specs.CoreViews.{Belongs};
ghost use Rattle.step_turns.specs.Changes.{AreChangesOf};
ghost use Rattle.server_desk.specs.Keeping.{IsCurrent};
ghost use Rattle.server_desk.specs.Serving.{HasServed, KeepsStubs};
ghost use Rattle.server_desk.specs.Grabs.{HasGrabbed};
ghost use Rattle.server_desk.specs.Readings.{HasRead};
ghost use Rattle.qws_base.specs.Points.{pixel_count};

use crate::pictures::shown_word;
use display_lock::{ServerTurn, try_server_turn};
use fb_words::{Head, Screen, closed_turns_are_kept, logs_stay_true};
use qws_base::JournalEntry;
use region_table::FIRST_PIXEL;
use step_turns::{Changes, publish};
use window_core::{Core, Plan};

/// The server wasn't let in: the gate word that was found, and the plan as it was.
#[derive(Drop)]
pub(crate) struct ShutOut {
    pub(crate) found: u64,
    pub(crate) plan: Plan,
}

// Reads the first framebuffer words in a turn that has done nothing, and gives the colours that they show.
fn read_pixels(turn: &mut ServerTurn, pixels: u64, shown: Vec<u32>) -> Vec<u32>
    requires open { IsOpenServer turn.old }
    requires fresh { turn.old.head.now.server.log ≡ [] }
    requires pixels { pixels ≤ pixel_count turn.old.screen.now.setting.size }
    requires empty { shown.items ≡ [] }
    requires room { pixels ≤ vec_capacity shown }
    ensures same { SameServerTurn turn.old turn.new }
    ensures open { IsOpenServer turn.new }
    ensures read { HasRead turn.old.head.now turn.new.head.now turn.old.screen.now.setting.depth result.items pixels }
{
    logs_stay_true();
    let mut shown = shown;
    let depth = turn.screen().depth();
    for p in 0..pixels {
        let word = turn.read(FIRST_PIXEL + p);
        shown.push_reserved(shown_word(depth, word));
    }
    shown
}

/// A turn of the server for a plan of the present state, which is committed in it. It first reads so many framebuffer words, and
/// gives the colours that they show. The entry has the next number, which is `number`. It takes no memory.
pub(crate) fn serve(
    head: &mut Head,
    screen: &Screen,
    core: &mut Core,
    plan: Plan,
    changes: &Changes,
    number: u64,
    pixels: u64,
    shown: Vec<u32>,
) -> Result<(JournalEntry, Vec<u32>), ShutOut>
    requires screen { head.old.screen ≡ screen.now }
    requires current { IsCurrent head.old core.old }
    requires belongs { Belongs core.old.size plan core.old.state }
    requires changes { AreChangesOf core.old plan changes.now }
    requires client { plan.client < length head.old.server.limits }
    requires sits { 1 ≤ total (is_client plan.client) head.old.sitting }
    requires number { number ≡ length head.old.server.closed + 1 }
    requires pixels { pixels ≤ pixel_count screen.now.setting.size }
    requires empty { shown.items ≡ [] }
    requires room { pixels ≤ vec_capacity shown }
    ensures entry { IfOk result (λ both. both.0 ≡ record { number = number; client = plan.client; command = plan.command; reply = (step core.old.size core.old.state plan.client plan.command).1 }) }
    ensures served { IfOk result (λ both. HasServed head.old head.new both.0) }
    ensures grab { IfOk result (λ both. HasGrabbed head.new screen.now.setting.depth pixels number both.1.items) }
    ensures current { IsCurrent head.new core.new }
    ensures stubs { KeepsStubs head.old head.new }
    ensures busy { IfErr result (λ out. head.new ≡ shut_out head.old out.found) }
    ensures found { IfErr result (λ out. out.found ≢ closed_gate) }
    ensures plan { IfErr result (λ out. out.plan ≡ plan) }
{
    closed_turns_are_kept();
    let client = plan.client();
    let mut turn = match try_server_turn(head, screen) {
        Ok(turn) => turn,
        Err(busy) => {
            return Err(ShutOut {
                found: busy.found,
                plan,
            });
        }
    };
    let shown = read_pixels(&mut turn, pixels, shown);
    publish(&mut turn, core, &plan, changes, number);
    let (command, reply) = core.commit(plan);
    let entry = JournalEntry {
        number,
        client,
        command,
        reply,
    };
    turn.end(&entry);
    Ok((entry, shown))
}
