//! What a planned command does to channels and mailboxes.
ghost use Rattle.std.specs.Prelude.{◌≡◌, ◌<◌, List, All, option_copied};
ghost use Rattle.std.specs.List.{fold};
ghost use Rattle.qws_base.specs.Steps.{owner_told};
ghost use Rattle.window_core.specs.Changes.{CanCarry, gone_forgotten, mail_after};

use qcop_channels::{Channels, PreparedJoin, PreparedSend};
use qws_base::{Bytes, WindowView};
use window_arrangements::window_of;

/// What an accepted command does to channels and mailboxes, with all memory that it takes.
#[derive(Debug, Drop)]
pub enum MailChange {
    /// Nothing.
    Nothing,
    /// A client joins a channel.
    Join { join: PreparedJoin },
    /// A client leaves a channel.
    Leave { client: u32, channel: Bytes },
    /// A message goes out.
    Send { send: PreparedSend },
    /// A client takes its oldest event.
    Take { client: u32 },
    /// The window of a slot goes, and the owners of slots are told that their pixels changed.
    Regions { gone: Option<u32>, told: Vec<u32> },
}

/// The event of a window that goes leaves its owner's mailbox.
fn forget(channels: &mut Channels, windows: &[WindowView], gone: Option<u32>)
    requires owners { All (λ w. w.owner < 16) windows.now }
    requires slots { All (λ w. w.slot < 32) windows.now }
    ensures { channels.new ≡ gone_forgotten windows.now channels.old gone }
{
    let Some(slot) = gone else {
        return;
    };
    if let Some(window) = window_of(windows, slot) {
        channels.forget_region(window.owner, window.slot);
    }
}

/// The owners of the slots are told that their pixels changed.
fn tell(channels: &mut Channels, windows: &[WindowView], told: &[u32])
    requires owners { All (λ w. w.owner < 16) windows.now }
    requires slots { All (λ slot. slot < 32) told.now }
    ensures { channels.new ≡ fold (owner_told windows.now) channels.old told.now }
{
    for slot in told {
        if let Some(window) = window_of(windows, *slot) {
            channels.tell_region(window.owner, *slot);
        }
    }
}

/// Makes the change, with the windows before and after the command. It takes no memory.
pub fn carry(
    channels: &mut Channels,
    before: &[WindowView],
    after: &[WindowView],
    change: MailChange,
)
    requires can { CanCarry channels.old change }
    requires owners { All (λ w. w.owner < 16) before.now }
    requires slots { All (λ w. w.slot < 32) before.now }
    requires owners_after { All (λ w. w.owner < 16) after.now }
    ensures { channels.new ≡ mail_after before.now after.now change channels.old }
{
    match change {
        MailChange::Nothing => {}
        MailChange::Join { join } => channels.carry_join(join),
        MailChange::Leave { client, channel } => {
            let _ = channels.leave(client, channel.as_slice());
        }
        MailChange::Send { send } => channels.carry_send(send),
        MailChange::Take { client } => {
            let _ = channels.take(client);
        }
        MailChange::Regions { gone, told } => {
            forget(channels, before, gone);
            tell(channels, after, &told);
        }
    }
}
