//! Commands as frames.
ghost use Rattle.std.specs.Prelude.{◌≡◌, IfOk, IfErr};
ghost use Rattle.fb_words.specs.declared.known.Mode.TheVariants.{Idle};
ghost use Rattle.server_desk.specs.Frames.{frame_answer, HasAnsweredFrame, HasStoppedFrame};

use crate::answers::{Answer, CallStop, FrameCallStop};
use crate::desks::Desk;
use fb_words::{Pass, Screen};
use qws_frames::{FrameStop, decode_command};
use std::alloc::Global;

// A command's answer or stop, as that of its frame.
fn of_frame(answer: Result<Answer, CallStop>) -> Result<Answer, FrameCallStop>
    ensures { result ≡ frame_answer answer }
{
    match answer {
        Ok(answer) => Ok(answer),
        Err(CallStop::Busy { found }) => Err(FrameCallStop::Busy { found }),
        Err(CallStop::JournalFull { held }) => Err(FrameCallStop::JournalFull { held }),
        Err(CallStop::OutOfMemory) => Err(FrameCallStop::OutOfMemory),
    }
}

impl Desk {
    /// Makes the command that a frame spells, as `try_call` does. `Frame` comes first, exactly where no command is spelled, with
    /// the first cause; the server isn't asked then, and the gate isn't closed.
    pub fn try_frame(
        &mut self,
        alloc: Global,
        screen: &Screen,
        pass: Pass,
        bytes: &[u8],
    ) -> (Pass, Result<Answer, FrameCallStop>)
        requires screen { self.old.screen ≡ screen.now }
        requires pass { pass.screen ≡ screen.now }
        requires idle { pass.client.mode ≡ Idle }
        ensures answered { IfOk result.1 (λ answer. HasAnsweredFrame self.old self.new pass result.0 bytes.now answer) }
        ensures stopped { IfErr result.1 (λ stop. HasStoppedFrame self.old self.new pass.client bytes.now stop) }
        ensures back { IfErr result.1 (λ _. result.0 ≡ pass) }
    {
        match decode_command(alloc, bytes) {
            Ok(command) => {
                let (pass, answer) = self.try_call(alloc, screen, pass, &command);
                (pass, of_frame(answer))
            }
            Err(FrameStop::OutOfMemory) => {
                self.withdraw(screen);
                (pass, Err(FrameCallStop::OutOfMemory))
            }
            Err(cause) => {
                self.withdraw(screen);
                (pass, Err(FrameCallStop::Frame { cause }))
            }
        }
    }
}
