//! The picture that the server reads in a turn of its own.
ghost use Rattle.std.specs.Prelude.{◌≡◌, ◌≤◌, ◌<◌, [], length, IfOk, vec_capacity};
ghost use Rattle.qws_base.specs.Points.{pixel_count};
ghost use Rattle.qws_base.specs.Colours.{IsSceneColour, shown_colour};
ghost use Rattle.fb_words.specs.declared.known.ServerMode.TheVariants.{Resting, Writing};
ghost use Rattle.fb_words.specs.Steps.{AllHere, AllIdle};
ghost use Rattle.server_desk.specs.Reading.{IsPicture};

use fb_words::{Head, Screen, reads_find_what_was_written};
use qws_base::{Depth, OutOfMemory, Rgb};
use region_table::FIRST_PIXEL;
use std::alloc::Global;

/// Room for the picture of a screen.
pub(crate) fn room_for(alloc: Global, screen: &Screen) -> Result<Vec<u32>, OutOfMemory>
    ensures empty { IfOk result (λ shown. shown.items ≡ []) }
    ensures room { IfOk result (λ shown. pixel_count screen.now.setting.size ≤ vec_capacity shown) }
{
    let size = screen.size();
    let pixels = size.w() as usize * size.h() as usize;
    Ok(Vec::with_capacity(alloc, pixels)?)
}

/// The colour of 24 bits that a framebuffer word shows.
pub(crate) fn shown_word(depth: Depth, word: u64) -> u32
    requires { IsSceneColour depth word }
    ensures { result ≡ shown_colour depth word }
{
    match Rgb::new(word as u32) {
        Some(colour) => depth.shown(colour).value(),
        None => unreachable!(),
    }
}

/// Reads all framebuffer words in a turn that has just opened, and gives the colours that they show. It takes no memory.
pub(crate) fn picture_of(screen: &Screen, head: &mut Head, shown: Vec<u32>) -> Vec<u32>
    requires screen { head.old.screen ≡ screen.now }
    requires writing { head.old.server.mode ≡ Writing }
    requires setting { head.old.server.setting ≡ screen.now.setting }
    requires fresh { head.old.server.log ≡ [] }
    requires here { AllHere head.old.server head.old.sitting }
    requires empty { shown.items ≡ [] }
    requires room { pixel_count screen.now.setting.size ≤ vec_capacity shown }
    ensures { IsPicture head.old result.items }
{
    reads_find_what_was_written();
    let mut shown = shown;
    let size = screen.size();
    let depth = screen.depth();
    let pixels = u64::from(size.w() * size.h());
    for p in 0..pixels {
        let word = screen.read(head, FIRST_PIXEL + p);
        shown.push_reserved(shown_word(depth, word));
    }
    shown
}
