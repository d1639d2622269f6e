//! The lines of the head: `depth`, `screen` and `clients`.
ghost use Rattle.std.specs.Prelude.{◌≡◌, map};
ghost use Rattle.script_grammar.specs.Reading.{line_in};
ghost use Rattle.script_words.specs.Judged.{seen};
ghost use Rattle.script_reader.specs.Stages.{stage_before, next_before, measured_read, counted_read};

use qws_base::{Depth, Rgb, Size};
use script_grammar::Cause;
use script_lines::{clients, depth, screen};

/// What the lines before the fonts and images say: the screen, and how many clients there are.
#[derive(Clone, Copy, Debug, PartialEq, Eq)]
pub struct Head {
    pub depth: Depth,
    pub size: Size,
    pub backdrop: Rgb,
    pub clients: u32,
}

/// What stands before a line of the head.
#[derive(Clone, Copy)]
pub(crate) enum HeadStage {
    /// Nothing.
    Start,
    /// A line `depth`.
    Deep {
        depth: Depth,
    },
    /// A line `screen`, with the depth that it has.
    Measured {
        depth: Depth,
        size: Size,
        backdrop: Rgb,
    },
}

/// What stands behind a line of the head.
#[derive(Clone, Copy)]
pub(crate) enum Next {
    /// A part of the head.
    Part { stage: HeadStage },
    /// All of it.
    Whole { head: Head },
}

// A first line: a depth, or a screen of full depth.
#[tactic(auto, unfolding(script_grammar::specs::Reading::line_in))]
fn first(words: &[&[u8]]) -> Result<Next, Cause>
    ensures { seen next_before result ≡ line_in (stage_before HeadStage.Start) (map (λ w. w.now) words.now) }
{
    match depth(words) {
        Ok(depth) => Ok(Next::Part {
            stage: HeadStage::Deep { depth },
        }),
        Err(Cause::Form) => measured(Depth::Full, words),
        Err(cause) => Err(cause),
    }
}

fn measured(depth: Depth, words: &[&[u8]]) -> Result<Next, Cause>
    ensures { seen next_before result ≡ measured_read depth (map (λ w. w.now) words.now) }
{
    let (size, backdrop) = screen(words)?;
    Ok(Next::Part {
        stage: HeadStage::Measured {
            depth,
            size,
            backdrop,
        },
    })
}

fn counted(depth: Depth, size: Size, backdrop: Rgb, words: &[&[u8]]) -> Result<Next, Cause>
    ensures { seen next_before result ≡ counted_read depth size backdrop (map (λ w. w.now) words.now) }
{
    let clients = clients(words)?;
    Ok(Next::Whole {
        head: Head {
            depth,
            size,
            backdrop,
            clients,
        },
    })
}

/// What stands behind a line of the head with these words, or the first cause why it may not stand there.
#[tactic(auto, unfolding(script_grammar::specs::Reading::line_in))]
pub(crate) fn head_words(stage: HeadStage, words: &[&[u8]]) -> Result<Next, Cause>
    ensures { seen next_before result ≡ line_in (stage_before stage) (map (λ w. w.now) words.now) }
{
    match stage {
        HeadStage::Start => first(words),
        HeadStage::Deep { depth } => measured(depth, words),
        HeadStage::Measured {
            depth,
            size,
            backdrop,
        } => counted(depth, size, backdrop, words),
    }
}
