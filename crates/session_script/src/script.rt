//! Scripts.
ghost use Rattle.std.specs.Prelude.{◌≡◌, ◌<◌, Some, length, slice_get, IfOk};
ghost use Rattle.std.specs.Option.{option_map};
ghost use Rattle.script_grammar.specs.Session.{step_count, paint_count, lines_by, call_line, fonts_of, images_of};
ghost use Rattle.script_grammar.specs.Limits.{IsSession};
ghost use Rattle.script_grammar.specs.Printing.{script_text, line_words};
ghost use Rattle.script_grammar.specs.Spelling.{words_of};
ghost use Rattle.script_grammar.specs.Reading.{script_of};
ghost use Rattle.script_grammar.specs.Answers.{ReaderAnswers};
ghost use Rattle.session_script.specs.Stored.{said_by, IsFoundIn};

use gfx_fills::Image;
use glyph_masks::Font;
use qws_base::{Depth, OutOfMemory, Rgb, Size};
use script_grammar::ScriptStop;
use script_reader::{
    Body, Head, LinePlace, Starts, client_starts, cut_at, found, paint_places, step_places,
};
use std::alloc::Global;
use std::marker::Model;

/// A script. It keeps its bytes, and where the line of each call begins, so that a call is read from its own line. Contracts
/// see what it says.
#[derive(Debug, Drop)]
pub struct Script {
    bytes: Vec<u8>,
    head: Head,
    fonts: Vec<Font>,
    images: Vec<Image>,
    places: Vec<LinePlace>,
    starts: Vec<Starts>,
}

impl Model for Script {
    ghost use Rattle.std.specs.Prelude.{◌≡◌};
    ghost use Rattle.script_grammar.specs.Session.{Session};
    ghost use Rattle.script_reader.specs.Places.{starts_of};
    ghost use Rattle.session_script.specs.Stored.{said_by, IsFoundIn};

    ghost Value = { Session };

    ghost view = { λ s. said_by s.bytes.items };

    ghost invariant = { λ s. IsFoundIn s.bytes.items s.head s.fonts.items s.images.items s.places.items × (s.starts.items ≡ starts_of s.head.clients s.places.items) };
}

// The script of bytes that were read, with what was found in them.
fn made(alloc: Global, bytes: Vec<u8>, head: Head, body: Body) -> Result<Script, OutOfMemory>
    requires { IsFoundIn bytes.items head body.fonts.items body.images.items body.places.items }
    ensures { IfOk result (λ script. script ≡ said_by bytes.items) }
{
    let starts = client_starts(alloc, &body.places, head.clients)?;
    Ok(Script {
        bytes,
        head,
        fonts: body.fonts,
        images: body.images,
        places: body.places,
        starts,
    })
}

impl Script {
    /// Reads a script: the bytes are all of it. Bad exactly where they are no script, with the first bad line, counted from 1,
    /// and the first cause that applies to it. The bytes are gone through once.
    pub fn read(alloc: Global, bytes: &[u8]) -> Result<Script, ScriptStop>
        ensures reads { ReaderAnswers result (script_of bytes.now) }
        ensures session { IfOk result (λ script. IsSession script) }
        ensures printed { IfOk result (λ script. bytes.now ≡ script_text script) }
    {
        match found(alloc, bytes)? {
            Ok((head, body)) => {
                let kept = bytes.to_vec(alloc)?;
                Ok(made(alloc, kept, head, body)?)
            }
            Err((line, cause)) => Err(ScriptStop::Bad { line, cause }),
        }
    }

    /// The depth of the screen.
    pub fn depth(&self) -> Depth
        ensures { result ≡ self.now.depth }
    {
        self.head.depth
    }

    /// The size of the screen.
    pub fn size(&self) -> Size
        ensures { result ≡ self.now.size }
    {
        self.head.size
    }

    /// The backdrop, as a colour.
    pub fn backdrop(&self) -> Rgb
        ensures { result ≡ self.now.backdrop }
    {
        self.head.backdrop
    }

    /// How many clients there are.
    pub fn clients(&self) -> u32
        ensures clients { result ≡ self.now.clients }
        ensures session { IsSession self.now }
    {
        self.head.clients
    }

    /// The fonts, in the order of their lines.
    pub(crate) fn fonts(&self) -> &[Font]
        ensures { result.now ≡ fonts_of self.now.assets }
    {
        &self.fonts
    }

    /// The images, in the order of their lines.
    pub(crate) fn images(&self) -> &[Image]
        ensures { result.now ≡ images_of self.now.assets }
    {
        &self.images
    }

    /// How many commands a client gives. None where there is no such client.
    pub fn steps(&self, client: u32) -> u64
        ensures { result ≡ step_count self.now client }
    {
        step_places(&self.places, client)
    }

    /// How often a client paints. Not at all where there is no such client.
    pub fn paints(&self, client: u32) -> u64
        ensures { result ≡ paint_count self.now client }
    {
        paint_places(&self.places, client)
    }

    /// How many calls there are.
    pub fn calls(&self) -> u64
        ensures calls { result ≡ length self.now.calls }
        ensures session { IsSession self.now }
    {
        self.places.len() as u64
    }

    /// The client of call line `j`, counted from 0.
    pub fn client_of(&self, j: u64) -> u32
        requires { j < length self.now.calls }
        ensures client { option_map (λ line. line.client) (slice_get self.now.calls j) ≡ Some result }
        ensures below { result < self.now.clients }
    {
        self.places[j as usize].client
    }

    /// The bytes of a client's call `k`, counted from 0, without the line feed. No other line is looked at.
    pub(crate) fn line(&self, client: u32, k: u64) -> &[u8]
        requires { k < length (lines_by client self.now.calls) }
        ensures words { option_map line_words (call_line self.now client k) ≡ Some (words_of result.now) }
        ensures session { IsSession self.now }
    {
        let starts = &self.starts[client as usize];
        let start = starts.at(k);
        let rest = &self.bytes[start..];
        match cut_at(rest, b'\n') {
            Some((line, _)) => line,
            None => unreachable!(),
        }
    }

    /// The bytes of the script.
    pub fn print(&self, alloc: Global) -> Result<Vec<u8>, OutOfMemory>
        ensures { IfOk result (λ bytes. bytes.items ≡ script_text self.now) }
    {
        Ok(self.bytes.to_vec(alloc)?)
    }
}
