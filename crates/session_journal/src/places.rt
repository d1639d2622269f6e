//! Where a reader of a file stands, and what a byte does there.
ghost use Rattle.std.specs.Prelude.{◌≡◌, ◌<◌, ◌≤◌};
ghost use Rattle.session_journal.specs.Grammar.{is_printing};
ghost use Rattle.session_journal.specs.Places.{IsWithin, place_after, first_digit, with_digit};

/// Where a reader of a file stands.
#[derive(Clone, Copy)]
pub enum Stage {
    /// Behind so many bytes of `P6` and its line end.
    Magic { read: usize },
    /// At the beginning of a line, which is a comment or has the size.
    Line,
    /// In a comment.
    Comment,
    /// Behind digits of the width, with their value.
    Width { w: u32 },
    /// Behind the width and its blank.
    Blank { w: u32 },
    /// Behind digits of the height, with their value.
    Height { w: u32, h: u32 },
    /// Behind the height, and so many bytes of `255` and its line end.
    Most { w: u32, h: u32, read: usize },
    /// Before the raster.
    Raster { w: u32, h: u32 },
}

// The value of the first digit of a number that has no leading zeros.
fn first_digit(byte: u8) -> Option<u32>
    ensures { result ≡ first_digit byte }
{
    match byte {
        b'1'..=b'9' => Some(u32::from(byte - b'0')),
        _ => None,
    }
}

// A number with one digit more, if it is at most that.
fn with_digit(most: u32, n: u32, byte: u8) -> Option<u32>
    requires { n ≤ 640 }
    ensures { result ≡ with_digit most n byte }
{
    match byte {
        b'0'..=b'9' => {
            let n = 10 * n + u32::from(byte - b'0');
            if n <= most { Some(n) } else { None }
        }
        _ => None,
    }
}

fn is_printing(byte: u8) -> bool
    ensures { result ≡ is_printing byte }
{
    32 <= byte && byte <= 126
}

/// The place behind a byte, if some file goes on with it there; `len` is the length of the comment so far. Not asked
/// before the raster.
pub fn place_after(place: Stage, len: usize, byte: u8) -> Option<Stage>
    requires { IsWithin place }
    ensures { result ≡ place_after place len byte }
{
    match place {
        Stage::Magic { read } if byte != b"P6\n"[read] => None,
        Stage::Magic { read: 2 } => Some(Stage::Line),
        Stage::Magic { read } => Some(Stage::Magic { read: read + 1 }),
        Stage::Line if byte == b'#' => Some(Stage::Comment),
        Stage::Line => first_digit(byte).map(|w| Stage::Width { w }),
        Stage::Comment if byte == b'\n' => Some(Stage::Line),
        Stage::Comment if is_printing(byte) && len < 64 => Some(Stage::Comment),
        Stage::Comment => None,
        Stage::Width { w } if byte == b' ' => Some(Stage::Blank { w }),
        Stage::Width { w } => with_digit(640, w, byte).map(|w| Stage::Width { w }),
        Stage::Blank { w } => first_digit(byte).map(|h| Stage::Height { w, h }),
        Stage::Height { w, h } if byte == b'\n' => Some(Stage::Most { w, h, read: 0 }),
        Stage::Height { w, h } => with_digit(480, h, byte).map(|h| Stage::Height { w, h }),
        Stage::Most { read, .. } if byte != b"255\n"[read] => None,
        Stage::Most { w, h, read: 3 } => Some(Stage::Raster { w, h }),
        Stage::Most { w, h, read } => Some(Stage::Most {
            w,
            h,
            read: read + 1,
        }),
        Stage::Raster { .. } => None,
    }
}
