//! The bytes of a file.
ghost use Rattle.std.specs.Prelude.{◌≡◌, ◌++◌, ◌<◌, ◌^◌, length, map, All, OnOk, IfOk, string_bytes};
ghost use Rattle.std.specs.List.{flat_map};
ghost use Rattle.session_journal.specs.Texts.{told, entries_of, reply_words, paint_words, comment, comments, line_text, head_text, colour_bytes, file_bytes, file_of_entries};
ghost use Rattle.session_journal.specs.Grammar.{IsComment, IsFile};
ghost use Rattle.qws_base.specs.Points.{pixel_count};

use crate::histories::{Entry, History};
use crate::texts::{paint_text, reply_text};
use qws_base::{OutOfMemory, PaintReply, Reply, Size};
use std::alloc::Global;
use std::collections::HashMap;

fn push_words(
    alloc: Global,
    out: &mut Vec<u8>,
    client: u32,
    number: u64,
    words: &String,
) -> Result<(), OutOfMemory>
    ensures { OnOk result (out.new.items ≡ out.old.items ++ comment client number (string_bytes words.now)) }
{
    let words = words.as_str();
    let text = format!(in alloc; " {client} {number} {words}")?;
    out.extend_from_slice(text.as_bytes())?;
    Ok(())
}

/// Adds the comment of a command: its client, how many of the client's entries stand before it, and the reply. It begins
/// with the blank behind `#` and has no line end.
pub fn push_step_comment(
    alloc: Global,
    out: &mut Vec<u8>,
    client: u32,
    number: u64,
    reply: &Reply,
) -> Result<(), OutOfMemory>
    ensures comment { OnOk result (out.new.items ≡ out.old.items ++ comment client number (reply_words reply.now)) }
    ensures line { number < 2 ^ 32 → IsComment (comment client number (reply_words reply.now)) }
{
    let words = reply_text(alloc, reply)?;
    push_words(alloc, out, client, number, &words)
}

/// Adds the comment of a paint, in the same form.
pub fn push_paint_comment(
    alloc: Global,
    out: &mut Vec<u8>,
    client: u32,
    number: u64,
    reply: PaintReply,
) -> Result<(), OutOfMemory>
    ensures comment { OnOk result (out.new.items ≡ out.old.items ++ comment client number (paint_words reply)) }
    ensures line { number < 2 ^ 32 → IsComment (comment client number (paint_words reply)) }
{
    let words = paint_text(alloc, reply)?;
    push_words(alloc, out, client, number, &words)
}

// The line of an entry, behind that many entries of its client.
fn push_line(
    alloc: Global,
    out: &mut Vec<u8>,
    number: u64,
    entry: &Entry,
) -> Result<(), OutOfMemory>
    ensures text { OnOk result (out.new.items ≡ out.old.items ++ line_text (comment (told entry.now).client number (told entry.now).words)) }
    ensures line { number < 2 ^ 32 → OnOk result (IsComment (comment (told entry.now).client number (told entry.now).words)) }
{
    out.push(b'#')?;
    match entry {
        Entry::Step { client, reply, .. } => {
            push_step_comment(alloc, out, *client, number, reply)?;
        }
        Entry::Paint { client, reply, .. } => {
            push_paint_comment(alloc, out, *client, number, *reply)?;
        }
    }
    out.push(b'\n')?;
    Ok(())
}

fn client_of(entry: &Entry) -> u32
    ensures { result ≡ (told entry.now).client }
{
    match entry {
        Entry::Step { client, .. } | Entry::Paint { client, .. } => *client,
    }
}

// The lines of all entries.
fn push_lines(alloc: Global, out: &mut Vec<u8>, entries: &[Entry]) -> Result<(), OutOfMemory>
    ensures text { OnOk result (out.new.items ≡ out.old.items ++ flat_map line_text (comments (map told entries.now))) }
    ensures lines { length entries.now < 2 ^ 32 → OnOk result (All IsComment (comments (map told entries.now))) }
{
    let mut counts = HashMap::new(alloc);
    for entry in entries {
        let client = client_of(entry);
        let number = counts.get(&client).copied().unwrap_or(0);
        push_line(alloc, out, number, entry)?;
        counts.insert(client, number + 1)?;
    }
    Ok(())
}

fn push_head(alloc: Global, out: &mut Vec<u8>, size: Size) -> Result<(), OutOfMemory>
    ensures { OnOk result (out.new.items ≡ out.old.items ++ head_text size) }
{
    let w = size.w();
    let h = size.h();
    let text = format!(in alloc; "{w} {h}\n255\n")?;
    out.extend_from_slice(text.as_bytes())?;
    Ok(())
}

fn push_colour(out: &mut Vec<u8>, c: u32) -> Result<(), OutOfMemory>
    ensures { OnOk result (out.new.items ≡ out.old.items ++ colour_bytes c) }
{
    out.push((c / 65536 % 256) as u8)?;
    out.push((c / 256 % 256) as u8)?;
    out.push((c % 256) as u8)?;
    Ok(())
}

fn push_raster(out: &mut Vec<u8>, shown: &[u32]) -> Result<(), OutOfMemory>
    ensures { OnOk result (out.new.items ≡ out.old.items ++ flat_map colour_bytes shown.now) }
{
    for c in shown {
        push_colour(out, *c)?;
    }
    Ok(())
}

/// Adds what stands behind the comments of a file: the size of the screen in pixels, and the colours of the shown pixels by
/// rows.
pub fn push_picture(
    alloc: Global,
    out: &mut Vec<u8>,
    size: Size,
    shown: &[u32],
) -> Result<(), OutOfMemory>
    ensures { OnOk result (out.new.items ≡ out.old.items ++ (head_text size ++ flat_map colour_bytes shown.now)) }
{
    push_head(alloc, out, size)?;
    push_raster(out, shown)
}

/// The file of a history: a comment for each entry, the size of the screen in pixels, and the colours of the shown pixels
/// by rows. With a colour for each pixel it is in the grammar of files, if there are fewer than 2^32 entries.
pub fn write_file(
    alloc: Global,
    size: Size,
    history: &History,
    shown: &[u32],
) -> Result<Vec<u8>, OutOfMemory>
    ensures text { IfOk result (λ bytes. bytes.items ≡ file_bytes (file_of_entries size (map told history.now) shown.now)) }
    ensures file { length history.now < 2 ^ 32 → length shown.now ≡ pixel_count size
        → IfOk result (λ bytes. IsFile bytes.items (file_of_entries size (map told history.now) shown.now)) }
{
    let _width = size.w();
    let mut out = b"P6\n".to_vec(alloc)?;
    push_lines(alloc, &mut out, history.as_slice())?;
    push_picture(alloc, &mut out, size, shown)?;
    Ok(out)
}
