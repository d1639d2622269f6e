//! Frames built part by part. Numbers are written lowest byte first.
ghost use Rattle.std.specs.Prelude.{◌≡◌, ◌++◌, All, None, IfOk, OnOk};
ghost use Rattle.byteorder.specs.Endian.{little_bytes};
ghost use Rattle.qws_frames.specs.Encoding.{head_bytes, words_bytes, rect_words, rects_bytes, IsRect};
ghost use Rattle.qws_frames.specs.Stops.{encode_refusal_in};

use crate::stops::EncodeStop;
use byteorder::{ByteOrder, LittleEndian};
use qws_base::Rect;
use std::alloc::Global;

pub fn put_u16(frame: &mut Vec<u8>, value: u16) -> Result<(), EncodeStop>
    ensures put { OnOk result (frame.new.items ≡ frame.old.items ++ little_bytes 2 value) }
    ensures refusal { encode_refusal_in result ≡ None }
{
    let mut bytes = [0; 2];
    LittleEndian::write_u16(&mut bytes, value);
    frame.extend_from_slice(&bytes)?;
    Ok(())
}

pub fn put_u32(frame: &mut Vec<u8>, value: u32) -> Result<(), EncodeStop>
    ensures put { OnOk result (frame.new.items ≡ frame.old.items ++ little_bytes 4 value) }
    ensures refusal { encode_refusal_in result ≡ None }
{
    let mut bytes = [0; 4];
    LittleEndian::write_u32(&mut bytes, value);
    frame.extend_from_slice(&bytes)?;
    Ok(())
}

pub fn put_words(frame: &mut Vec<u8>, words: &[u32]) -> Result<(), EncodeStop>
    ensures put { OnOk result (frame.new.items ≡ frame.old.items ++ words_bytes words.now) }
    ensures refusal { encode_refusal_in result ≡ None }
{
    for word in words {
        put_u32(frame, *word)?;
    }
    Ok(())
}

fn put_rect(frame: &mut Vec<u8>, rect: Rect) -> Result<(), EncodeStop>
    ensures put { OnOk result (frame.new.items ≡ frame.old.items ++ words_bytes (rect_words rect)) }
    ensures fits { IsRect rect }
    ensures refusal { encode_refusal_in result ≡ None }
{
    let x = rect.x.cast_unsigned();
    let y = rect.y.cast_unsigned();
    put_words(frame, &[x, y, rect.w, rect.h])
}

pub fn put_rects(frame: &mut Vec<u8>, rects: &[Rect]) -> Result<(), EncodeStop>
    ensures put { OnOk result (frame.new.items ≡ frame.old.items ++ rects_bytes rects.now) }
    ensures fit { OnOk result (All IsRect rects.now) }
    ensures refusal { encode_refusal_in result ≡ None }
{
    for rect in rects {
        put_rect(frame, *rect)?;
    }
    Ok(())
}

/// The head of a frame, with room for the whole frame.
pub fn head(alloc: Global, kind: u16, simple: u16, raw: u32) -> Result<Vec<u8>, EncodeStop>
    ensures written { IfOk result (λ frame. frame.items ≡ head_bytes kind simple raw) }
    ensures refusal { encode_refusal_in result ≡ None }
{
    let mut frame = Vec::with_capacity(alloc, 8 + simple as usize + raw as usize)?;
    put_u16(&mut frame, kind)?;
    put_u16(&mut frame, simple)?;
    put_u32(&mut frame, raw)?;
    Ok(frame)
}
