//! A rectangle in a word: sixteen bits each for its column, row, width and height, from the lowest on.
ghost use Rattle.std.specs.Prelude.{◌≡◌};
ghost use Rattle.region_table.specs.Packing.{IsPackable, packed, unpacked};

use qws_base::Rect;

/// The word of a rectangle whose four numbers are each 0 to 65,535.
pub fn pack(rect: Rect) -> u64
    requires { IsPackable rect }
    ensures word { result ≡ packed rect }
    ensures back { unpacked result ≡ rect }
{
    rect.x as u64 + ((rect.y as u64) << 16) + (u64::from(rect.w) << 32) + (u64::from(rect.h) << 48)
}

/// The rectangle of a word.
pub fn unpack(word: u64) -> Rect
    ensures rect { result ≡ unpacked word }
    ensures packable { IsPackable result }
    ensures back { packed result ≡ word }
{
    Rect {
        x: (word % 65536) as i32,
        y: (word / 65536 % 65536) as i32,
        w: (word / 4294967296 % 65536) as u32,
        h: (word / 281474976710656) as u32,
    }
}
