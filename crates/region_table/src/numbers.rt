//! The numbers of the shared words.
ghost use Rattle.std.specs.Prelude.{◌≡◌};
ghost use Rattle.region_table.specs.Numbers.{row_word, pixel_word, cell_word, saved_word};

/// The word of the gate.
pub const GATE: u64 = 0;

/// The word of the stamp.
pub const STAMP: u64 = 1;

/// The word of the cursor's place.
pub const PLACE: u64 = 2;

/// The word of the sides of the cursor's shape.
pub const SHAPE: u64 = 3;

/// What the gate's word holds while the server has closed it, but for the painters.
pub const CLOSED_GATE: u64 = 1 << 32;

/// The first word of the cursor's cells.
pub const FIRST_CELL: u64 = 4;

/// The first word of the saved pixels.
pub const FIRST_SAVED: u64 = 1_028;

/// The first word of the rows.
pub const FIRST_ROW: u64 = 2_052;

/// How many words a row has.
pub const ROW_SIZE: u64 = 260;

/// The first word of the framebuffer.
pub const FIRST_PIXEL: u64 = 10_632;

// The cells of a row of the cursor, and the saved pixels.
const CELL_ROW: u64 = 32;

/// The first word of a slot's row, its owner. The revision, the origin, the number of rectangles and the rectangles follow
/// one by one. Slots are 0 to 32.
pub fn row_at(slot: u32) -> u64
    ensures { result ≡ row_word slot }
{
    FIRST_ROW + ROW_SIZE * u64::from(slot)
}

/// The word of a pixel in the framebuffer. Pixels are numbered by rows from the top left.
pub fn pixel_at(p: u32) -> u64
    ensures { result ≡ pixel_word p }
{
    FIRST_PIXEL + u64::from(p)
}

/// The word of the cursor's cell in a column and a row, each below 32.
pub fn cell_at(cx: u32, cy: u32) -> u64
    ensures { result ≡ cell_word cx cy }
{
    FIRST_CELL + CELL_ROW * u64::from(cy) + u64::from(cx)
}

/// The word in which the scene's pixel under that cell is saved.
pub fn saved_at(cx: u32, cy: u32) -> u64
    ensures { result ≡ saved_word cx cy }
{
    FIRST_SAVED + CELL_ROW * u64::from(cy) + u64::from(cx)
}
