//! The cells of a cursor on the screen.
ghost use Rattle.std.specs.Prelude.{◌≡◌, ◌*◌, ◌<◌, IfSome};
ghost use Rattle.qws_base.specs.Colours.{IsSceneColour};
ghost use Rattle.qws_base.specs.Shown.{IsShape};
ghost use Rattle.sw_cursor.specs.Shapes.{nth_cell_on};

use qws_base::{Cursor, Depth, Point, Rgb};

// The scene colour that a word holds.
pub(crate) fn scene_colour(depth: Depth, word: u64) -> Rgb
    requires { IsSceneColour depth word }
    ensures { result ≡ word }
{
    let full = match depth {
        Depth::Full => word,
        Depth::Narrow => word,
    };
    match Rgb::new(full as u32) {
        Some(colour) => colour,
        None => unreachable!(),
    }
}

/// The cell that a shown cursor has on a point, counted by rows; none exactly where no shown cell lies on the point.
pub fn cell_on(cursor: &Cursor, p: Point) -> Option<u32>
    requires { IsShape cursor.now }
    ensures value { result ≡ nth_cell_on cursor.now p }
    ensures range { IfSome result (λ k. k < cursor.now.w * cursor.now.h) }
{
    let (column, row) = cursor.cell_on(p)?;
    Some(row * cursor.w + column)
}
