//! Pictures, seen as their sheets.
ghost use Rattle.std.specs.Prelude.{◌≡◌, ◌↔◌, length, IsTrue, IfOk};
ghost use Rattle.qws_base.specs.Sheets.{Sheet, row_of, IsRow};
ghost use Rattle.qws_base.specs.Lending.{skips};

use crate::inks::Ink;
use crate::lists::OutOfMemory;
use crate::points::Rect;
use std::alloc::Global;
use std::marker::Model;

/// Something to paint: an ink for each point, Skip outside a rectangle. Points are local to a window's origin.
pub trait Picture {
    /// The inks of its points by rows.
    ghost sheet: { Self → Sheet };

    /// The rectangle outside of which every ink is Skip.
    fn reach(&self) -> Rect
        ensures { result ≡ (sheet self.now).reach };

    /// Fills `out` with the inks of the points of a row, from the point `(x, y)` to the right: `out[j]` is that of
    /// `(x + j, y)`. Rows are in -8,192 to 8,191, and columns too. It takes no memory.
    fn row(&self, y: i32, x: i32, out: &mut [Ink])
        requires { IsRow y x (length out.old) }
        ensures { out.new ≡ row_of (sheet self.now) y x (length out.old) };
}

/// Whether so many points of a row, from the point `(x, y)` to the right, may be asked for: those in columns and rows -8,192
/// to 8,191.
pub fn is_row(y: i32, x: i32, len: usize) -> bool
    ensures { IsTrue result ↔ IsRow y x len }
{
    if y < -8192 || y > 8191 {
        return false;
    }
    if x < -8192 || x > 8192 || len > 16384 {
        return false;
    }
    x + len as i32 <= 8192
}

// The pixels of the longest row of a screen.
const ROW: usize = 640;

// Skip in so many places.
#[tactic(auto, unfolding(crate::specs::Lending::skips))]
fn skips(alloc: Global, n: usize) -> Result<Vec<Ink>, OutOfMemory>
    ensures skips { IfOk result (λ v. v.items ≡ skips n) }
    ensures len { IfOk result (λ v. length v.items ≡ n) }
{
    Ok(vec![in alloc; Ink::Skip; n]?)
}

/// Room for the inks of a screen's row: 640 of them. Contracts see them as a list.
#[derive(Debug, Drop)]
pub struct RowBuf {
    items: Vec<Ink>,
}

impl Model for RowBuf {
    ghost use Rattle.std.specs.Prelude.{◌≡◌, List, length};
    ghost use Rattle.qws_base.specs.declared.inks.Ink.{Ink};

    ghost Value = { List Ink };

    ghost view = { λ b. b.items.items };

    ghost invariant = { λ b. length b.items.items ≡ 640 };
}

impl RowBuf {
    ghost use Rattle.std.specs.Borrow.{sem};
    ghost use Rattle.qws_base.specs.Lending.{LendsInks};

    /// Room with Skip in it everywhere.
    pub fn new(alloc: Global) -> Result<RowBuf, OutOfMemory>
        ensures skips { IfOk result (λ row. row ≡ skips 640) }
        ensures len { IfOk result (λ row. length row ≡ 640) }
    {
        Ok(RowBuf {
            items: skips(alloc, ROW)?,
        })
    }

    /// Lends the inks.
    pub fn inks(&mut self) -> &mut [Ink]
        ensures* writes_back { sem 𝓛 (LendsInks self.entry result) }
        ensures value { result.now ≡ self.old }
        ensures len { length result.now ≡ 640 }
    {
        self.items.as_mut_slice()
    }
}
