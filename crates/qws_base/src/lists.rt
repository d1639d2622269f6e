//! Lists of rectangles, bytes and words. Contracts see each as a list.
ghost use Rattle.std.specs.Prelude.{◌≡◌, ◌==◌, IsTrue, ◌↔◌, IfOk};
ghost use Rattle.std.specs.Cmp.Lexicographic.{pointwise};
ghost use Rattle.std.proofs.lemmas.Cmp.{nat_list_eq_equiv, lists_equiv};
ghost use Rattle.std.specs.Cmp.{partial_equiv_from_equiv};
ghost use Rattle.qws_base.specs.Equal.{same_rect, same_rect_equiv};

use crate::points::Rect;
use std::alloc::{AllocError, AllocFailed, Global};
use std::marker::Model;

/// No memory was there.
#[derive(Clone, Copy, Debug, PartialEq, Eq)]
pub struct OutOfMemory;

impl From<AllocError> for OutOfMemory {
    fn from(_: AllocError) -> Self {
        OutOfMemory
    }
}

impl<T: Drop> From<AllocFailed<T>> for OutOfMemory {
    fn from(_: AllocFailed<T>) -> Self {
        OutOfMemory
    }
}

/// A list of rectangles.
#[derive(Debug, Drop)]
pub struct Rects {
    items: Vec<Rect>,
}

impl Model for Rects {
    ghost use Rattle.std.specs.Prelude.{List};
    ghost use Rattle.qws_base.specs.declared.points.Rect.{Rect};

    ghost Value = { List Rect };

    ghost view = { λ r. r.items.items };
}

impl Rects {
    /// The list of a vector. It takes no memory.
    pub fn of(v: Vec<Rect>) -> Self
        ensures { result ≡ v.items }
    {
        Rects { items: v }
    }

    /// What is in the list.
    pub fn as_slice(&self) -> &[Rect]
        ensures { result.now ≡ self.now }
    {
        self.items.as_slice()
    }

    /// An equal list.
    pub fn copy(&self, alloc: Global) -> Result<Self, OutOfMemory>
        ensures { IfOk result (λ copy. copy ≡ self.now) }
    {
        Ok(Rects {
            items: self.items.to_vec(alloc)?,
        })
    }
}

impl PartialEq for Rects {
    ghost eq = { pointwise same_rect };

    ghost laws = { partial_equiv_from_equiv (lists_equiv same_rect_equiv) };

    fn eq(&self, other: &Rects) -> bool
        ensures value { result ≡ pointwise same_rect self.now other.now }
        ensures same { IsTrue result ↔ (self.now ≡ other.now) }
    {
        self.items.as_slice() == other.items.as_slice()
    }
}

impl Eq for Rects {
    ghost laws = { lists_equiv same_rect_equiv };
}

/// A list of bytes.
#[derive(Debug, Drop)]
pub struct Bytes {
    items: Vec<u8>,
}

impl Model for Bytes {
    ghost use Rattle.std.specs.Prelude.{List, ℕ};

    ghost Value = { List ℕ };

    ghost view = { λ r. r.items.items };
}

impl Bytes {
    /// The list of a vector. It takes no memory.
    pub fn of(v: Vec<u8>) -> Self
        ensures { result ≡ v.items }
    {
        Bytes { items: v }
    }

    /// What is in the list.
    pub fn as_slice(&self) -> &[u8]
        ensures { result.now ≡ self.now }
    {
        self.items.as_slice()
    }

    /// An equal list.
    pub fn copy(&self, alloc: Global) -> Result<Self, OutOfMemory>
        ensures { IfOk result (λ copy. copy ≡ self.now) }
    {
        Ok(Bytes {
            items: self.items.to_vec(alloc)?,
        })
    }
}

impl PartialEq for Bytes {
    ghost eq = { pointwise ◌==◌ };

    ghost laws = { partial_equiv_from_equiv nat_list_eq_equiv };

    fn eq(&self, other: &Bytes) -> bool
        ensures value { result ≡ pointwise ◌==◌ self.now other.now }
        ensures same { IsTrue result ↔ (self.now ≡ other.now) }
    {
        self.items.as_slice() == other.items.as_slice()
    }
}

impl Eq for Bytes {
    ghost laws = { nat_list_eq_equiv };
}

/// A list of numbers of 32 bits.
#[derive(Debug, Drop)]
pub struct Words {
    items: Vec<u32>,
}

impl Model for Words {
    ghost use Rattle.std.specs.Prelude.{List, ℕ};

    ghost Value = { List ℕ };

    ghost view = { λ r. r.items.items };
}

impl Words {
    /// The list of a vector. It takes no memory.
    pub fn of(v: Vec<u32>) -> Self
        ensures { result ≡ v.items }
    {
        Words { items: v }
    }

    /// What is in the list.
    pub fn as_slice(&self) -> &[u32]
        ensures { result.now ≡ self.now }
    {
        self.items.as_slice()
    }

    /// An equal list.
    pub fn copy(&self, alloc: Global) -> Result<Self, OutOfMemory>
        ensures { IfOk result (λ copy. copy ≡ self.now) }
    {
        Ok(Words {
            items: self.items.to_vec(alloc)?,
        })
    }
}

impl PartialEq for Words {
    ghost eq = { pointwise ◌==◌ };

    ghost laws = { partial_equiv_from_equiv nat_list_eq_equiv };

    fn eq(&self, other: &Words) -> bool
        ensures value { result ≡ pointwise ◌==◌ self.now other.now }
        ensures same { IsTrue result ↔ (self.now ≡ other.now) }
    {
        self.items.as_slice() == other.items.as_slice()
    }
}

impl Eq for Words {
    ghost laws = { nat_list_eq_equiv };
}
