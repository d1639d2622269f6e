//! The canvas: a picture with its screen.
ghost use Rattle.std.specs.Prelude.{◌≡◌, ◌<◌, ◌↔◌, IsTrue, All, length, slice_index, slice_set, IfOk};
ghost use Rattle.qws_base.specs.Colours.{IsSceneColour};
ghost use Rattle.qws_base.specs.Inks.{ink_after};
ghost use Rattle.qws_base.specs.Points.{IsPlaced, pixel_count};
ghost use Rattle.qws_base.specs.Windows.{layout_of};
ghost use Rattle.qws_base.specs.Scenes.{setting_of, opening_scene, scene_after_step, scene_after_paint, paint_reply};
ghost use Rattle.qws_base.specs.Shown.{IsShape, shown_picture};

use crate::{paints, shows, steps};
use qws_base::{
    Cursor, Depth, Ink, OutOfMemory, PaintReply, Picture, Rgb, Size, WindowView, Words, after_at,
};
use std::alloc::Global;
use std::marker::Model;

/// A picture with its screen: for each pixel a scene colour of the screen's depth.
#[derive(Debug, Drop)]
pub struct Canvas {
    size: Size,
    depth: Depth,
    backdrop: Rgb,
    cells: Vec<Rgb>,
}

impl Model for Canvas {
    ghost use Rattle.pixel_model.specs.Drawn.{Drawn, IsDrawn};

    ghost Value = { Drawn };

    ghost view = { λ c. record { setting = record { size = c.size; depth = c.depth; backdrop = c.backdrop }; scene = c.cells.items } };

    ghost invariant = { λ c. IsDrawn (record { size = c.size; depth = c.depth; backdrop = c.backdrop }) c.cells.items };
}

impl Canvas {
    /// A canvas of a size and a depth, with the backdrop everywhere. The backdrop is given as a colour of 24 bits.
    pub fn new(
        alloc: Global,
        size: Size,
        depth: Depth,
        backdrop: Rgb,
    ) -> Result<Canvas, OutOfMemory>
        ensures { let setting = setting_of size depth backdrop in
            IfOk result (λ canvas. canvas ≡ record { setting = setting; scene = opening_scene setting }) }
    {
        let backdrop = depth.scene(backdrop);
        let pixels = (size.w() * size.h()) as usize;
        Ok(Canvas {
            size,
            depth,
            backdrop,
            cells: vec![in alloc; backdrop; pixels]?,
        })
    }

    /// The size of the screen.
    pub fn size(&self) -> Size
        ensures { result ≡ self.now.setting.size }
    {
        self.size
    }

    /// The depth of the screen.
    pub fn depth(&self) -> Depth
        ensures { result ≡ self.now.setting.depth }
    {
        self.depth
    }

    /// The scene colours of all pixels, by rows from the top left.
    pub fn pixels(&self) -> &[Rgb]
        ensures value { result.now ≡ self.now.scene }
        ensures len { length self.now.scene ≡ pixel_count self.now.setting.size }
    {
        &self.cells
    }

    /// Whether the canvas has a pixel of that number; pixels are numbered by rows from the top left.
    pub fn has(&self, p: u32) -> bool
        ensures { IsTrue result ↔ (p < pixel_count self.now.setting.size) }
    {
        p < self.size.w() * self.size.h()
    }

    /// The scene colour of a pixel that the canvas has.
    pub fn pixel(&self, p: u32) -> Rgb
        requires { p < pixel_count self.now.setting.size }
        ensures value { result ≡ slice_index self.now.scene p }
        ensures range { IsSceneColour self.now.setting.depth result }
    {
        self.cells[p as usize]
    }

    /// The picture after an accepted command, with the windows before and after it, and the slot if it was a move. A move
    /// carries the pixels that the slot had, where the slot has the pixel to which they go. Other pixels without an owner
    /// become the backdrop, and all others stay. It takes no memory.
    pub fn apply_step(&mut self, before: &[WindowView], after: &[WindowView], moved: Option<u32>)
        requires before { All (λ w. IsPlaced w.origin) before.now }
        requires after { All (λ w. IsPlaced w.origin) after.now }
        ensures { let size = self.old.setting.size in
            self.new ≡ record self.old { scene = scene_after_step self.old.setting (layout_of size before.now) (layout_of size after.now) moved self.old.scene } }
    {
        steps::apply(
            &mut self.cells,
            self.size,
            self.backdrop,
            before,
            after,
            moved,
        );
    }

    /// A paint of a slot by a client: Gone exactly where the client has no window in the slot, and then nothing changes.
    /// Else each pixel that belongs to the slot takes the picture's ink, and the reply has the number of those whose ink
    /// isn't Skip.
    pub fn apply_paint<P: Picture>(
        &mut self,
        windows: &[WindowView],
        client: u32,
        slot: u32,
        picture: &P,
    ) -> PaintReply
        requires { All (λ w. IsPlaced w.origin) windows.now }
        ensures scene { let layout = layout_of self.old.setting.size windows.now in
            self.new ≡ record self.old { scene = scene_after_paint self.old.setting layout client slot (P.sheet picture.now) self.old.scene } }
        ensures reply { result ≡ paint_reply self.old.setting.size (layout_of self.old.setting.size windows.now) client slot (P.sheet picture.now) }
    {
        paints::paint(
            &mut self.cells,
            self.size,
            self.depth,
            windows,
            client,
            slot,
            picture,
        )
    }

    /// A pixel that the canvas has takes an ink, and no other pixel changes. It takes no memory.
    pub fn lay(&mut self, p: u32, ink: Ink)
        requires { p < pixel_count self.old.setting.size }
        ensures { let old = slice_index self.old.scene p in
            self.new ≡ record self.old { scene = slice_set self.old.scene p (ink_after self.old.setting.depth ink old) } }
    {
        let p = p as usize;
        self.cells[p] = after_at(self.depth, ink, self.cells[p]);
    }

    /// The shown picture: the colours of all pixels by rows, with the cursor above them.
    pub fn show(&self, alloc: Global, cursor: &Cursor) -> Result<Words, OutOfMemory>
        requires { IsShape cursor.now }
        ensures { IfOk result (λ shown. shown ≡ shown_picture self.now.setting cursor.now self.now.scene) }
    {
        let shown = shows::show(alloc, self.size, self.depth, &self.cells, cursor)?;
        Ok(Words::of(shown))
    }
}
