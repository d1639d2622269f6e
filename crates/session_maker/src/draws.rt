//! Numbers drawn one after another.
ghost use Rattle.std.specs.Prelude.{◌≡◌, ◌<◌, ◌≤◌};
ghost use Rattle.session_maker.specs.Draws.{next_state, state_after, drawn};
ghost use Rattle.session_maker.specs.Places.{point_of, rect_of, points_of};
ghost use Rattle.session_maker.specs.Kinds.{point_drawn, rect_drawn, corners_drawn, colour_drawn};

/// A point of the screen's positive quarter.
#[derive(Clone, Copy, Drop)]
pub struct Place {
    pub x: u32,
    pub y: u32,
}

/// A rectangle of the screen's positive quarter.
#[derive(Clone, Copy, Drop)]
pub struct Area {
    pub x: u32,
    pub y: u32,
    pub w: u32,
    pub h: u32,
}

/// The state of the draws.
#[derive(Drop)]
pub struct Draws {
    pub state: u64,
}

/// Three points.
#[derive(Clone, Copy, Drop)]
pub struct Corners {
    pub first: Place,
    pub second: Place,
    pub third: Place,
}

impl Draws {
    /// Draws a number below `n`.
    #[tactic(auto, using(crate::proofs::DrawLemmas::next_is), unfolding(crate::specs::Draws::drawn))]
    pub fn draw(&mut self, n: u32) -> u32
        requires { 0 < n }
        ensures state { self.new.state ≡ next_state self.old.state }
        ensures number { result ≡ drawn n (next_state self.old.state) }
        ensures below { result < n }
    {
        self.state = self
            .state
            .wrapping_mul(6_364_136_223_846_793_005)
            .wrapping_add(1_442_695_040_888_963_407);
        (self.state >> 33) as u32 % n
    }

    /// Draws a point with its column below `across` and its row below `down`.
    pub fn place(&mut self, across: u32, down: u32) -> Place
        requires across { 0 < across }
        requires down { 0 < down }
        ensures state { self.new.state ≡ state_after 2 self.old.state }
        ensures place { point_of result ≡ point_drawn self.old.state 0 across down }
    {
        let x = self.draw(across);
        let y = self.draw(down);
        Place { x, y }
    }

    /// Draws a rectangle: its corner, then its width and height.
    pub fn area(&mut self) -> Area
        ensures state { self.new.state ≡ state_after 4 self.old.state }
        ensures area { rect_of result ≡ rect_drawn self.old.state }
    {
        let x = self.draw(100);
        let y = self.draw(80);
        let w = 1 + self.draw(60);
        let h = 1 + self.draw(40);
        Area { x, y, w, h }
    }

    /// Draws the three points of a polygon.
    pub fn corners(&mut self) -> Corners
        ensures state { self.new.state ≡ state_after 6 self.old.state }
        ensures corners { points_of result ≡ corners_drawn self.old.state 0 }
    {
        let first = self.place(120, 100);
        let second = self.place(120, 100);
        let third = self.place(120, 100);
        Corners {
            first,
            second,
            third,
        }
    }

    /// Draws a colour.
    pub fn colour(&mut self) -> u32
        ensures state { self.new.state ≡ next_state self.old.state }
        ensures colour { result ≡ colour_drawn self.old.state 0 }
    {
        self.draw(16_777_216)
    }
}
