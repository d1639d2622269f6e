//! What the seats at the shared words know. But for the setting, no value of these types is ever made.
use qws_base::{Command, Depth, Ink, PaintReply, Rect, Reply, Rgb, Size};
use std::collections::LinkedList;
use std::marker::Model;
use turn_logs::Item;

/// The screen that a part belongs to: its size, its depth, and its backdrop as a scene colour.
#[derive(Clone, Copy, Drop)]
pub struct ScreenSetting {
    pub(crate) size: Size,
    pub(crate) depth: Depth,
    pub(crate) backdrop: Rgb,
}

impl Model for ScreenSetting {
    ghost use Rattle.qws_base.specs.Scenes.{Setting};

    ghost Value = { Setting };

    ghost view = { λ s. record { size = s.size; depth = s.depth; backdrop = s.backdrop } };

    ghost inverse = { λ s. record { size = s.size; depth = s.depth; backdrop = s.backdrop } };
}

/// The sheet of a picture that was painted.
pub struct PaintSheet {
    pub(crate) reach: Rect,
    pub(crate) inks: LinkedList<Ink>,
}

impl Model for PaintSheet {
    ghost use Rattle.qws_base.specs.Sheets.{Sheet};

    ghost Value = { Sheet };

    ghost view = { λ s. record { reach = s.reach; inks = s.inks } };
}

/// A table word that was looked at.
pub struct Looked {
    pub word: u64,
    pub value: u64,
}

/// What a client keeps of the row of a slot: the revision, the word of the origin and the words of the rectangles.
pub struct KeptClip {
    pub slot: u64,
    pub revision: u64,
    pub origin: u64,
    pub rects: LinkedList<u64>,
}

/// A closed server turn among the calls of its client.
pub struct StepCall {
    pub number: u64,
    pub command: Command,
    pub reply: Reply,
}

/// A closed paint turn, with the sheet of its picture, its log and the table words that it looked at.
pub struct PaintCall {
    pub stamp: u64,
    pub slot: u64,
    pub tag: u64,
    pub sheet: PaintSheet,
    pub reply: PaintReply,
    pub log: LinkedList<Item>,
    pub looked: LinkedList<Looked>,
}

/// A call that a client has made.
pub enum Call {
    Step { step: StepCall },
    Paint { paint: PaintCall },
}

/// Whether a client is in a turn.
pub enum Mode {
    /// It isn't.
    Idle,
    /// Its enter was refused, and isn't undone yet.
    Refused,
    /// It paints: the stamp and the slot of the turn, once they were looked at, the words looked at, and the log.
    Reading {
        stamp: Option<u64>,
        slot: Option<u64>,
        looked: LinkedList<Looked>,
        log: LinkedList<Item>,
    },
}

/// What the seat of one client knows.
pub struct Client {
    pub setting: ScreenSetting,
    pub number: u64,
    pub step_limit: u64,
    /// The greatest stamp or journal number that it has seen.
    pub seen: u64,
    pub own: LinkedList<Call>,
    pub clips: LinkedList<KeptClip>,
    /// The gate words that its refused enters found.
    pub turned: LinkedList<u64>,
    pub mode: Mode,
}

/// A closed server turn.
pub struct Closed {
    pub client: u64,
    pub command: Command,
    pub reply: Reply,
    pub log: LinkedList<Item>,
}

/// Whether the server is in a turn.
pub enum ServerMode {
    /// It isn't.
    Resting,
    /// It has announced itself, and isn't let in yet.
    Closing,
    /// It is.
    Writing,
}

/// What the seat of the head knows.
pub struct Server {
    pub setting: ScreenSetting,
    /// The step limits of the admitted clients, by number.
    pub limits: LinkedList<u64>,
    pub closed: LinkedList<Closed>,
    /// The gate words that its failed settles found.
    pub turned: LinkedList<u64>,
    pub mode: ServerMode,
    pub log: LinkedList<Item>,
    /// The table words as they are, by word number.
    pub present: LinkedList<u64>,
    /// The opening table, and those that the closed turns left.
    pub tables: LinkedList<LinkedList<u64>>,
}

/// The parts that one seat holds.
pub struct View {
    pub server: Option<Server>,
    pub clients: LinkedList<Client>,
}
