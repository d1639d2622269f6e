//! What a call is answered.
use qws_base::{PaintReply, Reply};

/// The reply to a command, or to a paint.
#[derive(Debug, Drop)]
pub enum Answer {
    Step { reply: Reply },
    Paint { reply: PaintReply },
}
