// What becomes of an exchange.

/// The most outcomes of a table.
pub const MAX_OUTCOMES: usize = 64;

#[derive(Clone, Copy, PartialEq, Eq, Debug, Default)]
pub enum Outcome {
    // nothing arrives
    FrameLost,
    // the board takes the frame, and its reply is lost
    ReplyLost,
    // frame and reply arrive
    #[default]
    Arrives,
}
