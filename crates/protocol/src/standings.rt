// How far a switch is.

/// What a sound switch is doing about the order. An order is its code.
#[derive(Clone, Copy, Debug, PartialEq, Eq)]
pub enum Standing {
    /// The lead before the close of round 1: it has this order to give.
    Leading(u8),
    /// It has carried out nothing yet, and takes chains.
    Waiting,
    /// It carried out this order at the latest close, and still passes on what it holds.
    Carry(u8),
    /// It carried out this order earlier, and takes part no more.
    Done(u8),
    /// It came to the end of the rounds with no order to carry out.
    Quit,
}
