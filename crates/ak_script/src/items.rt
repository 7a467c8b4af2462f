// What the lines of a script say.

use ak_core::Move;

/// What the kernel is to do next.
#[derive(Clone, Copy, PartialEq, Eq, Debug)]
pub enum Item {
    /// A move.
    Move(Move),
    /// Up to so many moves of the honest kernel.
    Auto(u32),
}

/// What one line says.
#[derive(Clone, Copy, PartialEq, Eq, Debug)]
pub enum Line {
    /// An item.
    Item(Item),
    /// One more input for the program.
    Input(u64),
}
