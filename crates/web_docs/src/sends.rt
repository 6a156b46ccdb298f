//! Which bytes a reply sends.

/// Which bytes of its content a reply sends.
#[derive(Clone, Copy, Debug, Drop, PartialEq, Eq)]
pub enum Sends {
    /// None.
    Nothing,
    /// All of them.
    All,
    /// Those from the first to the last of these positions, both included. Positions count from 0.
    Part(u64, u64),
}
