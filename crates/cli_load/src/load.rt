//! What a load is made of.

/// A load of exchanges. Loads of the same seed and count are the same.
#[derive(Clone, Copy, Debug, PartialEq, Eq)]
pub struct Load {
    /// The state from which the exchanges are drawn.
    pub seed: u64,
    /// How many exchanges it has.
    pub count: u32,
}
