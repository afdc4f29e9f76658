//! Where an engine is between two settles.

/// Whether edits are staged, and whether a call has failed.
#[derive(Clone, Copy, Debug, PartialEq, Eq)]
pub enum Phase {
    /// No edits are staged.
    Settled,
    /// Edits are staged that aren't settled yet.
    Staged,
    /// A call failed: what was staged is of no use.
    Spoiled,
}
