//! The answer of an exchange.

/// What an exchange of a directory word found.
#[derive(Clone, Copy, Debug, PartialEq, Eq)]
pub enum Exchanged {
    /// The word was 0, and is the draft now.
    Won,
    /// The word was this region, and still is.
    Lost { region: u64 },
}
