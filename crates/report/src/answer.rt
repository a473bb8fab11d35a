//! What a program answers to the words that it is called with.

/// What a program answers to its words and its input (`docs/ACCOUNT.md`,
/// `docs/STATEMENTS.md`).
#[derive(Debug, Drop)]
pub struct Answer {
    /// What it writes on standard output.
    pub output: String,
    /// What it writes on standard error.
    pub errors: String,
    /// The status with which it ends: 1 where it is refused, and else 0.
    pub status: u8,
}
