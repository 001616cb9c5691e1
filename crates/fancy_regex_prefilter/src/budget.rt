//! How often a run may backtrack.

/// The backtracks of a run and their limit.
#[derive(Clone, Copy)]
pub struct Budget {
    /// The number of backtracks so far.
    pub used: usize,
    /// The greatest number of backtracks.
    pub limit: usize,
}

/// A run backtracks more often than its limit allows.
#[derive(Clone, Copy)]
pub struct LimitExceeded;
