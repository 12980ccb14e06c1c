use thiserror::Error;

/// Why a site was not closed, in the order in which it is judged.
#[derive(Clone, Copy, Debug, PartialEq, Eq, Error)]
pub enum CloseError {
    /// A pass of the site is not there.
    #[error("a pass of the site is missing")]
    PassMissing,
    /// The receipt with this number is not the log's entry, or the pass has a mark that the log does not bear out: then
    /// `at` is the number of its receipts.
    #[error("receipt {at} of pass {pass} is not in the log")]
    Mismatch { pass: u16, at: usize },
    /// Also where the desk under the lock is not the one that was opened, which can't happen.
    #[error("out of memory")]
    Memory,
}
