use thiserror::Error;

/// Why no link was made, in the order in which it is judged.
#[derive(Clone, Copy, Debug, PartialEq, Eq, Error)]
pub enum LinkError {
    /// The link would lead from a site to itself, or one of its ends is no site of the layout.
    #[error("there is no such link")]
    NoLink,
    #[error("out of memory")]
    Memory,
}
