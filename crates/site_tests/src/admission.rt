//! What no clause says: that memory which is there is used, and that the answers are those of the rules.

mod calls;
mod growths;
mod limits;
mod restored;
mod rows;
pub mod sites;
