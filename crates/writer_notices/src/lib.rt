//! The notices of the writers of one record: announced and finished, at each site.
#![tactic(auto)]

pub use notices::{MOST_WRITERS, NoticeError, Notices};

mod notices;
