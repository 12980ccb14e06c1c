//! The log file of a live site: the transcript text of the site's runs, to which each call is written before its change is
//! kept; and how the file is mended behind a crash.
#![tactic(auto)]

pub use file::{LogFile, SystemFile};
pub use file_log::FileLog;
pub use hold::ExclusiveFile;
pub use mending::{Mended, mend};
pub use opening::{begin_log, open_log};
pub use refusal::{LogError, LogRefusal};

mod doubt;
mod file;
mod file_log;
mod folder;
mod fronts;
mod hold;
mod legality;
mod mending;
mod opening;
mod pieces;
mod refusal;
