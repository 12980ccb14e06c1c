ghost use Rattle.std.specs.Prelude.{◌≡◌, string_bytes, IfOk};
ghost use Rattle.join_engine.specs.Texts.{fault_text, refusal_text};

use delta_codec::DecodeError;
use merge_core::CheckError;
use std::alloc::{AllocError, Global};
use thiserror::Error;

/// Why a line was not joined.
#[derive(Clone, Copy, Debug, PartialEq, Eq, Error)]
pub enum LineFault {
    /// It is no delta's text.
    #[error("{0}")]
    Unread(DecodeError),
    /// The layout's books do not take its delta.
    #[error("{0}")]
    Unfit(CheckError),
}

/// The first line that is refused.
#[derive(Clone, Copy)]
pub struct Refusal {
    /// Counted from 1.
    pub number: u64,
    pub fault: LineFault,
}

/// The line that tells of a refused line.
pub fn refusal_line(alloc: Global, refusal: Refusal) -> Result<String, AllocError>
    ensures { IfOk result (λ text. string_bytes text ≡ refusal_text refusal.number refusal.fault) }
{
    let number = refusal.number;
    match refusal.fault {
        LineFault::Unread(error) => {
            let name = error.name();
            format!(in alloc; "line {number} refused {name}\n")
        }
        LineFault::Unfit(CheckError::OtherLayout { row }) => {
            format!(in alloc; "line {number} refused OtherLayout {row}\n")
        }
        LineFault::Unfit(CheckError::BadRow { row }) => {
            format!(in alloc; "line {number} refused BadRow {row}\n")
        }
    }
}
