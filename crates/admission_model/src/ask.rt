ghost use Rattle.std.specs.Prelude.{◌≡◌, IfOk};

use merge_core::Delta;
use std::alloc::{AllocError, Global};

/// The greatest number of a holder.
pub const HOLDER_LIMIT: u64 = 1_000_000_000_000;

/// What a caller asks of a site: `r` is a record, `h` a holder.
#[derive(Clone, Copy, Debug, PartialEq, Eq)]
pub enum Ask {
    /// Enter as a reader.
    Read { r: u16, h: u64 },
    /// Announce a writer.
    Announce { r: u16, h: u64 },
    /// Enter as the writer that was announced.
    Quill { r: u16, h: u64 },
    /// Leave, or withdraw a writer that waits.
    Leave { r: u16, h: u64 },
    /// Move seats to the site `to`.
    Give { r: u16, to: u16, seats: u64 },
    /// Move seats where the plan sends them.
    Help { r: u16 },
}

/// One step of a site.
#[derive(Debug, Drop)]
pub enum Call {
    /// A caller's question.
    Ask(Ask),
    /// What another site tells.
    Merge(Delta),
    /// What this site tells.
    Snapshot,
}

impl Call {
    /// An equal call. Linear in the delta.
    pub fn try_copy(&self, alloc: Global) -> Result<Call, AllocError>
        ensures { IfOk result (λ copy. copy ≡ self.now) }
    {
        Ok(match self {
            Call::Ask(ask) => Call::Ask(*ask),
            Call::Merge(delta) => Call::Merge(delta.try_copy(alloc)?),
            Call::Snapshot => Call::Snapshot,
        })
    }
}
