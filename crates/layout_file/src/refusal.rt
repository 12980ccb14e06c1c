ghost use Rattle.std.specs.Prelude.{◌≡◌};
ghost use Rattle.layout_file.specs.LayoutFile.{whole_refusal};

use crate::fault::LayoutFault;
use thiserror::Error;

/// Why there is no layout, and which record is at fault.
#[derive(Clone, Copy, Debug, PartialEq, Eq, Error)]
#[error("{fault}")]
pub struct LayoutRefusal {
    pub fault: LayoutFault,
    /// The place of the first record in the file that has the fault, counted from 1; none where it is the fault of no single
    /// record.
    pub place: Option<usize>,
}

impl LayoutRefusal {
    /// The refusal for a fault of no single record.
    pub fn whole(fault: LayoutFault) -> LayoutRefusal
        ensures { result ≡ whole_refusal fault }
    {
        LayoutRefusal { fault, place: None }
    }
}
