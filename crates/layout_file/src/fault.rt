ghost use Rattle.std.specs.Prelude.{◌≡◌};
ghost use Rattle.layout_file.specs.LayoutFile.{layout_error_name, layout_fault_name};

use merge_core::LayoutError;
use thiserror::Error;

/// Why there is no layout: the first that applies, from the top.
#[derive(Clone, Copy, Debug, PartialEq, Eq, Error)]
pub enum LayoutFault {
    #[error("the layout file could not be read")]
    NotRead,
    /// It has more than 1,048,576 bytes.
    #[error("the layout file is too long")]
    TooLong,
    #[error("the layout file is no TOML document")]
    NotToml,
    /// A key is missing, unknown, of another kind, or an integer outside 0 to 65,536.
    #[error("the layout file has other keys or values than a layout")]
    WrongKeys,
    /// The sites and records are no layout.
    #[error("{0}")]
    Refused(LayoutError),
    /// Memory ran out, which may come before the text is judged.
    #[error("out of memory")]
    Memory,
    /// The first sites of a script are to begin with a layout that is no earlier one: there are fewer sites, or a home
    /// is not among them. No layout file is refused so.
    #[error("the first sites are no earlier layout")]
    BadGrowth,
    /// The layout has no site of the number that is to be served. No layout file is refused so.
    #[error("the layout has no such site")]
    NoSite,
}

impl LayoutFault {
    /// The name that the program writes.
    pub fn name(self) -> &'static str
        ensures { result.now ≡ layout_fault_name self }
    {
        match self {
            LayoutFault::NotRead => "NotRead",
            LayoutFault::TooLong => "TooLong",
            LayoutFault::NotToml => "NotToml",
            LayoutFault::WrongKeys => "WrongKeys",
            LayoutFault::Refused(error) => error_name(error),
            LayoutFault::Memory => "Memory",
            LayoutFault::BadGrowth => "BadGrowth",
            LayoutFault::NoSite => "NoSite",
        }
    }
}

// The name of a fault of the sites and records.
fn error_name(error: LayoutError) -> &'static str
    ensures { result.now ≡ layout_error_name error }
{
    match error {
        LayoutError::TooFewSites => "TooFewSites",
        LayoutError::TooManySites => "TooManySites",
        LayoutError::NoRecords => "NoRecords",
        LayoutError::TooManyRecords => "TooManyRecords",
        LayoutError::BadName => "BadName",
        LayoutError::SameName => "SameName",
        LayoutError::BadSeats => "BadSeats",
        LayoutError::BadHome => "BadHome",
        LayoutError::BadProblem => "BadProblem",
    }
}
