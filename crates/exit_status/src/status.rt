ghost use Rattle.std.specs.Prelude.{◌≡◌, ◌++◌, MatchBool, codes};
ghost use Rattle.text_input.specs.Source.{HasFault};
ghost use Rattle.text_input.specs.Sink.{Writes};
ghost use Rattle.exit_status.specs.Endings.{Says, status_code, status_line, without_layout};

use crate::store_refusal::StoreRefusal;
use layout_file::LayoutFault;
use std::io::Write;
use text_input::Sink;

/// How the program ended.
#[derive(Clone, Copy, Debug, PartialEq, Eq)]
pub enum Status {
    /// All lines were carried out; or help or the version was printed.
    Done,
    /// The arguments are wrong, which was told.
    Usage,
    /// There is no layout, or none for the first sites of a script, or no such site in it.
    NoLayout(LayoutFault),
    /// The site's store can't be used.
    NoStore(StoreRefusal),
    /// The site's store failed while the lines were carried out, which was the reply to one.
    Fault,
    /// The input, or a line of it, was refused.
    Refused,
    /// Memory ran out.
    Memory,
    /// A read or a write failed.
    Io,
}

impl Status {
    /// How the program ends where there is no layout.
    pub fn without_layout(fault: LayoutFault) -> Status
        ensures { result ≡ without_layout fault }
    {
        match fault {
            LayoutFault::Memory => Status::Memory,
            fault => Status::NoLayout(fault),
        }
    }

    /// The exit status.
    pub fn code(self) -> u8
        ensures { result ≡ status_code self }
    {
        match self {
            Status::Done => 0,
            Status::Usage => 2,
            Status::NoLayout(_) => 3,
            Status::Refused => 4,
            Status::NoStore(_) | Status::Fault => 5,
            Status::Memory => 6,
            Status::Io => 7,
        }
    }

    /// Says what goes with the end, and gives the exit status.
    pub fn end<E: Write>(self, errors: &mut Sink<E>) -> u8
        ensures code { result ≡ status_code self }
        ensures said { Says errors.old errors.new (status_line self) }
    {
        match self {
            Status::Done | Status::Usage | Status::Refused | Status::Fault => {}
            Status::NoLayout(fault) => {
                let _ = write_layout_refusal(errors, fault.name());
            }
            Status::NoStore(refusal) => {
                let _ = write_store_refusal(errors, refusal.name());
            }
            Status::Memory => {
                let _ = errors.write_and_flush("memory\n");
            }
            Status::Io => {
                let _ = errors.write_and_flush("io\n");
            }
        }
        self.code()
    }
}

// Writes the line that names a fault of the layout. Whether that succeeded.
fn write_layout_refusal<E: Write>(errors: &mut Sink<E>, name: &str) -> bool
    ensures { MatchBool result
        (Writes errors.old errors.new (codes "layout refused " ++ (name.now ++ codes "\n")))
        (HasFault errors.new.fault) }
{
    errors.write("layout refused ") && errors.write(name) && errors.write_and_flush("\n")
}

// Writes the line that names why a store is refused. Whether that succeeded.
fn write_store_refusal<E: Write>(errors: &mut Sink<E>, name: &str) -> bool
    ensures { MatchBool result
        (Writes errors.old errors.new (codes "store refused " ++ (name.now ++ codes "\n")))
        (HasFault errors.new.fault) }
{
    errors.write("store refused ") && errors.write(name) && errors.write_and_flush("\n")
}
