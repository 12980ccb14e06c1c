//! Where the calls of a site are logged.
ghost use Rattle.std.specs.Prelude.{◌≡◌, List, [], ◌∷◌, ◌++◌, true, false, OnOk, Ok, Err};
ghost use Rattle.desk_log.specs.declared.entry.Entry.{Entry};
ghost use Rattle.live_site.specs.Entries.{entry_of};
ghost use Rattle.live_site.specs.declared.call_log.LogFault.TheVariants.{Memory, Failed};

use admission_core::{Call, Reply};
use merge_core::Layout;
use thiserror::Error;

/// Why a log did not take an entry.
#[derive(Clone, Copy, Debug, PartialEq, Eq, Error)]
pub enum LogFault {
    /// The log is as it was.
    #[error("out of memory")]
    Memory,
    #[error("the log was not written")]
    Failed,
}

/// It is handed each call that a site answers, with the reply, before the call's change is kept. So after a crash the
/// last entry is that of the call in doubt.
pub trait CallLog {
    /// From the first state to the last it was handed these entries, oldest first, and none of them was taken back.
    ghost took: { Self → List Entry → Self → Type 0 };

    /// A call of it has failed.
    ghost has_failed: { Self → Type 0 };

    /// Takes a call and its reply.
    fn enter(&mut self, layout: &Layout, call: &Call, reply: &Reply) -> Result<(), LogFault>
        ensures entered { (first : Self) (before : List Entry) → took first before self.old → OnOk result (took first (before ++ entry_of call.now reply.now ∷ []) self.new) }
        ensures memory { (first : Self) (before : List Entry) → took first before self.old → result ≡ Err Memory → took first before self.new }
        ensures failed { result ≡ Err Failed → has_failed self.new };

    /// Takes the last entry back: its change was not kept. Whether that succeeded.
    fn take_back(&mut self) -> bool
        ensures taken { (first : Self) (before : List Entry) (last : Entry) → took first (before ++ last ∷ []) self.old → result ≡ true → took first before self.new }
        ensures failed { result ≡ false → has_failed self.new };

    /// Before any entry it was handed none.
    ghost begins: { (l : Self) → took l [] l };
}

/// No log: no entry is kept or copied.
#[derive(Drop)]
pub struct NoLog {}

impl CallLog for NoLog {
    ghost took = { λ first entries last. Unit {0} };

    ghost has_failed = { λ l. ⊥ };

    ghost begins = { λ l. tt };

    fn enter(&mut self, layout: &Layout, call: &Call, reply: &Reply) -> Result<(), LogFault>
        ensures entered { result ≡ Ok tt }
        ensures unchanged { self.new ≡ self.old }
    {
        let _ = layout;
        let _ = call;
        let _ = reply;
        Ok(())
    }

    fn take_back(&mut self) -> bool
        ensures taken { result ≡ true }
        ensures unchanged { self.new ≡ self.old }
    {
        true
    }
}
