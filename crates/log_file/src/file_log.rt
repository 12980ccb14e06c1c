//! The log of a live site, in a file.
ghost use Rattle.std.specs.Prelude.{◌≡◌, false, Some, IfOk, string_bytes};
ghost use Rattle.live_site.specs.Entries.{entry_of};
ghost use Rattle.log_file.specs.Mending.{entry_line};

use crate::doubt::push_line;
use crate::file::LogFile;
use admission_core::{Call, Reply};
use live_site::{CallLog, LogFault};
use merge_core::Layout;
use std::alloc::{AllocError, Global};
use std::marker::Model;

/// A log whose entries are the lines of a file. It has room for one line, and keeps no entry. Once its file has failed it
/// takes no entry more.
#[derive(Drop)]
pub struct FileLog<F: LogFile> {
    alloc: Global,
    file: F,
    layout: Layout,
    line: String,
    // How many bytes the file has.
    length: u64,
    // How many it had before the last entry, where that may be taken back.
    last: Option<u64>,
    failed: bool,
}

// Contracts see the file, the layout by which its records are named, its length, and where its last line begins.
impl<F: LogFile> Model for FileLog<F> {
    ghost use Rattle.log_file.specs.Logged.{LogState, IsSound};

    ghost Value = { LogState F };

    ghost view = { λ l. record { file = l.file; layout = l.layout; length = l.length; last = l.last; failed = l.failed } };

    ghost invariant = { λ l. IsSound F.LogFile (record { file = l.file; layout = l.layout; length = l.length; last = l.last; failed = l.failed }) };
}

impl<F: LogFile> FileLog<F> {
    /// The log of a file that has so many bytes, of which the last ones are the text of a run without an entry yet.
    /// Records are named by this layout.
    pub(crate) fn new(alloc: Global, file: F, layout: Layout, length: u64) -> FileLog<F>
        ensures { result ≡ record { file = file; layout = layout; length = length; last = Some length; failed = false } }
    {
        FileLog {
            alloc,
            file,
            layout,
            line: String::new(alloc),
            length,
            last: Some(length),
            failed: false,
        }
    }

    /// The file.
    pub fn file(&self) -> &F
        ensures { result.now ≡ self.now.file }
    {
        &self.file
    }

    /// The file, given back. Takes no memory.
    pub fn into_file(self) -> F
        ensures { result ≡ self.file }
    {
        let FileLog {
            alloc: _,
            file,
            layout: _,
            line: _,
            length: _,
            last: _,
            failed: _,
        } = self;
        file
    }
}

// Has a text be the line of a call and its reply, of which neither is copied.
fn write_line(
    alloc: Global,
    line: &mut String,
    layout: &Layout,
    call: &Call,
    reply: &Reply,
) -> Result<(), AllocError>
    ensures { IfOk result (λ _. string_bytes line.new ≡ entry_line layout.now (entry_of call.now reply.now)) }
{
    line.clear();
    push_line(alloc, line, layout, 0, call, reply)
}

impl<F: LogFile> CallLog for FileLog<F> {
    ghost use Rattle.std.specs.Prelude.{List, [], ◌∷◌, ◌++◌, ◌⊎◌, true, None, OnOk, Err};
    ghost use Rattle.desk_log.specs.declared.entry.Entry.{Entry as EntryThere};
    ghost use Rattle.live_site.specs.declared.call_log.LogFault.TheVariants.{Memory as OutOfMemory, Failed};
    ghost use Rattle.log_file.specs.Logged.{HasFailed, HasLogged, LogState};
    ghost use Rattle.log_file.specs.NoEntry.{nothing_logged};

    ghost took = { λ first entries last. HasLogged F.LogFile first entries last };

    ghost has_failed = { λ l. HasFailed F.LogFile l };

    ghost begins = { λ l. nothing_logged _ l (F.begins l.file) };

    /// The records are named by the log's own layout, which is the site's.
    fn enter(&mut self, layout: &Layout, call: &Call, reply: &Reply) -> Result<(), LogFault>
        ensures entered { (first : LogState F) (before : List EntryThere) → HasLogged F.LogFile first before self.old
            → OnOk result (HasLogged F.LogFile first (before ++ entry_of call.now reply.now ∷ []) self.new) }
        ensures memory { (first : LogState F) (before : List EntryThere) → HasLogged F.LogFile first before self.old
            → result ≡ Err OutOfMemory → HasLogged F.LogFile first before self.new }
        ensures failed { result ≡ Err Failed → HasFailed F.LogFile self.new }
        ensures reason { result ≡ Err Failed → (self.old.failed ≡ true) ⊎ F.has_failed self.new.file }
        ensures last { OnOk result (self.new.last ≡ Some self.old.length) }
        ensures stays { self.old.failed ≡ true → (result ≡ Err Failed) × (self.new ≡ self.old) }
    {
        let _ = layout;
        if self.failed {
            return Err(LogFault::Failed);
        }
        if write_line(self.alloc, &mut self.line, &self.layout, call, reply).is_err() {
            return Err(LogFault::Memory);
        }
        // No file has so many bytes that it does not fit.
        let Some(length) = self.length.checked_add(self.line.len() as u64) else {
            return Err(LogFault::Memory);
        };
        if !self.file.append(self.line.as_str()) {
            self.failed = true;
            return Err(LogFault::Failed);
        }
        self.last = Some(self.length);
        self.length = length;
        Ok(())
    }

    fn take_back(&mut self) -> bool
        ensures taken { (first : LogState F) (before : List EntryThere) (last : EntryThere) → HasLogged F.LogFile first (before ++ last ∷ []) self.old
            → result ≡ true → HasLogged F.LogFile first before self.new }
        ensures failed { result ≡ false → HasFailed F.LogFile self.new }
        ensures reason { result ≡ false → (self.old.failed ≡ true) ⊎ (F.has_failed self.new.file ⊎ (self.old.last ≡ None)) }
        ensures stays { self.old.failed ≡ true → (result ≡ false) × (self.new ≡ self.old) }
    {
        if self.failed {
            return false;
        }
        let Some(last) = self.last else {
            self.failed = true;
            return false;
        };
        if !self.file.cut(last) {
            self.failed = true;
            return false;
        }
        self.length = last;
        self.last = None;
        true
    }
}
