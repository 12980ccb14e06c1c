//! A keeper, a conversation and a log whose faults the test chooses.
ghost use Rattle.std.specs.Prelude.{◌≡◌, IfOk, if◌then◌else◌};

use admission_core::{Call, Change, Durable, Reply};
use durable_keeper::{Keeper, KeeperError, MemoryKeeper};
use line_conversation::{Conversation, Next};
use live_keeper::LiveKeeper;
use live_site::{CallLog, LogFault, StorePlace};
use log_file::LogFile;
use merge_core::Layout;
use round_keeper::{RoundKeeper, are_empty};
use std::alloc::{AllocError, Global};
use std::cell::Cell;
use std::io;
use std::io::Read;

/// What a keeper answers to the change that it does not keep.
#[derive(Clone, Copy, PartialEq, Eq)]
pub enum Refusal {
    Memory,
    Fault,
}

/// A keeper in memory that keeps so many changes, and not the next one: it finds no memory for it, once, or its device
/// fails for good. It gives back what it kept, or another part.
#[derive(Drop)]
pub struct Failing {
    pub keeper: MemoryKeeper,
    pub left: u64,
    pub refusal: Refusal,
    pub failed: bool,
    /// What it gives back in place of what it kept.
    pub first: Option<Durable>,
    /// How often it still gives that back. Then it finds no memory for it.
    pub loads: u64,
    /// How often it was told a change, be it an empty one, or a mark.
    pub told: Cell<u64>,
}

impl Failing {
    /// Nothing is kept yet.
    pub fn new(
        alloc: Global,
        layout: &Layout,
        site: u16,
        left: u64,
        refusal: Refusal,
    ) -> Result<Failing, AllocError>
        ensures layout { IfOk result (λ k. k.keeper.layout ≡ layout.now) }
        ensures site { IfOk result (λ k. k.keeper.site ≡ site) }
    {
        let keeper = MemoryKeeper::new(alloc, layout, site)?;
        Ok(Failing {
            keeper,
            left,
            refusal,
            failed: false,
            first: None,
            loads: u64::MAX,
            told: Cell::new(0),
        })
    }

    // Counts a change or a mark.
    fn count(&self) {
        self.told.set(self.told.get().saturating_add(1));
    }
}

impl Keeper for Failing {
    ghost layout = { λ k. k.keeper.layout };

    ghost site = { λ k. k.keeper.site };

    // It promises to keep nothing.
    ghost keeps = { λ _ _. ⊥ };

    ghost keeps_either = { λ _ _ _. ⊥ };

    ghost is_honest = { λ _. ⊥ };

    ghost faults_of = { λ k. if k.failed then 1 else 0 };

    fn commit(&mut self, change: &Change) -> Result<(), KeeperError> {
        self.count();
        if self.failed {
            return Err(KeeperError::StoreFault);
        }
        if change.is_empty() {
            return Ok(());
        }
        if self.left > 0 {
            self.left -= 1;
            return self.keeper.commit(change);
        }
        if self.refusal == Refusal::Memory {
            self.left = u64::MAX;
            return Err(KeeperError::Memory);
        }
        self.failed = true;
        Err(KeeperError::StoreFault)
    }

    fn load(&mut self, alloc: Global) -> Result<Durable, KeeperError> {
        if self.failed {
            return Err(KeeperError::StoreFault);
        }
        if self.loads == 0 {
            return Err(KeeperError::Memory);
        }
        self.loads -= 1;
        if let Some(first) = &self.first {
            let copy = first.try_copy(alloc)?;
            return Ok(copy);
        }
        self.keeper.load(alloc)
    }

    fn faults(&self) -> u64 {
        u64::from(self.failed)
    }
}

// A mark counts as a change, and is lost.
impl LiveKeeper for Failing {
    ghost is_outdated = { λ _. ⊥ };

    fn mark_outdated(&mut self) -> Result<(), KeeperError> {
        self.count();
        if self.failed {
            return Err(KeeperError::StoreFault);
        }
        if self.left > 0 {
            self.left -= 1;
            return Ok(());
        }
        if self.refusal == Refusal::Memory {
            self.left = u64::MAX;
            return Err(KeeperError::Memory);
        }
        self.failed = true;
        Err(KeeperError::StoreFault)
    }
}

// Changes that come together count as one.
impl RoundKeeper for Failing {
    fn commit_all(&mut self, changes: &[Change]) -> Result<(), KeeperError> {
        self.count();
        if self.failed {
            return Err(KeeperError::StoreFault);
        }
        if are_empty(changes) {
            return Ok(());
        }
        if self.left > 0 {
            self.left -= 1;
            return self.keeper.commit_all(changes);
        }
        if self.refusal == Refusal::Memory {
            self.left = u64::MAX;
            return Err(KeeperError::Memory);
        }
        self.failed = true;
        Err(KeeperError::StoreFault)
    }
}

/// A reader that gives one part at each call.
#[derive(Drop)]
pub struct Parts<'a> {
    pub parts: &'a [&'a [u8]],
    pub at: usize,
}

impl Read for Parts<'_> {
    fn read(&mut self, buf: &mut [u8]) -> io::Result<usize> {
        if self.at >= self.parts.len() {
            return Ok(0);
        }
        let part = self.parts[self.at];
        let n = buf.len().min(part.len());
        buf[..n].copy_from_slice(&part[..n]);
        self.at += 1;
        Ok(n)
    }
}

/// The same two lines, one after the other, so many times; it keeps a mark for each reading and each telling, and
/// counts the bytes that were told.
#[derive(Drop)]
pub struct Marking {
    pub lines: [&'static [u8]; 2],
    pub line: &'static [u8],
    pub left: u64,
    pub marks: Vec<u8>,
    pub bytes: u64,
}

impl Conversation for Marking {
    ghost took_place = { λ _ _ _. Unit {0} };

    ghost kept = { λ s. s.line.now };

    ghost has_ended = { λ _. Unit {0} };

    ghost has_failed = { λ _. Unit {0} };

    // Each text that it is told is counted.
    ghost loses = { λ _. ⊥ };

    ghost begins = { λ _. tt };

    fn next_line(&mut self) -> Next {
        if self.left == 0 {
            return Next::End;
        }
        if self.marks.push(b'<').is_err() {
            return Next::Failed;
        }
        self.left -= 1;
        self.line = self.lines[(self.left % 2) as usize];
        Next::Line
    }

    fn line(&self) -> &[u8] {
        self.line
    }

    fn tell(&mut self, text: &str) -> bool {
        self.bytes = self.bytes.saturating_add(text.len() as u64);
        self.marks.push(b'>').is_ok()
    }
}

/// A log that counts the entries that it has, and refuses the one behind so many others, once.
#[derive(Drop)]
pub struct Counting {
    pub entries: u64,
    pub left: u64,
    pub fault: LogFault,
}

impl CallLog for Counting {
    ghost took = { λ _ _ _. Unit {0} };

    ghost has_failed = { λ _. Unit {0} };

    ghost begins = { λ _. tt };

    fn enter(&mut self, layout: &Layout, call: &Call, reply: &Reply) -> Result<(), LogFault> {
        let _ = layout;
        let _ = call;
        let _ = reply;
        if self.left == 0 {
            self.left = u64::MAX;
            return Err(self.fault);
        }
        self.left -= 1;
        self.entries = self.entries.saturating_add(1);
        Ok(())
    }

    fn take_back(&mut self) -> bool {
        self.entries = self.entries.saturating_sub(1);
        true
    }
}

/// A place from which the store is gone behind so many looks. It counts them.
#[derive(Drop)]
pub struct Vanishing {
    pub looks: Cell<u64>,
    pub stays: u64,
}

impl StorePlace for Vanishing {
    fn is_there(&self) -> bool {
        let looks = self.looks.get();
        self.looks.set(looks.saturating_add(1));
        looks < self.stays
    }
}

/// A file in memory. It takes so many texts; of the next one it takes half, and it fails from then on.
#[derive(Drop)]
pub struct Bytes {
    pub bytes: Vec<u8>,
    pub left: u64,
}

impl LogFile for Bytes {
    ghost did = { λ _ _ _. Unit {0} };

    ghost has_failed = { λ _. Unit {0} };

    ghost begins = { λ _. tt };

    fn append(&mut self, text: &str) -> bool {
        let bytes = text.as_bytes();
        if self.left == 0 {
            let half = bytes.len() / 2;
            let _ = self.bytes.extend_from_slice(&bytes[..half]);
            return false;
        }
        self.left -= 1;
        self.bytes.extend_from_slice(bytes).is_ok()
    }

    fn cut(&mut self, length: u64) -> bool {
        if self.left == 0 {
            return false;
        }
        self.bytes.truncate(length as usize);
        true
    }
}
