//! A keeper in memory that counts its calls and fails or waits at a commit that the test chooses.
ghost use Rattle.std.specs.Prelude.{◌≡◌, IfSome, if◌then◌else◌};

use admission_core::{Change, Durable};
use durable_keeper::{Keeper, KeeperError, MemoryKeeper};
use merge_core::Layout;
use std::alloc::Global;
use std::cell::Cell;
use std::sync::Arc;
use std::sync::atomic::{AtomicU64, Ordering};
use std::thread;

/// What a commit meets.
#[derive(Drop)]
pub enum Fault {
    /// It is kept.
    Never,
    /// The device refuses it, and each call behind it. It is kept all the same where the flag says so.
    Refused(bool),
    /// There is no memory for it, this once: it is not kept, and the number grows by one.
    Lacks(Arc<AtomicU64, Global>),
    /// It waits until the mark is set, if that comes soon, and is kept.
    Waits(Arc<AtomicU64, Global>),
}

/// What the device does: `fault` comes at the commit after so many others.
#[derive(Drop)]
pub struct Store {
    /// What loading gives back in place of what is kept.
    pub first: Option<Durable>,
    pub left: u64,
    pub fault: Fault,
    pub failed: bool,
    /// Whether a commit that waited saw the mark.
    pub saw: bool,
    /// How often it was asked, before it failed, what it keeps.
    pub loads: u64,
    /// How often it was asked to keep a change, be it an empty one.
    pub commits: Cell<u64>,
}

/// A device that has this fault at the commit after so many others.
pub fn store_with(left: u64, fault: Fault) -> Store {
    Store {
        first: None,
        left,
        fault,
        failed: false,
        saw: false,
        loads: 0,
        commits: Cell::new(0),
    }
}

/// It keeps in memory, and promises to keep nothing.
#[derive(Drop)]
pub struct Fake {
    pub kept: MemoryKeeper,
    pub store: Store,
}

impl Fake {
    /// Nothing is kept yet.
    pub fn new(alloc: Global, layout: &Layout, site: u16, store: Store) -> Option<Fake>
        ensures layout { IfSome result (λ k. k.kept.layout ≡ layout.now) }
        ensures site { IfSome result (λ k. k.kept.site ≡ site) }
    {
        let kept = MemoryKeeper::new(alloc, layout, site).ok()?;
        Some(Fake { kept, store })
    }
}

// Whether the mark is set within so many turns.
fn is_set_soon(mark: &AtomicU64) -> bool {
    for _ in 0..1_000_000_000u64 {
        if mark.load(Ordering::SeqCst) == 1 {
            return true;
        }
        thread::yield_now();
    }
    false
}

// Whether there is no memory for a commit, which is counted.
fn is_counted(fault: &Fault) -> bool {
    let Fault::Lacks(count) = fault else {
        return false;
    };
    count.fetch_add(1, Ordering::SeqCst);
    true
}

impl Keeper for Fake {
    ghost layout = { λ k. k.kept.layout };

    ghost site = { λ k. k.kept.site };

    ghost keeps = { λ _ _. ⊥ };

    ghost keeps_either = { λ _ _ _. ⊥ };

    ghost is_honest = { λ _. Unit {0} };

    ghost faults_of = { λ k. if k.store.failed then 1 else 0 };

    fn commit(&mut self, change: &Change) -> Result<(), KeeperError> {
        let commits = self.store.commits.get().saturating_add(1);
        self.store.commits.set(commits);
        if self.store.failed {
            return Err(KeeperError::StoreFault);
        }
        if change.is_empty() {
            return Ok(());
        }
        if self.store.left > 0 {
            self.store.left -= 1;
            return self.kept.commit(change);
        }
        if is_counted(&self.store.fault) {
            self.store.fault = Fault::Never;
            return Err(KeeperError::Memory);
        }
        match &self.store.fault {
            Fault::Never | Fault::Refused(true) => self.kept.commit(change)?,
            Fault::Refused(false) | Fault::Lacks(_) => {}
            Fault::Waits(mark) => {
                self.store.saw = is_set_soon(mark);
                return self.kept.commit(change);
            }
        }
        if let Fault::Never = &self.store.fault {
            return Ok(());
        }
        self.store.failed = true;
        Err(KeeperError::StoreFault)
    }

    fn load(&mut self, alloc: Global) -> Result<Durable, KeeperError> {
        if self.store.failed {
            return Err(KeeperError::StoreFault);
        }
        self.store.loads = self.store.loads.saturating_add(1);
        match &self.store.first {
            Some(first) => Ok(first.try_copy(alloc)?),
            None => self.kept.load(alloc),
        }
    }

    fn faults(&self) -> u64 {
        u64::from(self.store.failed)
    }
}
