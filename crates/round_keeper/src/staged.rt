//! A keeper whose changes wait until they are committed together.
ghost use Rattle.std.specs.Prelude.{◌≡◌, ◌++◌, ◌∷◌, [], IsErr, OnOk};

use crate::keeper::RoundKeeper;
use admission_core::{Change, Durable};
use durable_keeper::{Keeper, KeeperError};
use live_keeper::LiveKeeper;
use std::alloc::{AllocError, Global};
use std::marker::{Brand, Model, PhantomData};

/// The durable part that a keeper keeps before any of the changes that wait. Contracts alone know it.
pub trait Base {
    ghost use Rattle.admission_core.specs.Kept.{DurableState};

    ghost base: { DurableState };
}

impl Base for Brand {
    ghost use Rattle.durable_keeper.specs.Keeping.{nothing_kept};

    ghost base = { nothing_kept };
}

/// A keeper over another one, at which each change waits until [`commit_staged`](Staged::commit_staged) hands all on
/// together. A crash before leaves what the keeper below keeps. It loads nothing and sets no mark: it answers `Memory`.
#[derive(Drop)]
pub struct Staged<K: RoundKeeper, B: Base> {
    keeper: K,
    changes: Vec<Change>,
    mark_due: bool,
    over: PhantomData<B>,
}

// Contracts see the keeper below, what waits, and whether a mark was refused.
impl<K: RoundKeeper, B: Base> Model for Staged<K, B> {
    ghost use Rattle.round_keeper.specs.Staged.{StagedState, AreChanges};

    ghost Value = { StagedState K };

    ghost view = { λ s. record { keeper = s.keeper; changes = s.changes.items; mark_due = s.mark_due } };

    ghost invariant = { λ s. AreChanges K.Keeper s.keeper s.changes.items };
}

// Adds a copy of a change behind others. Linear in it.
fn push_copy(changes: &mut Vec<Change>, change: &Change) -> Result<(), AllocError>
    ensures ok { OnOk result (changes.new.items ≡ changes.old.items ++ change.now ∷ []) }
    ensures err { IsErr result → changes.new.items ≡ changes.old.items }
{
    let cells = Vec::from_slice(*changes.allocator(), change.cells())?;
    if changes.push(Change::new(cells, change.session())).is_err() {
        return Err(AllocError);
    }
    Ok(())
}

impl<K: RoundKeeper, B: Base> Staged<K, B> {
    ghost use Rattle.std.specs.Prelude.{◌≡◌, ◌≢◌, [], length, false, Ok, Err, OnOk};
    ghost use Rattle.admission_core.specs.Kept.{DurableState};
    ghost use Rattle.durable_keeper.specs.declared.error.KeeperError.TheVariants.{Memory, StoreFault};
    ghost use Rattle.round_keeper.specs.Staged.{KeepsStaged};

    /// A keeper over this one, at which nothing waits yet. Takes no memory.
    pub fn new(alloc: Global, keeper: K) -> Staged<K, B>
        ensures { result ≡ record { keeper = keeper; changes = []; mark_due = false } }
    {
        Staged {
            keeper,
            changes: Vec::new(alloc),
            mark_due: false,
            over: PhantomData,
        }
    }

    /// How many changes wait. None of them is empty.
    pub fn waiting(&self) -> usize
        ensures { result ≡ length self.now.changes }
    {
        self.changes.len()
    }

    /// Whether a mark was refused.
    pub fn is_mark_due(&self) -> bool
        ensures { result ≡ self.now.mark_due }
    {
        self.mark_due
    }

    /// Has all changes that wait kept together, the first one first: all of them or none. Where none waits, no store is called.
    /// The keeper below, and its answer.
    pub fn commit_staged(self) -> (K, Result<(), KeeperError>)
        ensures ok { (d : DurableState) → KeepsStaged K.Keeper B.base self d → OnOk result.1 (K.keeps result.0 d) }
        ensures memory { (d : DurableState) → KeepsStaged K.Keeper B.base self d → result.1 ≡ Err Memory → K.keeps result.0 B.base }
        ensures fault { (d : DurableState) → KeepsStaged K.Keeper B.base self d → result.1 ≡ Err StoreFault → K.keeps_either result.0 B.base d }
        ensures honest { K.is_honest result.0 → K.is_honest self.keeper }
        ensures told { result.1 ≡ Err StoreFault → K.faults_of result.0 ≡ 1 }
        ensures sound { result.1 ≢ Err StoreFault → K.faults_of result.0 ≡ 0 }
        ensures nothing { self.changes ≡ [] → K.faults_of self.keeper ≡ 0 → (result.1 ≡ Ok tt) × (result.0 ≡ self.keeper) }
        ensures layout { K.layout result.0 ≡ K.layout self.keeper }
        ensures site { K.site result.0 ≡ K.site self.keeper }
    {
        let Staged {
            keeper,
            changes,
            mark_due: _,
            over: _,
        } = self;
        if changes.is_empty() && keeper.faults() == 0 {
            return (keeper, Ok(()));
        }
        let mut keeper = keeper;
        let answer = keeper.commit_all(changes.as_slice());
        (keeper, answer)
    }

    /// The keeper below. What waits is dropped.
    pub fn drop_staged(self) -> K
        ensures { result ≡ self.keeper }
    {
        let Staged {
            keeper,
            changes: _,
            mark_due: _,
            over: _,
        } = self;
        keeper
    }
}

impl<K: RoundKeeper, B: Base> Keeper for Staged<K, B> {
    ghost use Rattle.round_keeper.specs.Staged.{KeepsStaged};

    ghost layout = { λ s. K.layout s.keeper };

    ghost site = { λ s. K.site s.keeper };

    ghost keeps = { λ s d. KeepsStaged K.Keeper B.base s d };

    // It is never in doubt: while changes wait no store is called.
    ghost keeps_either = { λ _ _ _. ⊥ };

    ghost is_honest = { λ s. K.is_honest s.keeper };

    ghost faults_of = { λ s. K.faults_of s.keeper };

    /// A copy of the change waits then. Linear in it.
    fn commit(&mut self, change: &Change) -> Result<(), KeeperError> {
        if self.keeper.faults() > 0 {
            return Err(KeeperError::StoreFault);
        }
        if change.is_empty() {
            return Ok(());
        }
        push_copy(&mut self.changes, change)?;
        Ok(())
    }

    /// What is kept once the changes are made is in no store: nothing is read, and the answer is `Memory`.
    fn load(&mut self, alloc: Global) -> Result<Durable, KeeperError> {
        let _ = alloc;
        if self.keeper.faults() > 0 {
            return Err(KeeperError::StoreFault);
        }
        Err(KeeperError::Memory)
    }

    fn faults(&self) -> u64 {
        self.keeper.faults()
    }
}

impl<K: RoundKeeper, B: Base> LiveKeeper for Staged<K, B> {
    // It sets no mark.
    ghost is_outdated = { λ _. ⊥ };

    /// A mark can't be one with changes: none is set, the answer is `Memory`, and the mark is due.
    fn mark_outdated(&mut self) -> Result<(), KeeperError> {
        if self.keeper.faults() > 0 {
            return Err(KeeperError::StoreFault);
        }
        self.mark_due = true;
        Err(KeeperError::Memory)
    }
}
