//! A keeper in memory, whose device never fails.
ghost use Rattle.std.specs.Prelude.{◌≡◌, ◌<◌, Some};
ghost use Rattle.durable_keeper.specs.Keeping.{changed_sessions};

use crate::cells::{new_list, put_among};
use crate::error::KeeperError;
use crate::keeper::Keeper;
use admission_core::{Change, Durable, DurableCell, Session, SessionChange};
use merge_core::Layout;
use session_list::Sessions;
use std::alloc::{AllocError, Global};
use std::marker::Model;

/// Puts a session, for which there is room. Takes no memory.
fn put_session(sessions: &mut Sessions, session: Session)
    requires { 0 < sessions.old.room }
    ensures { sessions.new.sessions ≡ changed_sessions (Some (SessionChange.Put session)) sessions.old.sessions }
{
    if sessions.phase(session.r, session.h).is_some() {
        sessions.set_phase(session.r, session.h, session.phase);
    } else {
        sessions.push(session);
    }
}

/// Changes the sessions, for one more of which there is room. Takes no memory.
fn change_sessions(sessions: &mut Sessions, change: Option<SessionChange>)
    requires { 0 < sessions.old.room }
    ensures { sessions.new.sessions ≡ changed_sessions change sessions.old.sessions }
{
    match change {
        Some(SessionChange::Put(session)) => put_session(sessions, session),
        Some(SessionChange::Removed(session)) => {
            let _phase = sessions.remove(session.r, session.h);
        }
        None => {}
    }
}

/// It keeps a site's durable part in memory, and never fails. It is lost with the process. A commit is linear in what is
/// kept; one of a few counters searches for each, and moves only those behind one that is new. Where there is no room for
/// these, it copies all into a new list with room for about as many more.
pub struct MemoryKeeper {
    layout: Layout,
    site: u16,
    cells: Vec<DurableCell>,
    sessions: Sessions,
}

impl Drop for MemoryKeeper {
    fn drop(self) {
        let MemoryKeeper {
            layout: _,
            site: _,
            cells: _,
            sessions: _,
        } = self;
    }
}

// Contracts see what it was made for and what it keeps. The counters rise by record and slot.
impl Model for MemoryKeeper {
    ghost use Rattle.admission_core.specs.Durable.{AreRising};
    ghost use Rattle.durable_keeper.specs.Memory.{MemoryState};

    ghost Value = { MemoryState };

    ghost view = { λ k. record { layout = k.layout; site = k.site; part = record { cells = k.cells.items; sessions = k.sessions.sessions } } };

    ghost invariant = { λ k. AreRising k.cells.items };
}

impl MemoryKeeper {
    ghost use Rattle.std.specs.Prelude.{◌≡◌, IfOk};
    ghost use Rattle.durable_keeper.specs.Keeping.{nothing_kept};

    /// A keeper for a site of a layout, of which it keeps a copy. Nothing is kept yet.
    pub fn new(alloc: Global, layout: &Layout, site: u16) -> Result<MemoryKeeper, AllocError>
        ensures { IfOk result (λ k. k ≡ record { layout = layout.now; site = site; part = nothing_kept }) }
    {
        let layout = layout.try_copy(alloc)?;
        Ok(MemoryKeeper {
            layout,
            site,
            cells: Vec::new(alloc),
            sessions: Sessions::new(alloc),
        })
    }

    /// A copy of it, whose memory comes from where its own does. Linear in what is kept.
    pub fn try_copy(&self) -> Result<MemoryKeeper, AllocError>
        ensures { IfOk result (λ k. k ≡ self.now) }
    {
        let alloc = *self.cells.allocator();
        let layout = self.layout.try_copy(alloc)?;
        let cells = Vec::from_slice(alloc, self.cells.as_slice())?;
        let list = self.sessions.list(alloc)?;
        // No session is there twice, so the list is one of sessions.
        let Some(sessions) = Sessions::from_list(alloc, list.as_slice())? else {
            return Err(AllocError);
        };
        Ok(MemoryKeeper {
            layout,
            site: self.site,
            cells,
            sessions,
        })
    }
}

impl Keeper for MemoryKeeper {
    ghost use Rattle.std.specs.Prelude.{◌≡◌, ◌⊎◌};

    ghost layout = { λ k. k.layout };

    ghost site = { λ k. k.site };

    ghost keeps = { λ k d. d ≡ k.part };

    ghost keeps_either = { λ k d e. (d ≡ k.part) ⊎ (e ≡ k.part) };

    ghost is_honest = { λ _. Unit {0} };

    ghost faults_of = { λ _. 0 };

    fn commit(&mut self, change: &Change) -> Result<(), KeeperError> {
        if change.is_empty() {
            return Ok(());
        }
        let put = change.cells();
        let made = new_list(&self.cells, put)?;
        self.sessions.reserve()?;
        put_among(&mut self.cells, put, made);
        change_sessions(&mut self.sessions, change.session());
        Ok(())
    }

    fn load(&mut self, alloc: Global) -> Result<Durable, KeeperError> {
        let cells = Vec::from_slice(alloc, self.cells.as_slice())?;
        let sessions = self.sessions.list(alloc)?;
        Ok(Durable::new(cells, sessions))
    }

    fn faults(&self) -> u64 {
        0
    }
}
