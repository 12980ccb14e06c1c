ghost use Rattle.std.specs.Prelude.{◌≡◌, IfOk, map};
ghost use Rattle.session_list.specs.Kept.{session_of};

use crate::session::{Phase, Session};
use indexmap::IndexMap;
use std::alloc::{AllocError, Global};
use std::marker::Model;

/// A record and a holder.
type Key = (u16, u64);

/// What is kept of a session under its key.
#[derive(Clone, Copy, Debug)]
struct Place {
    phase: Phase,
    arrived: u64,
}

/// The sessions of one site, at most one for each holder at each record. Contracts see them as a list in
/// order of arrival, and the room: how many more fit without taking memory.
///
/// Each session keeps the number of its arrival, so a removal moves the map's last entry into the gap and
/// shifts nothing, and only what shows the order sorts.
#[derive(Debug, Drop)]
pub struct Sessions {
    map: IndexMap<Key, Place>,
    next: u64,
}

// Contracts see the sessions in order of arrival, and the room.
impl Model for Sessions {
    ghost use Rattle.session_list.specs.Sessions.{Held};

    ghost Value = { Held };

    ghost use Rattle.session_list.specs.Kept.{held_by, IsKept};

    ghost view = { held_by };

    ghost invariant = { IsKept };
}

impl Sessions {
    ghost use Rattle.std.specs.Prelude.{◌≡◌, ℕ, ◌+◌, ◌<◌, ◌≤◌, ◌==◌, ◌&&◌, ◌↔◌, [], ◌∷◌, ◌++◌, length, IsTrue, IsSome, IsOk, IfOk, OnOk, IfSome, Some, None, if◌then◌else◌};
    ghost use Rattle.session_list.specs.Sessions.{is_of, phase_in, with_phase, without, IsOnce};

    /// No session. Takes no memory.
    #[tactic(auto, using(crate::proofs::KeptLemmas::sessions_empty))]
    pub fn new(alloc: Global) -> Sessions
        ensures { result.sessions ≡ [] }
    {
        Sessions {
            map: IndexMap::new(alloc),
            next: 0,
        }
    }

    /// The sessions of a list, in its order, or `None` where a holder stands twice at a record. Linear in
    /// the list.
    pub fn from_list(alloc: Global, list: &[Session]) -> Result<Option<Sessions>, AllocError>
        ensures sessions { IfOk result (λ read. IfSome read (λ it. it.sessions ≡ list.now)) }
        ensures once { IfOk result (λ read. IsSome read ↔ IsOnce list.now) }
    {
        let mut sessions = Sessions::new(alloc);
        for session in list {
            if sessions.phase(session.r, session.h).is_some() {
                return Ok(None);
            }
            sessions.reserve()?;
            sessions.push(*session);
        }
        Ok(Some(sessions))
    }

    /// The number of sessions.
    pub fn len(&self) -> usize
        ensures count { result ≡ length self.now.sessions }
        ensures once { IsOnce self.now.sessions }
    {
        self.map.len()
    }

    /// Whether there is no session.
    pub fn is_empty(&self) -> bool
        ensures { IsTrue result ↔ (self.now.sessions ≡ []) }
    {
        self.len() == 0
    }

    /// The phase of holder `h` at record `r`, if it has a session there. One look-up.
    pub fn phase(&self, r: u16, h: u64) -> Option<Phase>
        ensures found { result ≡ phase_in self.now.sessions r h }
        ensures once { IsOnce self.now.sessions }
    {
        self.map.get(&(r, h)).map(|place| place.phase)
    }

    /// Room for one more session at least, in amortised constant time. After 2^64 - 1 arrivals there is no
    /// number for another, and the answer is want of memory.
    pub fn reserve(&mut self) -> Result<(), AllocError>
        ensures ok { OnOk result (0 < self.new.room) }
        ensures sessions { self.new.sessions ≡ self.old.sessions }
        ensures room { self.old.room ≤ self.new.room }
        ensures succeeds { 0 < self.old.room → IsOk result }
    {
        if self.next == u64::MAX {
            return Err(AllocError);
        }
        self.map.reserve(1)?;
        Ok(())
    }

    /// Adds a session, the last to arrive. The caller shows that its holder has none at its record, and
    /// that there is room. Takes no memory.
    pub fn push(&mut self, session: Session)
        requires absent { phase_in self.old.sessions session.r session.h ≡ None }
        requires room { 0 < self.old.room }
        ensures sessions { self.new.sessions ≡ self.old.sessions ++ session ∷ [] }
        ensures phases { (r h : ℕ) → phase_in self.new.sessions r h
            ≡ (if is_of r h session then Some session.phase else phase_in self.old.sessions r h) }
        ensures once { IsOnce self.new.sessions }
        ensures room { self.old.room ≤ self.new.room + 1 }
    {
        let place = Place {
            phase: session.phase,
            arrived: self.next,
        };
        let _ = self.map.insert((session.r, session.h), place);
        self.next += 1;
    }

    /// Changes the phase of holder `h` at record `r`, whose caller shows that it has a session there. The
    /// session keeps its place.
    pub fn set_phase(&mut self, r: u16, h: u64, phase: Phase)
        requires { IsSome (phase_in self.old.sessions r h) }
        ensures sessions { self.new.sessions ≡ with_phase self.old.sessions r h phase }
        ensures phases { (q g : ℕ) → phase_in self.new.sessions q g
            ≡ (if (q == r) && (g == h) then Some phase else phase_in self.old.sessions q g) }
        ensures once { IsOnce self.new.sessions }
        ensures room { self.old.room ≤ self.new.room }
    {
        if let Some(place) = self.map.get_mut(&(r, h)) {
            place.phase = phase;
        }
    }

    /// Removes the session of holder `h` at record `r`, and answers the phase that it had, if any. The
    /// others keep their order. One look-up, and at most one entry moves.
    pub fn remove(&mut self, r: u16, h: u64) -> Option<Phase>
        ensures had { result ≡ phase_in self.old.sessions r h }
        ensures sessions { self.new.sessions ≡ without self.old.sessions r h }
        ensures phases { (q g : ℕ) → phase_in self.new.sessions q g
            ≡ (if (q == r) && (g == h) then None else phase_in self.old.sessions q g) }
        ensures once { IsOnce self.new.sessions }
        ensures room { self.old.room ≤ self.new.room }
    {
        self.map.swap_remove(&(r, h)).map(|place| place.phase)
    }

    /// All sessions, in order of arrival. Sorts them: `n log n` in their number.
    pub fn list(&self, alloc: Global) -> Result<Vec<Session>, AllocError>
        ensures { IfOk result (λ list. list.items ≡ self.now.sessions) }
    {
        let mut entries = entries_of(alloc, &self.map)?;
        entries.sort_unstable_by_key(|entry| entry.1.arrived);
        sessions_of(alloc, &entries)
    }
}

/// The entries of a map, in its own order.
fn entries_of(alloc: Global, map: &IndexMap<Key, Place>) -> Result<Vec<(Key, Place)>, AllocError>
    ensures { IfOk result (λ copy. copy.items ≡ map.now.entries) }
{
    map.iter().map(|(key, place)| (*key, *place)).collect(alloc)
}

/// The sessions of entries, in their order.
fn sessions_of(alloc: Global, entries: &[(Key, Place)]) -> Result<Vec<Session>, AllocError>
    ensures { IfOk result (λ list. list.items ≡ map session_of entries.now) }
{
    entries
        .iter()
        .map(|entry| Session {
            r: entry.0.0,
            h: entry.0.1,
            phase: entry.1.phase,
        })
        .collect(alloc)
}
