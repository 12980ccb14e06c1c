//! Rounds of changes over stores in memory: a keeper that makes them together comes to what one that makes each by itself
//! comes to, and the store is found so again.
ghost use Rattle.std.specs.Prelude.{◌≡◌, All, IsTrue};
ghost use Rattle.admission_core.specs.Restored.{IsSession};
ghost use Rattle.durable_keeper.specs.Keeping.{IsChange, IsSessionChange};
ghost use Rattle.site_store.specs.Sql.{layout_of, site_of};

use crate::databases::{in_memory, layout};
use admission_core::{Change, Durable, Phase, Session, SessionChange};
use merge_core::Layout;
use site_store::{Keeper, KeeperError, MemoryKeeper, RoundKeeper, SqlKeeper};
use sqlite::{Alter, Connection};
use std::alloc::{AllocError, Global};

/// The greatest number of a holder.
const HOLDERS: u64 = 1_000_000_000_000;

/// What becomes of a session in a round's change of this number: every four of them, a writer waits, a reader comes behind
/// it, the writer enters, and the reader leaves.
fn edit_at(number: u64) -> SessionChange {
    let four = number / 4;
    let (h, phase) = match number % 4 {
        0 => (2 * four, Phase::Waiting),
        2 => (2 * four, Phase::Writer),
        _ => (2 * four + 1, Phase::Reader),
    };
    let session = Session { r: 0, h, phase };
    if number % 4 == 3 {
        SessionChange::Removed(session)
    } else {
        SessionChange::Put(session)
    }
}

/// The changes of a round, from this number on.
fn round_of(alloc: Global, from: u64, count: u64) -> Result<Vec<Change>, AllocError> {
    let mut round = Vec::new(alloc);
    for k in 0..count {
        let number = from.saturating_add(k);
        round.push(Change::new(Vec::new(alloc), Some(edit_at(number))))?;
    }
    Ok(round)
}

fn is_session(layout: &Layout, session: Session) -> bool
    ensures { IsTrue result → IsSession layout.now session }
{
    usize::from(session.r) < layout.records().len() && session.h <= HOLDERS
}

fn is_session_change(layout: &Layout, change: Option<SessionChange>) -> bool
    ensures { IsTrue result → IsSessionChange layout.now change }
{
    match change {
        Some(SessionChange::Put(session)) => is_session(layout, session),
        Some(SessionChange::Removed(session)) => is_session(layout, session),
        None => true,
    }
}

/// Whether a keeper of site 0 may be told a change of a session alone.
fn is_change(layout: &Layout, change: &Change) -> bool
    ensures { IsTrue result → IsChange layout.now 0 change.now }
{
    if !change.cells().is_empty() {
        return false;
    }
    is_session_change(layout, change.session())
}

fn are_changes(layout: &Layout, changes: &[Change]) -> bool
    ensures { IsTrue result → All (IsChange layout.now 0) changes.now }
{
    changes.iter().all(|change| is_change(layout, change))
}

/// Whether a keeper in memory makes the changes of a round, each by itself.
fn is_each_made(keeper: &mut MemoryKeeper, round: &[Change]) -> bool
    requires { All (IsChange keeper.old.layout keeper.old.site) round.now }
    ensures layout { keeper.new.layout ≡ keeper.old.layout }
    ensures site { keeper.new.site ≡ keeper.old.site }
{
    for change in round {
        if keeper.commit(change).is_err() {
            return false;
        }
    }
    true
}

/// Whether it makes those of all rounds.
fn are_each_made(alloc: Global, layout: &Layout, keeper: &mut MemoryKeeper, rounds: &[u64]) -> bool
    requires layout { keeper.old.layout ≡ layout.now }
    requires site { keeper.old.site ≡ 0 }
{
    let mut from = 0u64;
    for count in rounds {
        let Ok(round) = round_of(alloc, from, *count) else {
            return false;
        };
        if !are_changes(layout, &round) || !is_each_made(keeper, &round) {
            return false;
        }
        from = from.saturating_add(*count);
    }
    true
}

/// What a keeper in memory holds after rounds, each change of which is made by itself.
pub fn each_made(alloc: Global, layout: &Layout, rounds: &[u64]) -> Option<Durable> {
    let Ok(mut keeper) = MemoryKeeper::new(alloc, layout, 0) else {
        return None;
    };
    if !are_each_made(alloc, layout, &mut keeper, rounds) {
        return None;
    }
    keeper.load(alloc).ok()
}

/// Whether a keeper makes a round. One that lacked memory left all as it was, and is made again.
fn is_made<S: Alter>(keeper: &mut SqlKeeper<S>, round: &[Change]) -> bool
    requires { All (IsChange (layout_of keeper.old) (site_of keeper.old)) round.now }
    ensures layout { layout_of keeper.new ≡ layout_of keeper.old }
    ensures site { site_of keeper.new ≡ site_of keeper.old }
{
    match keeper.commit_all(round) {
        Ok(()) => true,
        Err(KeeperError::Memory) => keeper.commit_all(round).is_ok(),
        Err(KeeperError::StoreFault) => false,
    }
}

/// How many of these rounds a keeper makes, the changes of each together, until it does not make one.
pub fn made_of<S: Alter>(
    alloc: Global,
    layout: &Layout,
    keeper: &mut SqlKeeper<S>,
    rounds: &[u64],
) -> usize
    requires layout { layout_of keeper.old ≡ layout.now }
    requires site { site_of keeper.old ≡ 0 }
{
    let mut made = 0usize;
    let mut from = 0u64;
    for count in rounds {
        let Ok(round) = round_of(alloc, from, *count) else {
            return made;
        };
        if !are_changes(layout, &round) || !is_made(keeper, &round) {
            return made;
        }
        made = made.saturating_add(1);
        from = from.saturating_add(*count);
    }
    made
}

/// Whether a keeper holds what another one does.
pub fn holds<K: Keeper>(alloc: Global, keeper: &mut K, wanted: &Durable) -> bool {
    match keeper.load(alloc) {
        Ok(found) => found.cells() == wanted.cells() && found.sessions() == wanted.sessions(),
        Err(_) => false,
    }
}

/// A database after rounds, if the keeper over it holds what it is to then.
fn after_rounds<S: Alter + Drop>(
    alloc: Global,
    connection: Connection<S>,
    layout: &Layout,
    rounds: &[u64],
    wanted: &Durable,
) -> Option<Connection<S>> {
    if !connection.is_autocommit() {
        return None;
    }
    let Ok(mut keeper) = SqlKeeper::open(alloc, connection, layout, 0, None) else {
        return None;
    };
    let made = made_of(alloc, layout, &mut keeper, rounds);
    if made == rounds.len() && holds(alloc, &mut keeper, wanted) {
        Some(keeper.into_connection())
    } else {
        None
    }
}

/// Whether a keeper holds after rounds what it is to, and its store does when it is opened again.
fn are_kept(alloc: Global, rounds: &[u64]) -> Option<bool> {
    let layout = layout(alloc, 2, 2)?;
    let wanted = each_made(alloc, &layout, rounds)?;
    let made = after_rounds(alloc, in_memory(alloc)?, &layout, rounds, &wanted)?;
    Some(after_rounds(alloc, made, &layout, &[], &wanted).is_some())
}

/// Rounds of one change, of two, of seven, of as many as a service may take, and of several of these.
static ROUNDS: [&[u64]; 6] = [
    &[1],
    &[2],
    &[7],
    &[256],
    &[3, 0, 7, 256, 1, 2],
    &[1, 1, 1, 1, 1],
];

/// The first rounds after which something else is held.
fn other_rounds(alloc: Global) -> Option<usize> {
    let mut at = 0usize;
    for rounds in ROUNDS {
        if are_kept(alloc, rounds) != Some(true) {
            return Some(at);
        }
        at = at.saturating_add(1);
    }
    None
}

#[test]
fn rounds_come_to_what_their_changes_do(rt: HostRuntime) {
    assert!(rt; other_rounds(rt.alloc()) == None);
}
