//! Want of memory at each call of a keeper and a desk. These tests are to pass with ample memory and with any one allocation
//! refused, or any two in a row: what then finds no memory has changed nothing, and goes on after that.
use crate::databases::in_memory;
use crate::desks::{
    DeskWork, ENTERS, NOTHING, ONE_READER, READ_7, Told, ask, is_part, over, over_memory,
};
use crate::stores::{At, HERE, Opened, opened_at, serves_over};
use admission_core::Durable;
use desk_log::Desk;
use site_store::{Keeper, KeeperError, StoreOpenError};
use sqlite::{Alter, Connection};
use std::alloc::Global;

/// How often what finds no memory is tried: once more than allocations are refused.
const TRIES: u8 = 3;

/// What a keeper keeps, asked again where it finds no memory; nothing where its store has failed.
fn kept<K: Keeper>(alloc: Global, keeper: &mut K) -> Option<Durable> {
    for _ in 0..TRIES {
        match keeper.load(alloc) {
            Ok(durable) => return Some(durable),
            Err(KeeperError::Memory) => {}
            Err(KeeperError::StoreFault) => return None,
        }
    }
    None
}

/// Whether a keeper keeps what a desk answered to a reader, or nothing where that found no memory.
fn keeps<K: Keeper>(alloc: Global, keeper: &mut K, told: Told) -> bool {
    match (told, kept(alloc, keeper)) {
        (Told::Admitted, Some(durable)) => is_part(&durable, ONE_READER),
        (Told::Memory, Some(durable)) => is_part(&durable, NOTHING),
        _ => false,
    }
}

/// Whether a desk admits a reader and keeps that, or finds no memory and keeps nothing.
#[derive(Drop)]
struct AdmitsOrNot;

impl DeskWork for AdmitsOrNot {
    type Found = bool;

    fn at<K: Keeper + Drop>(&self, alloc: Global, desk: Desk<K>) -> Option<(bool, K)> {
        let mut desk = desk;
        let told = ask(&mut desk, READ_7);
        let mut keeper = desk.into_keeper();
        let kept = keeps(alloc, &mut keeper, told);
        Some((kept, keeper))
    }
}

/// Whether a connection is opened as a store, or for want of memory not, and is opened then.
fn opens_now_or_then<S: Alter + Drop>(
    alloc: Global,
    connection: Connection<S>,
    at: At,
) -> Option<bool> {
    let mut held = connection;
    for _ in 0..TRIES {
        let (found, back) = opened_at(alloc, held, at);
        if found != Opened::Refused(StoreOpenError::Memory) {
            return is_open(found);
        }
        held = back;
    }
    Some(false)
}

/// Whether an opening came to a store; nothing where it was not tried.
fn is_open(opened: Opened) -> Option<bool> {
    match opened {
        Opened::Holds(_, _, _) | Opened::Unread => Some(true),
        Opened::Refused(_) | Opened::Failed => Some(false),
        Opened::Untried => None,
    }
}

/// Whether a store with one reader, made over an empty database, is opened, now or then.
fn finds_reader<S: Alter + Drop>(alloc: Global, empty: Connection<S>, sites: u16) -> Option<bool> {
    let at = At {
        sites,
        seats: 2,
        site: 0,
        group: None,
    };
    match serves_over(alloc, empty, ENTERS) {
        Some(connection) => opens_now_or_then(alloc, connection, at),
        None => None,
    }
}

fn makes(alloc: Global) -> Option<bool> {
    opens_now_or_then(alloc, in_memory(alloc)?, HERE)
}

fn finds(alloc: Global, sites: u16) -> Option<bool> {
    finds_reader(alloc, in_memory(alloc)?, sites)
}

fn admits(alloc: Global) -> Option<bool> {
    let (admitted, _) = over(alloc, in_memory(alloc)?, 2, &AdmitsOrNot)?;
    admitted
}

// What could not be tried, since one of the refused allocations came before, is tried again.

fn is_made(alloc: Global) -> bool {
    for _ in 0..TRIES {
        if let Some(made) = makes(alloc) {
            return made;
        }
    }
    false
}

fn is_found(alloc: Global, sites: u16) -> bool {
    for _ in 0..TRIES {
        if let Some(found) = finds(alloc, sites) {
            return found;
        }
    }
    false
}

fn is_admitted_in_memory(alloc: Global) -> bool {
    for _ in 0..TRIES {
        if let Some(admitted) = over_memory(alloc, &AdmitsOrNot) {
            return admitted;
        }
    }
    false
}

fn is_admitted(alloc: Global) -> bool {
    for _ in 0..TRIES {
        if let Some(admitted) = admits(alloc) {
            return admitted;
        }
    }
    false
}

#[test]
fn a_store_is_made_or_not_for_want_of_memory(rt: HostRuntime) {
    assert!(rt; is_made(rt.alloc()));
}

#[test]
fn a_store_is_found_or_not_for_want_of_memory(rt: HostRuntime) {
    for sites in [2u16, 3] {
        assert!(rt; is_found(rt.alloc(), sites), "{sites}");
    }
}

#[test]
fn a_reader_is_admitted_or_not_for_want_of_memory(rt: HostRuntime) {
    let alloc = rt.alloc();
    assert!(rt; is_admitted_in_memory(alloc));
    assert!(rt; is_admitted(alloc));
}
