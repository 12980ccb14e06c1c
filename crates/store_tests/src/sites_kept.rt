//! A site behind its lock over a keeper of which it is known what it keeps: its run begins with that, and the keeper then
//! keeps what the run leaves. The proof of the call names what was kept.
ghost use Rattle.std.specs.Prelude.{◌≡◌, ◌<◌, IfSome};
ghost use Rattle.admission_core.specs.Kept.{DurableState};
ghost use Rattle.desk_log.specs.Desk.{IsMadeFor};
ghost use Rattle.store_tests.specs.Kept.{IsRunFrom};

use crate::databases::{in_memory, layout};
use admission_core::{Ask, Call};
use durable_keeper::{Keeper, MemoryKeeper};
use merge_core::Layout;
use session_book::{Opening, Pass, Site, Transcript};
use site_store::SqlKeeper;
use sqlite::MemStore;
use std::alloc::Global;
use std::marker::Brand;
use std::sync::Wait;
use std::sync::ledger::Blank;

/// A reader of record `a`.
const READ: Ask = Ask::Read { r: 0, h: 7 };

// Makes the call by the first pass.
fn call_first<K: Keeper, L: Opening, R: Wait>(rt: &R, site: &Site<K, L>, passes: &mut [Pass<L>]) {
    if !passes.is_empty() {
        let _reply = site.call(rt, &mut passes[0], Call::Ask(READ));
    }
}

// Opens a site with one pass, makes one call, and closes it.
fn called_once<K: Keeper + Drop, L: Opening, R: Wait>(
    rt: &R,
    alloc: Global,
    blank: Blank,
    keeper: K,
    layout: Layout,
    site: u16,
) -> Option<(Transcript, K)>
    requires name { blank.name ≡ L.name }
    requires parts { blank.parts ≡ L.parts }
    requires one { blank.parts ≡ 1 }
    requires made_for { site < layout.sites → IsMadeFor K.Keeper keeper layout site }
    requires kept { (d : DurableState) → L.kept d → K.keeps keeper d }
    ensures { IfSome result (λ x. (d : DurableState) → L.kept d → K.is_honest x.1 → IsRunFrom K.Keeper layout site d x.0 x.1) }
{
    let Ok((site, mut passes)) = Site::<K, L>::open(alloc, blank, keeper, layout, site, 1, 16)
    else {
        return None;
    };
    call_first(rt, &site, passes.as_mut_slice());
    match site.close(rt, passes) {
        Ok(left) => Some(left),
        Err(_) => None,
    }
}

/// A site over a keeper is opened, called once, and closed. Whatever the keeper kept, the run begins with it, and what the
/// run leaves is kept.
fn called_over<K: Keeper + Drop, R: Wait>(
    rt: &R,
    alloc: Global,
    keeper: K,
    layout: Layout,
    site: u16,
) -> Option<(Transcript, K)>
    requires { site < layout.sites → IsMadeFor K.Keeper keeper layout site }
    ensures { IfSome result (λ x. (d : DurableState) → K.keeps keeper d → K.is_honest x.1 → IsRunFrom K.Keeper layout site d x.0 x.1) }
{
    called_once::<K, Brand, R>(rt, alloc, Blank::new(1), keeper, layout, site)
}

// How many entries a transcript has.
fn entries_in(transcript: &Transcript) -> usize {
    let mut count = 0usize;
    for run in transcript.runs.as_slice() {
        count = count.saturating_add(run.entries.len());
    }
    count
}

// The entries of a site's run over a keeper in memory.
fn entries_in_memory<R: Wait>(rt: &R, alloc: Global) -> Option<usize> {
    let layout = layout(alloc, 2, 2)?;
    let keeper = MemoryKeeper::new(alloc, &layout, 0).ok()?;
    let (transcript, _keeper) = called_over(rt, alloc, keeper, layout, 0)?;
    Some(entries_in(&transcript))
}

// The same over a store.
fn entries_in_store<R: Wait>(rt: &R, alloc: Global) -> Option<usize> {
    let layout = layout(alloc, 2, 2)?;
    let connection = in_memory(alloc)?;
    if !connection.is_autocommit() {
        return None;
    }
    let Ok(keeper) = SqlKeeper::<MemStore>::open(alloc, connection, &layout, 0, None) else {
        return None;
    };
    let (transcript, _keeper) = called_over(rt, alloc, keeper, layout, 0)?;
    Some(entries_in(&transcript))
}

#[test]
fn a_site_over_a_keeper_in_memory_leaves_one_entry(rt: HostRuntime) {
    assert!(rt; entries_in_memory(&rt, rt.alloc()) == Some(1));
}

#[test]
fn a_site_over_a_store_leaves_one_entry(rt: HostRuntime) {
    assert!(rt; entries_in_store(&rt, rt.alloc()) == Some(1));
}
