//! Closed logs of sites that exchange deltas.
use crate::digest::Digest;
use crate::random::Random;
use crate::scripts;
use crate::scripts::Size;
use admission_core::{Ask, Call, Reply};
use desk_log::{Desk, Run, Runs, Transcript};
use durable_keeper::MemoryKeeper;
use merge_core::{Delta, Layout};
use script_text::push_reply;
use std::alloc::Global;
use transcript_text::{may_be_written, transcript_text};

// A site of which nothing is stored yet.
fn desk(alloc: Global, size: Size, site: u16) -> Option<Desk<MemoryKeeper>> {
    let layout = scripts::layout(alloc, size)?;
    let keeper = MemoryKeeper::new(alloc, &layout, site).ok()?;
    Desk::open(alloc, keeper, layout, site, 65_536).ok()
}

// What a caller asks, by a share below 921: as many reads as leaves, and fewer of the others.
fn ask(random: &mut Random, size: Size, share: u64) -> Option<Ask> {
    let r = u16::try_from(random.below(u64::from(size.records))).ok()?;
    let h = random.below(size.holders);
    if share < 300 {
        return Some(Ask::Read { r, h });
    }
    if share < 600 {
        return Some(Ask::Leave { r, h });
    }
    if share < 650 {
        return Some(Ask::Announce { r, h });
    }
    if share < 700 {
        return Some(Ask::Quill { r, h });
    }
    if share < 810 {
        let to = u16::try_from(random.below(u64::from(size.sites))).ok()?;
        return Some(Ask::Give {
            r,
            to,
            seats: random.below(3).wrapping_add(1),
        });
    }
    Some(Ask::Help { r })
}

// A call at some site; `told` has what each site sent last.
fn call(alloc: Global, told: &[Option<Delta>], random: &mut Random, size: Size) -> Option<Call> {
    let share = random.below(1000);
    if share < 921 {
        return Some(Call::Ask(ask(random, size, share)?));
    }
    let from = usize::try_from(random.below(u64::from(size.sites))).ok()?;
    match told.get(from)? {
        Some(delta) if share >= 956 => Some(Call::Merge(delta.try_copy(alloc).ok()?)),
        _ => Some(Call::Snapshot),
    }
}

// Adds the text of a reply.
fn add_reply(alloc: Global, all: &mut Digest, reply: &Reply) -> Option<()> {
    let mut text = String::new(alloc);
    push_reply(&mut text, reply).ok()?;
    all.add(text.as_bytes());
    Some(())
}

// Makes a call at some site, and adds its reply.
fn turn(
    alloc: Global,
    all: &mut Digest,
    desks: &mut [Desk<MemoryKeeper>],
    told: &mut [Option<Delta>],
    random: &mut Random,
    size: Size,
) -> Option<()> {
    let call = call(alloc, told, random, size)?;
    let at = usize::try_from(random.below(u64::from(size.sites))).ok()?;
    let reply = desks.get_mut(at)?.serve(0, &call);
    add_reply(alloc, all, &reply)?;
    if let Reply::Snapshot(delta) = reply {
        *told.get_mut(at)? = Some(delta);
    }
    Some(())
}

// The lines of a log.
fn text_of(alloc: Global, layout: &Layout, transcript: &Transcript) -> Option<String> {
    match may_be_written(alloc, layout, transcript) {
        Ok(true) => transcript_text(alloc, layout, transcript).ok(),
        _ => None,
    }
}

// Writes the log of a site.
fn push_log(
    alloc: Global,
    text: &mut String,
    layout: &Layout,
    desk: Desk<MemoryKeeper>,
    site: u16,
) -> Option<()> {
    let (first, entries, _keeper) = desk.into_parts();
    let mut runs = Vec::new(alloc);
    let sites = layout.sites();
    runs.push(Run {
        sites,
        first,
        entries,
    })
    .ok()?;
    let transcript = Transcript {
        site,
        runs: Runs::from_vec(runs),
    };
    text.push_str(text_of(alloc, layout, &transcript)?.as_str())
        .ok()
}

/// The logs of all sites behind so many calls, whose replies are added to the digest.
pub(crate) fn logs(
    alloc: Global,
    random: &mut Random,
    size: Size,
    all: &mut Digest,
) -> Option<String> {
    let mut desks = Vec::new(alloc);
    let mut told = Vec::new(alloc);
    for site in 0..size.sites {
        desks.push(desk(alloc, size, site)?).ok()?;
        told.push(None).ok()?;
    }
    for _ in 0..size.lines {
        turn(
            alloc,
            all,
            desks.as_mut_slice(),
            told.as_mut_slice(),
            random,
            size,
        )?;
    }
    let layout = scripts::layout(alloc, size)?;
    let mut text = String::new(alloc);
    let mut site = 0u16;
    for desk in desks {
        push_log(alloc, &mut text, &layout, desk, site)?;
        site = site.saturating_add(1);
    }
    Some(text)
}
