//! Layouts, and scripts of events and calls.
use crate::random::Random;
use merge_core::{Layout, RecordName, RecordSpec};
use std::alloc::Global;
use text_parts::push_field;

/// How large a job is.
#[derive(Clone, Copy, Drop)]
pub struct Size {
    pub sites: u16,
    pub records: u16,
    pub holders: u64,
    pub lines: u64,
    pub rounds: u64,
    pub seed: u64,
}

/// Records that start at different sites, under both problems in turn, with 160 seats; at one site with the most.
pub(crate) fn layout(alloc: Global, size: Size) -> Option<Layout> {
    let mut records = Vec::new(alloc);
    for r in 0..size.records {
        records.push(record(alloc, size, r)?).ok()?;
    }
    Layout::new(size.sites, records).ok()
}

// One of them.
fn record(alloc: Global, size: Size, r: u16) -> Option<RecordSpec> {
    let mut name = String::new(alloc);
    push_field(&mut name, "r", u64::from(r)).ok()?;
    let home = u16::try_from(Random::new(u64::from(r)).below(u64::from(size.sites))).ok()?;
    Some(RecordSpec {
        name: RecordName::from_string(name),
        seats: if size.sites == 1 { 65_535 } else { 160 },
        home,
        problem: if r % 2 == 0 { 1 } else { 2 },
    })
}

// What stands behind a verb: a record and a holder.
fn push_held(text: &mut String, random: &mut Random, size: Size, verb: &str) -> Option<()> {
    text.push_str(verb).ok()?;
    push_field(text, " r", random.below(u64::from(size.records))).ok()?;
    push_field(text, " ", random.below(size.holders)).ok()
}

// Seats for another site.
fn push_give(text: &mut String, random: &mut Random, size: Size) -> Option<()> {
    push_field(text, "give r", random.below(u64::from(size.records))).ok()?;
    push_field(text, " ", random.below(u64::from(size.sites))).ok()?;
    push_field(text, " ", random.below(3).wrapping_add(1)).ok()
}

// A call that callers make, by a share below 1,000: as many reads as leaves, and fewer of the others.
fn push_call(text: &mut String, random: &mut Random, size: Size, share: u64) -> Option<()> {
    if share < 250 {
        return push_held(text, random, size, "read");
    }
    if share < 500 {
        return push_held(text, random, size, "leave");
    }
    if share < 540 {
        return push_held(text, random, size, "announce");
    }
    if share < 580 {
        return push_held(text, random, size, "write");
    }
    if share < 690 {
        return push_give(text, random, size);
    }
    push_field(text, "help r", random.below(u64::from(size.records))).ok()
}

// One event at some site; how many messages were sent with it.
fn push_event(text: &mut String, random: &mut Random, size: Size, sent: u64) -> Option<u64> {
    push_field(text, "", random.below(u64::from(size.sites))).ok()?;
    text.push_str(" ").ok()?;
    let share = random.below(1000);
    if share < 790 {
        push_call(text, random, size, share)?;
        return Some(sent);
    }
    if share < 890 {
        text.push_str("send").ok()?;
        return Some(sent.wrapping_add(1));
    }
    if share < 999 {
        let back = random.below(u64::from(size.sites).wrapping_mul(2));
        push_field(text, "take ", sent.saturating_sub(1).saturating_sub(back)).ok()?;
        return Some(sent);
    }
    text.push_str("restart").ok()?;
    Some(sent)
}

/// A script for `play`.
pub(crate) fn events(alloc: Global, random: &mut Random, size: Size) -> Option<String> {
    let mut text = String::new(alloc);
    let mut sent = 0;
    for _ in 0..size.lines {
        sent = push_event(&mut text, random, size, sent)?;
        text.push_str("\n").ok()?;
    }
    Some(text)
}

/// A script for `site`.
pub(crate) fn calls(alloc: Global, random: &mut Random, size: Size) -> Option<String> {
    let mut text = String::new(alloc);
    for _ in 0..size.lines {
        let share = random.below(1000);
        if share < 950 {
            push_call(&mut text, random, size, share)?;
        } else {
            text.push_str("send").ok()?;
        }
        text.push_str("\n").ok()?;
    }
    Some(text)
}
