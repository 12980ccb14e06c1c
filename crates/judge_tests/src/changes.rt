//! Changes of closed logs, as no site makes them.
use crate::stories::{Step, call_of};
use admission_core::{Refusal, Reply};
use desk_log::{Entries, Entry, Run, Runs, Transcript};
use merge_core::Delta;
use std::alloc::Global;
use std::mem;

/// A reply of a log.
#[derive(Clone, Copy)]
pub enum Said {
    Admitted,
    Given,
    AlreadyHere,
    NoSite,
    Memory,
    Merged(u64),
    /// The store failed.
    Fault,
}

/// A change of the log of a site, whose number comes first; then that of a run.
#[derive(Clone, Copy)]
pub enum Change {
    /// The entry at this place of its run has another reply.
    Reply(u16, usize, usize, Said),
    /// The run has one more entry.
    More(u16, usize, Step, Said),
    /// The run had so many sites.
    Sites(u16, usize, u16),
    /// Nothing is left of the site's runs.
    Nothing(u16),
}

/// The reply.
pub fn reply_of(said: Said) -> Reply {
    match said {
        Said::Admitted => Reply::Admitted,
        Said::Given => Reply::Given,
        Said::AlreadyHere => Reply::Refused(Refusal::AlreadyHere),
        Said::NoSite => Reply::Refused(Refusal::NoSite),
        Said::Memory => Reply::Refused(Refusal::Memory),
        Said::Merged(risen) => Reply::Merged(risen),
        Said::Fault => Reply::Refused(Refusal::StoreFault),
    }
}

// Changes the entries of a run.
fn change_entries(
    alloc: Global,
    messages: &[Delta],
    entries: &mut Vec<Entry>,
    change: Change,
) -> Option<()> {
    match change {
        Change::Reply(_, _, at, said) => {
            entries.get_mut(at)?.reply = reply_of(said);
            Some(())
        }
        Change::More(_, _, step, said) => {
            let call = call_of(alloc, messages, step)?;
            let reply = reply_of(said);
            entries
                .push(Entry {
                    pass: 0,
                    call,
                    reply,
                })
                .ok()
        }
        _ => None,
    }
}

// Changes a run.
fn change_run(alloc: Global, messages: &[Delta], run: &mut Run, change: Change) -> Option<()> {
    if let Change::Sites(_, _, sites) = change {
        run.sites = sites;
        return Some(());
    }
    let none = Entries::from_vec(Vec::new(alloc));
    let mut entries = mem::replace(&mut run.entries, none).into_vec();
    change_entries(alloc, messages, &mut entries, change)?;
    run.entries = Entries::from_vec(entries);
    Some(())
}

// The site and the run of a change; without a run all of them.
fn place_of(change: Change) -> (u16, Option<usize>) {
    match change {
        Change::Reply(site, run, _, _) => (site, Some(run)),
        Change::More(site, run, _, _) => (site, Some(run)),
        Change::Sites(site, run, _) => (site, Some(run)),
        Change::Nothing(site) => (site, None),
    }
}

// Makes a change.
fn change_one(
    alloc: Global,
    messages: &[Delta],
    transcripts: &mut [Transcript],
    change: Change,
) -> Option<()> {
    let (site, at) = place_of(change);
    let transcript = transcripts.get_mut(usize::from(site))?;
    let none = Runs::from_vec(Vec::new(alloc));
    let mut runs = mem::replace(&mut transcript.runs, none).into_vec();
    let Some(k) = at else {
        return Some(());
    };
    change_run(alloc, messages, runs.get_mut(k)?, change)?;
    transcript.runs = Runs::from_vec(runs);
    Some(())
}

/// Makes all changes.
pub fn make(
    alloc: Global,
    messages: &[Delta],
    transcripts: &mut [Transcript],
    changes: &[Change],
) -> Option<()> {
    for change in changes {
        change_one(alloc, messages, transcripts, *change)?;
    }
    Some(())
}
