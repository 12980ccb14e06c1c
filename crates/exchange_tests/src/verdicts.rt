//! The verdict on the logs of sites that told each other over links.
use crate::sites::{Outcome, Shape, layout_of};
use log_judge::{Verdict, are_of_sites, judge};
use session_book::Transcript;
use std::alloc::Global;

// The log of a site, and how many entries it has.
fn log_of(ended: Outcome) -> Option<(Transcript, u64)> {
    let Outcome {
        before: _,
        reports: _,
        after: _,
        known: _,
        marks: _,
        transcript,
    } = ended;
    let entries = transcript.runs.as_slice().first()?.entries.as_slice().len();
    Some((transcript, entries as u64))
}

/// The verdict on the logs of all sites, at the cut behind their last entries.
pub fn full_verdict(alloc: Global, shape: Shape, all: Vec<Option<Outcome>>) -> Option<Verdict> {
    let layout = layout_of(alloc, shape)?;
    let mut transcripts = Vec::new(alloc);
    let mut cut = Vec::new(alloc);
    for ended in all {
        let (transcript, entries) = log_of(ended?)?;
        transcripts.push(transcript).ok()?;
        cut.push(entries).ok()?;
    }
    if !are_of_sites(&layout, transcripts.as_slice()) {
        return None;
    }
    judge(alloc, &layout, transcripts.as_slice(), cut.as_slice()).ok()
}
