//! What the judge says of closed logs and a cut.
use desk_log::Transcript;
use log_judge::{Verdict, are_of_sites, cut_table, is_cut, judge};
use merge_core::Layout;
use std::alloc::Global;

/// The verdict, if there is a log for each site.
pub fn verdict_at(
    alloc: Global,
    layout: &Layout,
    transcripts: &[Transcript],
    cut: &[u64],
) -> Option<Verdict> {
    if !are_of_sites(layout, transcripts) {
        return None;
    }
    judge(alloc, layout, transcripts, cut).ok()
}

/// Whether the cut has this table.
pub fn has_table(alloc: Global, transcripts: &[Transcript], cut: &[u64], wanted: &str) -> bool {
    if !is_cut(transcripts, cut) {
        return false;
    }
    match cut_table(alloc, transcripts, cut) {
        Ok(table) => table.as_str() == wanted,
        Err(_) => false,
    }
}
