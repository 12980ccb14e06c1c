//! The table of a cut.
use crate::judged::has_table;
use crate::stories::told;
use crate::verdicts::{Told, story_of};
use std::alloc::Global;

// Whether a cut through a story's logs has this table.
fn says(alloc: Global, story: Told, cut: &[u64], text: &str) -> bool {
    let (plan, steps) = story_of(story);
    match told(alloc, plan, steps) {
        Some((_layout, transcripts, _messages)) => {
            has_table(alloc, transcripts.as_slice(), cut, text)
        }
        None => false,
    }
}

#[test]
fn a_table_has_a_line_for_each_site(rt: HostRuntime) {
    let three =
        "site      cut  entries  runs\n   0        8        8     1\n   1        6        6     1\n   2        0        0     1\n";
    assert!(rt; says(rt.alloc(), Told::Helped, &[8, 6, 0], three));
    let two =
        "site      cut  entries  runs\n   0        1        3     2\n   1        0        0     1\n";
    assert!(rt; says(rt.alloc(), Told::Kept, &[1, 0], two));
}
