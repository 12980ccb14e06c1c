//! The log file of a site behind a crash at any byte, and files that are none.
ghost use Rattle.std.specs.Prelude.{◌≡◌, IfSome};

use crate::fakes::Bytes;
use admission_core::Durable;
use desk_log::same::same_durable;
use durable_keeper::{Keeper, MemoryKeeper};
use exit_status::Status;
use layout_file::read_layout;
use line_conversation::StreamConversation;
use live_site::NoPlace;
use log_file::{FileLog, LogError, begin_log, mend};
use log_judge::{Verdict, are_of_sites, full_cut, judge};
use merge_core::Layout;
use serve_engine::{LINE_LIMIT, Marking, serve_engine};
use std::alloc::Global;
use test_streams::texts::{TWO_SITES, WRITERS_FIRST};
use test_streams::{Giving, Keeping, NEVER};
use text_input::{Sink, Source};
use transcript_reader::read_transcripts;

/// Opens the log of a site in a file, for a run that begins so.
pub fn opened(
    alloc: Global,
    layout: &Layout,
    site: u16,
    file: Bytes,
    first: &Durable,
) -> Result<FileLog<Bytes>, LogError> {
    let mended = mend(alloc, layout, site, file.bytes.as_slice(), first)?;
    let length = file.bytes.len() as u64;
    begin_log(alloc, file, length, mended, layout, site, first)
}

// What a keeper keeps.
fn part(alloc: Global, keeper: &mut MemoryKeeper) -> Option<Durable>
    ensures layout { keeper.new.layout ≡ keeper.old.layout }
    ensures site { keeper.new.site ≡ keeper.old.site }
{
    keeper.load(alloc).ok()
}

/// Serves lines over a keeper and a log in a file.
pub fn served(
    alloc: Global,
    layout: &Layout,
    site: u16,
    keeper: MemoryKeeper,
    file: Bytes,
    lines: &[u8],
) -> Option<(Status, MemoryKeeper, Bytes)>
    requires layout { keeper.layout ≡ layout.now }
    requires site { keeper.site ≡ site }
    ensures layout { IfSome result (λ k. k.1.layout ≡ layout.now) }
    ensures site { IfSome result (λ k. k.1.site ≡ site) }
{
    let mut keeper = keeper;
    let first = part(alloc, &mut keeper)?;
    let log = opened(alloc, layout, site, file, &first).ok()?;
    served_over(alloc, layout, site, keeper, log, lines)
}

// Serves lines over a keeper and a log.
fn served_over(
    alloc: Global,
    layout: &Layout,
    site: u16,
    keeper: MemoryKeeper,
    log: FileLog<Bytes>,
    lines: &[u8],
) -> Option<(Status, MemoryKeeper, Bytes)>
    requires layout { keeper.layout ≡ layout.now }
    requires site { keeper.site ≡ site }
    ensures layout { IfSome result (λ k. k.1.layout ≡ layout.now) }
    ensures site { IfSome result (λ k. k.1.site ≡ site) }
{
    let copy = layout.try_copy(alloc).ok()?;
    if site >= copy.sites() {
        return None;
    }
    let mut log = log;
    let mut reader = Giving::new(lines, NEVER);
    let mut writer = Keeping::new(alloc, NEVER);
    let mut talk = StreamConversation::new(
        alloc,
        Source::new(&mut reader),
        Sink::new(&mut writer),
        LINE_LIMIT,
    )
    .ok()?;
    let (ended, keeper) = serve_engine(
        alloc,
        keeper,
        copy,
        site,
        None,
        Marking::Plain,
        &mut talk,
        &mut log,
        &NoPlace {},
    );
    drop(talk);
    Some((ended, keeper, log.into_file()))
}

// What two runs of a site leave: its log, and what its store keeps.
#[derive(Drop)]
struct Leaves {
    bytes: Vec<u8>,
    first: Durable,
}

// What two runs of these lines leave at a new site.
fn left(alloc: Global, layout: &Layout, site: u16, first: &[u8], second: &[u8]) -> Option<Leaves> {
    let keeper = MemoryKeeper::new(alloc, layout, site).ok()?;
    let file = Bytes {
        bytes: Vec::new(alloc),
        left: 1000,
    };
    let (_, keeper, file) = served(alloc, layout, site, keeper, file, first)?;
    let (_, keeper, file) = served(alloc, layout, site, keeper, file, second)?;
    let mut keeper = keeper;
    let first = part(alloc, &mut keeper)?;
    Some(Leaves {
        bytes: file.bytes,
        first,
    })
}

/// Where the line of this number ends, counted from 1, or the bytes do.
pub fn end_of(bytes: &[u8], line: usize) -> usize {
    let mut seen = 0usize;
    for (place, byte) in bytes.iter().enumerate() {
        if seen >= line {
            return place;
        }
        if *byte == b'\n' {
            seen = seen.saturating_add(1);
        }
    }
    bytes.len()
}

/// The first so many bytes.
pub fn front(bytes: &[u8], end: usize) -> &[u8] {
    &bytes[..end.min(bytes.len())]
}

// How many LF there are.
fn lines_in(bytes: &[u8]) -> usize {
    let mut seen = 0usize;
    for byte in bytes {
        if *byte == b'\n' {
            seen = seen.saturating_add(1);
        }
    }
    seen
}

/// Whether a log is consistent.
pub fn is_consistent(alloc: Global, layout: &Layout, bytes: &[u8]) -> Option<bool> {
    let transcripts = read_transcripts(alloc, layout, bytes).ok()?;
    if !are_of_sites(layout, transcripts.as_slice()) {
        return None;
    }
    let cut = full_cut(alloc, transcripts.as_slice()).ok()?;
    let verdict = judge(alloc, layout, transcripts.as_slice(), cut.as_slice()).ok()?;
    Some(verdict == Verdict::Consistent)
}

/// The log of a site that a crash has left with these bytes, opened again where its store gives back this part: how many
/// bytes of it stay, and how many are written in place of its last line. Nothing where it is not consistent then.
pub fn reopened(
    alloc: Global,
    layout: &Layout,
    site: u16,
    bytes: &[u8],
    first: &Durable,
) -> Option<(usize, usize)> {
    let mended = mend(alloc, layout, site, bytes, first).ok()?;
    let found = (mended.kept as usize, mended.tail.len());
    let file = Bytes {
        bytes: Vec::from_slice(alloc, bytes).ok()?,
        left: 1,
    };
    let log = opened(alloc, layout, site, file, first).ok()?;
    if is_consistent(alloc, layout, log.file().bytes.as_slice()) == Some(true) {
        return Some(found);
    }
    None
}

// A layout, a site, the lines of a first run and of a second one.
type Story = (&'static str, u16, &'static [u8], &'static [u8]);

static STORIES: [Story; 3] = [
    (
        TWO_SITES,
        0,
        b"read a 7\nread a 8\nread a 9\nleave a 7\n",
        b"announce a 5\ngive a 1 1\nsend\nleave a 8\nwrite a 5\n",
    ),
    (
        TWO_SITES,
        1,
        b"read a 7\nhelp a\n",
        b"announce a 5\nleave a 5\nsend\n",
    ),
    (
        WRITERS_FIRST,
        0,
        b"",
        b"announce a 5\nread a 7\nwrite a 5\nleave a 5\n",
    ),
];

// A log is cut anywhere behind a line, up to the end of the next one, where the store has kept the change of the line: all
// up to the line stays. The first place at which that is not so.
fn torn(
    alloc: Global,
    layout: &Layout,
    site: u16,
    log: &[u8],
    line: usize,
    first: &Durable,
) -> Option<usize> {
    let begin = end_of(log, line);
    let end = end_of(log, line.saturating_add(1)).max(begin.saturating_add(1));
    for place in begin..end {
        if reopened(alloc, layout, site, front(log, place), first) != Some((begin, 0)) {
            return Some(place);
        }
    }
    None
}

// Whether a log that ends with a line stays, or has the line written again where the store has not kept its change.
fn is_doubted(
    alloc: Global,
    layout: &Layout,
    site: u16,
    log: &[u8],
    line: usize,
    before: &Durable,
    after: &Durable,
) -> bool {
    let end = end_of(log, line);
    let found = reopened(alloc, layout, site, front(log, end), before);
    if same_durable(before, after) {
        return found == Some((end, 0));
    }
    match found {
        Some((kept, tail)) => kept == end_of(log, line.saturating_sub(1)) && tail > 0,
        None => false,
    }
}

// The first line of the second run behind which a crash leaves a log that is not mended as it is to be.
fn first_wrong(alloc: Global, story: &Story) -> Option<usize> {
    let (toml, site, first, second) = *story;
    let layout = read_layout(alloc, toml.as_bytes()).ok()?;
    let whole = left(alloc, &layout, site, first, second)?;
    let log = whole.bytes.as_slice();
    let few = lines_in(second);
    let mut before = left(alloc, &layout, site, first, b"")?.first;
    let begin = lines_in(log).saturating_sub(few);
    for n in 0..few.saturating_add(1) {
        let line = begin.saturating_add(n);
        let after = left(
            alloc,
            &layout,
            site,
            first,
            front(second, end_of(second, n)),
        )?
        .first;
        if torn(alloc, &layout, site, log, line, &after) != None {
            return Some(n);
        }
        if n > 0 && !is_doubted(alloc, &layout, site, log, line, &before, &after) {
            return Some(n);
        }
        before = after;
    }
    Some(usize::MAX)
}

#[test]
fn a_log_is_mended_behind_a_crash_at_any_byte(rt: HostRuntime) {
    for (row, story) in STORIES.iter().enumerate() {
        let wrong = first_wrong(rt.alloc(), story);
        assert!(rt; wrong == Some(usize::MAX), "row {row}: {wrong:?}");
    }
}
