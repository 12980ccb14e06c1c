//! The engine of `judge` over files: texts that are opened one after another, and again where it takes that.
use judge_engine::{Cut, FilesError, LogFiles, judge_files};
use layout_file::read_layout;
use std::alloc::{AllocError, Global};
use std::cell::Cell;
use std::io;
use std::io::{Error, ErrorKind};
use test_streams::texts::TWO_SITES;
use test_streams::{Giving, Keeping, NEVER};
use text_input::Sink;

// Texts that are opened as files, each of them once; from then on the later ones are.
#[derive(Drop)]
struct Texts<'a> {
    first: &'a [&'a str],
    later: &'a [&'a str],
    opened: Cell<usize>,
}

impl<'a> LogFiles for Texts<'a> {
    ghost use Rattle.std.specs.Prelude.{length};

    type File = Giving<'a>;

    ghost number = { λ t. length t.first.now };

    ghost holds = { λ t file had. Unit {0} };

    ghost fails = { λ t file kind. Unit {0} };

    fn count(&self) -> usize {
        self.first.len()
    }

    // `?` does not open, and for `??` there is no memory; a read of `!` fails.
    fn open(&self, file: usize) -> io::Result<Giving<'a>> {
        let before = self.opened.get();
        self.opened.set(before.saturating_add(1));
        let texts = if before < self.first.len() {
            self.first
        } else {
            self.later
        };
        let text = if file < texts.len() { texts[file] } else { "?" };
        if text == "?" {
            return Err(Error::from(ErrorKind::NotFound));
        }
        if text == "??" {
            return Err(Error::from(ErrorKind::OutOfMemory));
        }
        let fails = if text == "!" { 1 } else { NEVER };
        Ok(Giving::new(text.as_bytes(), fails))
    }
}

// How the engine ends over files, and what it has written.
fn judged(
    alloc: Global,
    word: &str,
    first: &[&str],
    later: &[&str],
    writer: &mut Keeping,
) -> Option<Result<(), FilesError>> {
    let layout = read_layout(alloc, TWO_SITES.as_bytes()).ok()?;
    let cut = Cut::parse(alloc, word.as_bytes()).ok()?;
    let files = Texts {
        first,
        later,
        opened: Cell::new(0),
    };
    let ended = judge_files(alloc, &layout, &cut, &files, &mut Sink::new(writer));
    Some(ended)
}

// Site 0 gives one of its two seats away.
const GIVES: &str = "\
{\"book\":\"{\\\"from\\\":0,\\\"rows\\\":[],\\\"v\\\":1}\",\"sessions\":[],\"site\":0,\"sites\":2}\n\
{\"call\":\"give a 1 1\",\"pass\":0,\"reply\":\"given\"}\n";

// It tells of that.
const TELLS: &str = "\
{\"book\":\"{\\\"from\\\":0,\\\"rows\\\":[],\\\"v\\\":1}\",\"sessions\":[],\"site\":0,\"sites\":2}\n\
{\"call\":\"give a 1 1\",\"pass\":0,\"reply\":\"given\"}\n\
{\"call\":\"send\",\"pass\":0,\"reply\":\"{\\\"from\\\":0,\\\"rows\\\":[{\\\"ann\\\":0,\\\"fin\\\":0,\\\"out\\\":[2,1],\\\"r\\\":0,\\\"s\\\":0,\\\"taken\\\":0}],\\\"v\\\":1}\"}\n";

// It is opened again.
const AGAIN: &str = "\
{\"book\":\"{\\\"from\\\":0,\\\"rows\\\":[{\\\"ann\\\":0,\\\"fin\\\":0,\\\"out\\\":[2,1],\\\"r\\\":0,\\\"s\\\":0,\\\"taken\\\":0}],\\\"v\\\":1}\",\"sessions\":[],\"site\":0,\"sites\":2}\n\
{\"call\":\"read ?7 1\",\"pass\":0,\"reply\":\"refused NoRecord\"}\n";

// Site 1 hears of it, and lets a reader in. The last line lacks its LF.
const HEARS: &str = "\
{\"book\":\"{\\\"from\\\":1,\\\"rows\\\":[],\\\"v\\\":1}\",\"sessions\":[],\"site\":1,\"sites\":2}\n\
{\"call\":\"take {\\\"from\\\":0,\\\"rows\\\":[{\\\"ann\\\":0,\\\"fin\\\":0,\\\"out\\\":[2,1],\\\"r\\\":0,\\\"s\\\":0,\\\"taken\\\":0}],\\\"v\\\":1}\",\"pass\":2,\"reply\":\"merged 1\"}\n\
{\"call\":\"read a 8\",\"pass\":0,\"reply\":\"admitted\"}";

// Both, in one text.
const BOTH: &str = "\
{\"book\":\"{\\\"from\\\":0,\\\"rows\\\":[],\\\"v\\\":1}\",\"sessions\":[],\"site\":0,\"sites\":2}\n\
{\"call\":\"give a 1 1\",\"pass\":0,\"reply\":\"given\"}\n\
{\"book\":\"{\\\"from\\\":1,\\\"rows\\\":[],\\\"v\\\":1}\",\"sessions\":[],\"site\":1,\"sites\":2}\n\
{\"call\":\"read a 8\",\"pass\":0,\"reply\":\"refused NoSeat 0\"}\n";

// An entry, and a run whose second line is none of a log.
const ENTRY: &str = "{\"call\":\"read a 8\",\"pass\":0,\"reply\":\"admitted\"}\n";

const TORN: &str = "\
{\"book\":\"{\\\"from\\\":1,\\\"rows\\\":[],\\\"v\\\":1}\",\"sessions\":[],\"site\":1,\"sites\":2}\n\
{\"call\":\"read a 8\",\"pass\":0,\"re";

const HEARD: &str = "\
site      cut  entries  runs
   0        1        1     1
   1        2        2     1
consistent
";

// Files, a word for a cut, how the engine ends, and what it has written.
type Story = (
    &'static [&'static str],
    &'static str,
    Result<(), FilesError>,
    &'static str,
);

static STORIES: [Story; 17] = [
    (&[GIVES, HEARS], "full", Ok(()), HEARD),
    (
        &[TELLS, HEARS],
        "full",
        Ok(()),
        "\
site      cut  entries  runs
   0        2        2     1
   1        2        2     1
consistent
",
    ),
    (&[HEARS, GIVES], "full", Ok(()), HEARD),
    (&["", HEARS, "", GIVES, ""], "full", Ok(()), HEARD),
    (
        &[BOTH, AGAIN],
        "full",
        Ok(()),
        "\
site      cut  entries  runs
   0        2        2     2
   1        1        1     1
consistent
",
    ),
    (
        &[AGAIN, BOTH],
        "full",
        Ok(()),
        "\
site      cut  entries  runs
   0        2        2     2
   1        1        1     1
bad joint site 0
",
    ),
    (
        &[HEARS],
        "full",
        Ok(()),
        "\
site      cut  entries  runs
   0        0        0     0
   1        2        2     1
exceeds site 1 at 0 record a origin 0
",
    ),
    (
        &[HEARS, GIVES],
        "0,2",
        Ok(()),
        "\
site      cut  entries  runs
   0        0        1     1
   1        2        2     1
exceeds site 1 at 0 record a origin 0
",
    ),
    (&[HEARS, GIVES], "2,2", Ok(()), "bad cut\n"),
    (
        &[],
        "full",
        Ok(()),
        "\
site      cut  entries  runs
   0        0        0     0
   1        0        0     0
consistent
",
    ),
    (
        &[GIVES, ENTRY],
        "full",
        Err(FilesError::Refused { file: 1, line: 1 }),
        "",
    ),
    (
        &[GIVES, HEARS, TORN, ENTRY],
        "full",
        Err(FilesError::Refused { file: 2, line: 2 }),
        "",
    ),
    (
        &["\n"],
        "full",
        Err(FilesError::Refused { file: 0, line: 1 }),
        "",
    ),
    (
        &[GIVES, "?"],
        "full",
        Err(FilesError::Unread { file: 1 }),
        "",
    ),
    (
        &["!", TORN],
        "full",
        Err(FilesError::Unread { file: 0 }),
        "",
    ),
    (
        &[TORN, "?"],
        "full",
        Err(FilesError::Refused { file: 0, line: 2 }),
        "",
    ),
    (&[GIVES, "??"], "full", Err(FilesError::Memory), ""),
];

// The first story that ends otherwise.
fn first_other(alloc: Global) -> Option<usize> {
    for (place, story) in STORIES.iter().enumerate() {
        let (texts, word, wanted, output) = *story;
        let mut writer = Keeping::new(alloc, NEVER);
        let ended = judged(alloc, word, texts, &[], &mut writer);
        if ended != Some(wanted) || writer.bytes() != output.as_bytes() {
            return Some(place);
        }
    }
    None
}

#[test]
fn files_are_judged_one_behind_another(rt: HostRuntime) {
    let other = first_other(rt.alloc());
    assert!(rt; other == None, "{other:?}");
}

#[test]
fn a_failed_write_is_told(rt: HostRuntime) {
    let texts = [GIVES, HEARS];
    let mut writer = Keeping::new(rt.alloc(), 0);
    let ended = judged(rt.alloc(), "full", &texts, &[], &mut writer);
    assert!(rt; ended == Some(Err(FilesError::Unwritten)));
}

// What site 1 hears of site 0, again, and what site 0 never told.
const HEARD_AGAIN: &str =
    "{\"call\":\"take {\\\"from\\\":0,\\\"rows\\\":[{\\\"ann\\\":0,\\\"fin\\\":0,\\\"out\\\":[2,1],\\\"r\\\":0,\\\"s\\\":0,\\\"taken\\\":0}],\\\"v\\\":1}\",\"pass\":0,\"reply\":\"merged 0\"}\n";

const NEVER_TOLD: &str =
    "{\"call\":\"take {\\\"from\\\":0,\\\"rows\\\":[{\\\"ann\\\":0,\\\"fin\\\":0,\\\"out\\\":[2,2],\\\"r\\\":0,\\\"s\\\":0,\\\"taken\\\":0}],\\\"v\\\":1}\",\"pass\":0,\"reply\":\"merged 1\"}\n";

// Site 1 hears so many times of what site 0 gave, and then this.
fn hears_often(alloc: Global, times: usize, last: &str) -> Result<String, AllocError> {
    let mut text = String::from_str(alloc, HEARS)?;
    text.push_str("\n")?;
    for _ in 0..times {
        text.push_str(HEARD_AGAIN)?;
    }
    text.push_str(last)?;
    Ok(text)
}

// Site 0 is opened again, and hears of the reader that site 1 let in.
const HEARS_BACK: &str = "\
{\"book\":\"{\\\"from\\\":0,\\\"rows\\\":[{\\\"ann\\\":0,\\\"fin\\\":0,\\\"out\\\":[2,1],\\\"r\\\":0,\\\"s\\\":0,\\\"taken\\\":0}],\\\"v\\\":1}\",\"sessions\":[],\"site\":0,\"sites\":2}\n\
{\"call\":\"take {\\\"from\\\":1,\\\"rows\\\":[{\\\"ann\\\":0,\\\"fin\\\":0,\\\"out\\\":[0,0],\\\"r\\\":0,\\\"s\\\":1,\\\"taken\\\":1}],\\\"v\\\":1}\",\"pass\":0,\"reply\":\"merged 1\"}\n";

const HEARD_BACK: &str =
    "{\"call\":\"take {\\\"from\\\":1,\\\"rows\\\":[{\\\"ann\\\":0,\\\"fin\\\":0,\\\"out\\\":[0,0],\\\"r\\\":0,\\\"s\\\":1,\\\"taken\\\":1}],\\\"v\\\":1}\",\"pass\":0,\"reply\":\"merged 0\"}\n";

// More merges than are kept: so many behind the first one and a reader, and what is heard last; what site 0 did at the first
// and at the second reading; how the engine ends, and the last line that it writes.
type Long = (
    usize,
    &'static str,
    &'static str,
    &'static str,
    Result<(), FilesError>,
    &'static str,
);

static LONG: [Long; 6] = [
    (200, "", GIVES, GIVES, Ok(()), "consistent\n"),
    (
        200,
        NEVER_TOLD,
        GIVES,
        GIVES,
        Ok(()),
        "exceeds site 1 at 202 record a origin 0\n",
    ),
    (
        62,
        NEVER_TOLD,
        GIVES,
        "?",
        Ok(()),
        "exceeds site 1 at 64 record a origin 0\n",
    ),
    (
        200,
        NEVER_TOLD,
        "",
        "?",
        Ok(()),
        "exceeds site 1 at 0 record a origin 0\n",
    ),
    (200, "", GIVES, "", Err(FilesError::Changed), ""),
    (200, "", GIVES, "?", Err(FilesError::Unread { file: 1 }), ""),
];

// Whether the engine ends so.
fn ends_so(alloc: Global, long: &Long) -> Option<bool> {
    let (times, last, first, later, wanted, line) = *long;
    let heard = hears_often(alloc, times, last).ok()?;
    let mut writer = Keeping::new(alloc, NEVER);
    let ended = judged(
        alloc,
        "full",
        &[heard.as_str(), first],
        &[heard.as_str(), later],
        &mut writer,
    );
    let is_written = writer.bytes().is_empty() == line.is_empty();
    Some(ended == Some(wanted) && is_written && writer.bytes().ends_with(line.as_bytes()))
}

#[test]
fn many_merges_before_what_they_tell_of(rt: HostRuntime) {
    for (place, long) in LONG.iter().enumerate() {
        assert!(rt; ends_so(rt.alloc(), long) == Some(true), "{place}");
    }
}

// Site 0 hears so many times of the reader.
fn hears_back(alloc: Global, times: usize) -> Result<String, AllocError> {
    let mut text = String::from_str(alloc, HEARS_BACK)?;
    for _ in 0..times {
        text.push_str(HEARD_BACK)?;
    }
    Ok(text)
}

// Whether three files that can't be opened a second time are judged up to a cut, and found consistent: what site 0 gives, and
// then 201 merges at each site, those of site 1 first or last.
fn is_read_once(alloc: Global, word: &str, first: bool) -> Option<bool> {
    let here = hears_often(alloc, 200, "").ok()?;
    let back = hears_back(alloc, 200).ok()?;
    let mut files = [GIVES, here.as_str(), back.as_str()];
    if !first {
        files.swap(1, 2);
    }
    let mut writer = Keeping::new(alloc, NEVER);
    let ended = judged(alloc, word, &files, &["?", "?", "?"], &mut writer);
    Some(ended == Some(Ok(())) && writer.bytes().ends_with(b"\nconsistent\n"))
}

// What each merge tells of stands before it: then none is kept, however many there are, and no file is read again. In the second
// case site 0 goes on behind the cut, so that what it had done there is compared with.
#[test]
fn many_merges_behind_what_they_tell_of(rt: HostRuntime) {
    assert!(rt; is_read_once(rt.alloc(), "full", true) == Some(true));
    assert!(rt; is_read_once(rt.alloc(), "1,202", false) == Some(true));
}
