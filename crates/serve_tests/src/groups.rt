//! What lines are answered at sites whose deltas are marked. The digests here are those of Python's hashlib.
use crate::fakes::Counting;
use durable_keeper::MemoryKeeper;
use exit_status::Status;
use layout_file::read_layout;
use line_conversation::StreamConversation;
use live_site::{CallLog, LogFault, NoLog, NoPlace};
use serve_engine::{Marking, line_limit, serve_engine};
use std::alloc::Global;
use test_streams::texts::{THREE_SITES, TWO_SITES, WRITERS_FIRST};
use test_streams::{Giving, Keeping, NEVER};
use text_input::{Sink, Source};

/// A layout, the group, how deltas travel, a site, its lines, how the service ends, and what it is told.
pub type Talk = (
    &'static str,
    Option<&'static str>,
    Marking,
    u16,
    &'static [u8],
    Status,
    &'static str,
);

const PAYROLL: Option<&str> = Some("payroll");

// Three sites with the records of `TWO_SITES`.
const GROWN: &str = "sites = 3\n[[record]]\nname = \"a\"\nseats = 2\nhome = 0\nproblem = 1\n";

// Two records, in either order, and the first alone with other seats, home or problem.
const A_THEN_B: &str =
    "sites = 2\n[[record]]\nname = \"a\"\nseats = 2\nhome = 0\nproblem = 1\n[[record]]\nname = \"b\"\nseats = 2\nhome = 0\nproblem = 1\n";

const B_THEN_A: &str =
    "sites = 2\n[[record]]\nname = \"b\"\nseats = 2\nhome = 0\nproblem = 1\n[[record]]\nname = \"a\"\nseats = 2\nhome = 0\nproblem = 1\n";

const THREE_SEATS: &str = "sites = 2\n[[record]]\nname = \"a\"\nseats = 3\nhome = 0\nproblem = 1\n";

const OTHER_HOME: &str = "sites = 2\n[[record]]\nname = \"a\"\nseats = 2\nhome = 1\nproblem = 1\n";

// What sites send, and what other sites say to it.
static SENT: [Talk; 13] = [
    (
        TWO_SITES,
        PAYROLL,
        Marking::Marked,
        0,
        b"give a 1 1\nsend\nshow a\n",
        Status::Done,
        "given\npayroll d6a41a2b6edb4b8d dd43195b {\"from\":0,\"rows\":[{\"ann\":0,\"fin\":0,\"out\":[2,1],\"r\":0,\"s\":0,\"taken\":0}],\"v\":1}\nrights 1 inside 0 unfinished 0\n",
    ),
    (
        TWO_SITES,
        PAYROLL,
        Marking::Marked,
        1,
        b"read a 7\ntake payroll d6a41a2b6edb4b8d dd43195b {\"from\":0,\"rows\":[{\"ann\":0,\"fin\":0,\"out\":[2,1],\"r\":0,\"s\":0,\"taken\":0}],\"v\":1}\nread a 7\nsend\n",
        Status::Done,
        "refused NoSeat 0\nmerged 1\nadmitted\n\
         payroll d6a41a2b6edb4b8d f5a110c0 {\"from\":1,\"rows\":[{\"ann\":0,\"fin\":0,\"out\":[2,1],\"r\":0,\"s\":0,\"taken\":0},\
         {\"ann\":0,\"fin\":0,\"out\":[0,0],\"r\":0,\"s\":1,\"taken\":1}],\"v\":1}\n",
    ),
    // sites in no group
    (
        TWO_SITES,
        None,
        Marking::Marked,
        0,
        b"give a 1 1\nsend\n",
        Status::Done,
        "given\n- d6a41a2b6edb4b8d dd43195b {\"from\":0,\"rows\":[{\"ann\":0,\"fin\":0,\"out\":[2,1],\"r\":0,\"s\":0,\"taken\":0}],\"v\":1}\n",
    ),
    (
        TWO_SITES,
        None,
        Marking::Marked,
        1,
        b"take - d6a41a2b6edb4b8d dd43195b {\"from\":0,\"rows\":[{\"ann\":0,\"fin\":0,\"out\":[2,1],\"r\":0,\"s\":0,\"taken\":0}],\"v\":1}\n\
          take payroll d6a41a2b6edb4b8d dd43195b {\"from\":0,\"rows\":[{\"ann\":0,\"fin\":0,\"out\":[2,1],\"r\":0,\"s\":0,\"taken\":0}],\"v\":1}\n",
        Status::Done,
        "merged 1\nrefused WrongGroup\n",
    ),
    // a layout that has grown takes the deltas of the smaller one, and this one refuses those with more sites
    (
        GROWN,
        PAYROLL,
        Marking::Marked,
        1,
        b"take payroll d6a41a2b6edb4b8d dd43195b {\"from\":0,\"rows\":[{\"ann\":0,\"fin\":0,\"out\":[2,1],\"r\":0,\"s\":0,\"taken\":0}],\"v\":1}\nread a 7\n",
        Status::Done,
        "merged 1\nadmitted\n",
    ),
    (
        GROWN,
        PAYROLL,
        Marking::Marked,
        0,
        b"give a 2 1\nsend\n",
        Status::Done,
        "given\npayroll d6a41a2b6edb4b8d edcd64e1 {\"from\":0,\"rows\":[{\"ann\":0,\"fin\":0,\"out\":[2,0,1],\"r\":0,\"s\":0,\"taken\":0}],\"v\":1}\n",
    ),
    (
        TWO_SITES,
        PAYROLL,
        Marking::Marked,
        1,
        b"take payroll d6a41a2b6edb4b8d edcd64e1 {\"from\":0,\"rows\":[{\"ann\":0,\"fin\":0,\"out\":[2,0,1],\"r\":0,\"s\":0,\"taken\":0}],\"v\":1}\nread a 7\n",
        Status::Done,
        "refused OtherLayout 0\nrefused NoSeat 0\n",
    ),
    // the same records in another order have another digest
    (
        A_THEN_B,
        None,
        Marking::Marked,
        0,
        b"send\n",
        Status::Done,
        "- 4267e5eda6faad4d 49d0174c {\"from\":0,\"rows\":[],\"v\":1}\n",
    ),
    (
        B_THEN_A,
        None,
        Marking::Marked,
        1,
        b"take - 4267e5eda6faad4d 49d0174c {\"from\":0,\"rows\":[],\"v\":1}\nsend\n",
        Status::Done,
        "refused OtherRecords\n- 983cd8748a158a01 974d99c4 {\"from\":1,\"rows\":[],\"v\":1}\n",
    ),
    // a later generation of a group: its numbers, and texts of before and of a move
    (
        TWO_SITES,
        Some("east.2"),
        Marking::Marked,
        0,
        b"read a 7\nfence a 7\nsend\n",
        Status::Done,
        "admitted\nfence 35184372088832\neast.2 d6a41a2b6edb4b8d 8fbd28c0 {\"from\":0,\"rows\":[{\"ann\":0,\"fin\":0,\"out\":[2,0],\"r\":0,\"s\":0,\"taken\":1}],\"v\":1}\n",
    ),
    (
        TWO_SITES,
        Some("east.2"),
        Marking::Marked,
        1,
        b"take east d6a41a2b6edb4b8d 49d0174c {\"from\":0,\"rows\":[],\"v\":1}\n\
          take east.2:moved d6a41a2b6edb4b8d 49d0174c {\"from\":0,\"rows\":[],\"v\":1}\n\
          take east.2 d6a41a2b6edb4b8d 49d0174c {\"from\":0,\"rows\":[],\"v\":1}\n",
        Status::Done,
        "refused WrongGroup\nrefused WrongGroup\nmerged 0\n",
    ),
    (
        TWO_SITES,
        Some("east.1048575"),
        Marking::Marked,
        0,
        b"read a 7\nfence a 7\n",
        Status::Done,
        "admitted\nfence 18446726481523507200\n",
    ),
    (
        TWO_SITES,
        Some("east.02"),
        Marking::Marked,
        0,
        b"read a 7\nfence a 7\n",
        Status::Done,
        "admitted\nfence 17592186044416\n",
    ),
];

// What is refused, in which order, and what is not.
static TAKEN: [Talk; 10] = [
    // no mark at all, and parts of one
    (
        TWO_SITES,
        PAYROLL,
        Marking::Marked,
        1,
        b"take {\"from\":0,\"rows\":[{\"ann\":0,\"fin\":0,\"out\":[2,1],\"r\":0,\"s\":0,\"taken\":0}],\"v\":1}\n\
          take payroll {\"from\":0,\"rows\":[{\"ann\":0,\"fin\":0,\"out\":[2,1],\"r\":0,\"s\":0,\"taken\":0}],\"v\":1}\n\
          take d6a41a2b6edb4b8d dd43195b {\"from\":0,\"rows\":[{\"ann\":0,\"fin\":0,\"out\":[2,1],\"r\":0,\"s\":0,\"taken\":0}],\"v\":1}\n\
          take  d6a41a2b6edb4b8d dd43195b {\"from\":0,\"rows\":[{\"ann\":0,\"fin\":0,\"out\":[2,1],\"r\":0,\"s\":0,\"taken\":0}],\"v\":1}\n\
          take payroll d6a41a2b6edb4b8d  dd43195b {\"from\":0,\"rows\":[{\"ann\":0,\"fin\":0,\"out\":[2,1],\"r\":0,\"s\":0,\"taken\":0}],\"v\":1}\n\
          take payroll dd43195b d6a41a2b6edb4b8d {\"from\":0,\"rows\":[{\"ann\":0,\"fin\":0,\"out\":[2,1],\"r\":0,\"s\":0,\"taken\":0}],\"v\":1}\n\
          read a 7\n",
        Status::Done,
        "refused NoMark\nrefused NoMark\nrefused NoMark\nrefused NoMark\nrefused NoMark\nrefused NoMark\nrefused NoSeat 0\n",
    ),
    // a mark that is wrong in each way at once, in two, and in one; a name of more than 32 bytes
    (
        TWO_SITES,
        PAYROLL,
        Marking::Marked,
        1,
        b"take stock 0123456789abcdef 01234567 x\n\
          take stock d6a41a2b6edb4b8d 01234567 x\n\
          take stock d6a41a2b6edb4b8d dd43195b {\"from\":0,\"rows\":[{\"ann\":0,\"fin\":0,\"out\":[2,1],\"r\":0,\"s\":0,\"taken\":0}],\"v\":1}\n\
          take a-name-of-many-more-bytes-than-a-group-may-have d6a41a2b6edb4b8d dd43195b {\"from\":0,\"rows\":[{\"ann\":0,\"fin\":0,\"out\":[2,1],\"r\":0,\"s\":0,\"taken\":0}],\"v\":1}\n\
          take payroll2 d6a41a2b6edb4b8d dd43195b x\ntake payrol d6a41a2b6edb4b8d dd43195b x\ntake - d6a41a2b6edb4b8d dd43195b x\n\
          take payroll 0123456789abcdef 01234567 x\n\
          take payroll 0123456789abcdef dd43195b {\"from\":0,\"rows\":[{\"ann\":0,\"fin\":0,\"out\":[2,1],\"r\":0,\"s\":0,\"taken\":0}],\"v\":1}\n\
          take payroll d6a41a2b6edb4b8d 01234567 x\n\
          read a 7\n",
        Status::Done,
        "refused WrongGroup\nrefused WrongGroup\nrefused WrongGroup\nrefused WrongGroup\nrefused WrongGroup\n\
         refused WrongGroup\nrefused WrongGroup\nrefused OtherRecords\nrefused OtherRecords\nrefused Damaged\n\
         refused NoSeat 0\n",
    ),
    // texts that were changed on their way, and would be other deltas
    (
        TWO_SITES,
        PAYROLL,
        Marking::Marked,
        1,
        b"take payroll d6a41a2b6edb4b8d dd43195b {\"from\":0,\"rows\":[{\"ann\":0,\"fin\":0,\"out\":[2,2],\"r\":0,\"s\":0,\"taken\":0}],\"v\":1}\n\
          take payroll d6a41a2b6edb4b8d dd43195b {\"from\":0,\"rows\":[],\"v\":1}\n\
          take payroll d6a41a2b6edb4b8d dd43195b \n\
          take payroll d6a41a2b6edb4b8d dd43195b  {\"from\":0,\"rows\":[{\"ann\":0,\"fin\":0,\"out\":[2,1],\"r\":0,\"s\":0,\"taken\":0}],\"v\":1}\n\
          take payroll d6a41a2b6edb4b8d dd43195b \xff\nread a 7\n",
        Status::Done,
        "refused Damaged\nrefused Damaged\nrefused Damaged\nrefused Damaged\nrefused Damaged\nrefused NoSeat 0\n",
    ),
    // behind the site's own mark a text is judged as ever
    (
        TWO_SITES,
        PAYROLL,
        Marking::Marked,
        1,
        b"take payroll d6a41a2b6edb4b8d 2d711642 x\ntake payroll d6a41a2b6edb4b8d e3b0c442 \ntake payroll d6a41a2b6edb4b8d 19ad4f10  {}\ntake payroll d6a41a2b6edb4b8d a8100ae6 \xff\n\
          take payroll d6a41a2b6edb4b8d 2d8706e2 {\"from\":0,\"rows\":[{\"ann\":1,\"fin\":0,\"out\":[4,3],\"r\":0,\"s\":0,\"taken\":2}],\"v\":1}\nread a 7\n",
        Status::Done,
        "refused NotJson\nrefused NotJson\nrefused NotCanonical\nrefused BadWord 2\nrefused TooManySeats 0\nrefused NoSeat 0\n",
    ),
    // lines that don't begin with `take` and a blank
    (
        TWO_SITES,
        PAYROLL,
        Marking::Marked,
        0,
        b"take\ntake\xff\n take payroll x\ntakes a\nread a 7\n",
        Status::Done,
        "refused BadWord 2\nrefused BadWord 1\nrefused BadWord 1\nrefused BadWord 1\nadmitted\n",
    ),
    // a site that serves no more still tells the faults of marks apart
    (
        TWO_SITES,
        PAYROLL,
        Marking::Marked,
        0,
        b"take payroll d6a41a2b6edb4b8d 4b60a80c {\"from\":1,\"rows\":[{\"ann\":0,\"fin\":0,\"out\":[2,1],\"r\":0,\"s\":0,\"taken\":0}],\"v\":1}\n\
          take {\"from\":1,\"rows\":[],\"v\":1}\ntake stock d6a41a2b6edb4b8d 974d99c4 {\"from\":1,\"rows\":[],\"v\":1}\n\
          take payroll 0123456789abcdef 974d99c4 {\"from\":1,\"rows\":[],\"v\":1}\ntake payroll d6a41a2b6edb4b8d 49d0174c {\"from\":1,\"rows\":[],\"v\":1}\n\
          take payroll d6a41a2b6edb4b8d 974d99c4 {\"from\":1,\"rows\":[],\"v\":1}\nsend\ntake payroll d6a41a2b6edb4b8d 2d711642 x\ntake\n",
        Status::Fault,
        "refused OwnRowAhead 0\nrefused NoMark\nrefused WrongGroup\nrefused OtherRecords\nrefused Damaged\nrefused Frozen\nrefused Frozen\nrefused NotJson\nrefused BadWord 2\n",
    ),
    // other seats, another home, another problem
    (
        THREE_SEATS,
        None,
        Marking::Marked,
        1,
        b"take - d6a41a2b6edb4b8d 49d0174c {\"from\":0,\"rows\":[],\"v\":1}\n",
        Status::Done,
        "refused OtherRecords\n",
    ),
    (
        OTHER_HOME,
        None,
        Marking::Marked,
        1,
        b"take - d6a41a2b6edb4b8d 49d0174c {\"from\":0,\"rows\":[],\"v\":1}\n",
        Status::Done,
        "refused OtherRecords\n",
    ),
    (
        WRITERS_FIRST,
        None,
        Marking::Marked,
        1,
        b"take - d6a41a2b6edb4b8d 49d0174c {\"from\":0,\"rows\":[],\"v\":1}\n",
        Status::Done,
        "refused OtherRecords\n",
    ),
    (
        THREE_SITES,
        None,
        Marking::Marked,
        1,
        b"take - d6a41a2b6edb4b8d 49d0174c {\"from\":0,\"rows\":[],\"v\":1}\n",
        Status::Done,
        "refused OtherRecords\n",
    ),
];

// Deltas without marks, whatever the group.
static PLAIN: [Talk; 3] = [
    (
        TWO_SITES,
        PAYROLL,
        Marking::Plain,
        0,
        b"give a 1 1\nsend\n",
        Status::Done,
        "given\n{\"from\":0,\"rows\":[{\"ann\":0,\"fin\":0,\"out\":[2,1],\"r\":0,\"s\":0,\"taken\":0}],\"v\":1}\n",
    ),
    (
        TWO_SITES,
        PAYROLL,
        Marking::Plain,
        1,
        b"take payroll d6a41a2b6edb4b8d dd43195b {\"from\":0,\"rows\":[{\"ann\":0,\"fin\":0,\"out\":[2,1],\"r\":0,\"s\":0,\"taken\":0}],\"v\":1}\n\
          take {\"from\":0,\"rows\":[{\"ann\":0,\"fin\":0,\"out\":[2,1],\"r\":0,\"s\":0,\"taken\":0}],\"v\":1}\nread a 7\n",
        Status::Done,
        "refused NotJson\nmerged 1\nadmitted\n",
    ),
    (
        TWO_SITES,
        None,
        Marking::Plain,
        0,
        b"send\n",
        Status::Done,
        "{\"from\":0,\"rows\":[],\"v\":1}\n",
    ),
];

/// Whether the lines are answered so, with this log.
pub fn is_told<L: CallLog>(alloc: Global, talk: &Talk, log: &mut L) -> Option<bool> {
    let (toml, group, marking, site, lines, status, told) = *talk;
    let layout = read_layout(alloc, toml.as_bytes()).ok()?;
    let keeper = MemoryKeeper::new(alloc, &layout, site).ok()?;
    let mut reader = Giving::new(lines, NEVER);
    let mut writer = Keeping::new(alloc, NEVER);
    let mut talk = StreamConversation::new(
        alloc,
        Source::new(&mut reader),
        Sink::new(&mut writer),
        line_limit(group, marking),
    )
    .ok()?;
    let (ended, _keeper) = serve_engine(
        alloc,
        keeper,
        layout,
        site,
        group,
        marking,
        &mut talk,
        log,
        &NoPlace {},
    );
    drop(talk);
    Some(ended == status && writer.bytes() == told.as_bytes())
}

// The first conversation that does not come to this.
fn first_other(alloc: Global, talks: &[Talk]) -> Option<usize> {
    for (place, talk) in talks.iter().enumerate() {
        if is_told(alloc, talk, &mut NoLog {}) != Some(true) {
            return Some(place);
        }
    }
    None
}

#[test]
fn a_delta_is_sent_behind_its_mark(rt: HostRuntime) {
    let other = first_other(rt.alloc(), &SENT);
    assert!(rt; other == None, "{other:?}");
}

#[test]
fn a_text_is_refused_by_the_first_fault_of_its_mark(rt: HostRuntime) {
    let other = first_other(rt.alloc(), &TAKEN);
    assert!(rt; other == None, "{other:?}");
}

#[test]
fn plain_deltas_have_no_mark(rt: HostRuntime) {
    let other = first_other(rt.alloc(), &PLAIN);
    assert!(rt; other == None, "{other:?}");
}

// Lines that are refused for their mark, one that is not, and how many entries the log has then.
fn entries(alloc: Global) -> Option<u64> {
    let mut log = Counting {
        entries: 0,
        left: 9,
        fault: LogFault::Failed,
    };
    let talk: Talk = (
        TWO_SITES,
        PAYROLL,
        Marking::Marked,
        1,
        b"take x\ntake stock d6a41a2b6edb4b8d 2d711642 x\ntake payroll 0123456789abcdef 2d711642 x\ntake payroll d6a41a2b6edb4b8d 01234567 x\nread a 7\n",
        Status::Done,
        "refused NoMark\nrefused WrongGroup\nrefused OtherRecords\nrefused Damaged\nrefused NoSeat 0\n",
    );
    if is_told(alloc, &talk, &mut log) != Some(true) {
        return None;
    }
    Some(log.entries)
}

#[test]
fn a_text_that_is_refused_for_its_mark_is_not_logged(rt: HostRuntime) {
    assert!(rt; entries(rt.alloc()) == Some(1));
}
