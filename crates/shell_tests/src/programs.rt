//! The whole program on a fake runtime: what it reads, what it writes and where, and its exit status.
use crate::runtime::{Fake, Setting, Text};
use program_shell::run;
use std::alloc::Global;
use std::io::ErrorKind;
use std::sync::Wait;
use std::thread::Threads;
use test_streams::NEVER;
use test_streams::texts::{GAVE, THIRD, THREE_SITES};

// The second record has no seats, and nor has the third.
const NO_SEATS: &str = "sites = 2\nrecord = [\n{name = \"a\", seats = 2, home = 0, problem = 1},\n\
     {name = \"b\", seats = 0, home = 0, problem = 1},\n{name = \"c\", seats = 0, home = 0, problem = 1}]\n";

// The third record has the first one's name.
const TWO_NAMES: &str = "sites = 2\nrecord = [\n{name = \"a\", seats = 2, home = 0, problem = 1},\n\
     {name = \"b\", seats = 2, home = 0, problem = 1},\n{name = \"a\", seats = 2, home = 0, problem = 1}]\n";

const FIVE_SEATS: &str = "sites = 2\n[[record]]\nname = \"a\"\nseats = 5\nhome = 0\nproblem = 1\n";

// The files that there are: the second is as long as a layout file may be, the third a byte longer; the next three hold no
// layout; a read of the last two fails.
static FILES: [(&str, Text); 9] = [
    (
        "five.toml",
        Text {
            text: FIVE_SEATS,
            fillers: 0,
            fails: NEVER,
        },
    ),
    (
        "long.toml",
        Text {
            text: THREE_SITES,
            fillers: 1_048_513,
            fails: NEVER,
        },
    ),
    (
        "longer.toml",
        Text {
            text: THREE_SITES,
            fillers: 1_048_514,
            fails: NEVER,
        },
    ),
    (
        "seatless.toml",
        Text {
            text: NO_SEATS,
            fillers: 0,
            fails: NEVER,
        },
    ),
    (
        "names.toml",
        Text {
            text: TWO_NAMES,
            fillers: 0,
            fails: NEVER,
        },
    ),
    (
        "empty.toml",
        Text {
            text: "sites = 2\nrecord = []\n",
            fillers: 0,
            fails: NEVER,
        },
    ),
    (
        "three.toml",
        Text {
            text: THREE_SITES,
            fillers: 0,
            fails: NEVER,
        },
    ),
    (
        "broken.toml",
        Text {
            text: THREE_SITES,
            fillers: 0,
            fails: 0,
        },
    ),
    (
        "torn.toml",
        Text {
            text: THREE_SITES,
            fillers: 0,
            fails: 1,
        },
    ),
];

/// What the program is to do: its exit status, standard output, standard error, and the files that it opens.
pub type Run = (u8, &'static str, &'static str, &'static str);

/// The read of the input and the writes of the two streams that are answered with a fault of a kind.
#[derive(Clone, Copy, Drop)]
pub struct Faults {
    pub read: usize,
    pub output: usize,
    pub errors: usize,
    pub kind: ErrorKind,
}

/// Whether the program does so.
pub fn does<T: Threads + Wait + Sync>(
    threads: &T,
    alloc: Global,
    arguments: &'static [&'static [u8]],
    input: &'static str,
    faults: Faults,
    wanted: Run,
) -> bool {
    let setting = Setting {
        arguments,
        input: Text {
            text: input,
            fillers: 0,
            fails: faults.read,
        },
        files: &FILES,
        fault: faults.kind,
    };
    let fake = Fake::new(alloc, setting, faults.output, faults.errors);
    let status = run(&fake, threads);
    let (output, errors, opened) = fake.into_texts();
    status == wanted.0
        && output.bytes() == wanted.1.as_bytes()
        && errors.bytes() == wanted.2.as_bytes()
        && opened.bytes() == wanted.3.as_bytes()
}

/// The same where no call fails but those of the files.
pub fn answers<T: Threads + Wait + Sync>(
    threads: &T,
    alloc: Global,
    arguments: &'static [&'static [u8]],
    input: &'static str,
    wanted: Run,
) -> bool {
    let faults = Faults {
        read: NEVER,
        output: NEVER,
        errors: NEVER,
        kind: ErrorKind::Other,
    };
    does(threads, alloc, arguments, input, faults, wanted)
}

/// Arguments that are wrong, and what goes to standard error.
pub type Wrong = (&'static [&'static [u8]], &'static str);

/// The first of these that the program answers otherwise; it reads nothing.
pub fn wrongly_refused<T: Threads + Wait + Sync>(
    threads: &T,
    alloc: Global,
    rows: &[Wrong],
) -> Option<usize> {
    let mut at = 0usize;
    for (arguments, errors) in rows {
        if !answers(threads, alloc, arguments, GAVE, (2, "", errors, "")) {
            return Some(at);
        }
        at = at.saturating_add(1);
    }
    None
}

/// Arguments and input, and what the program does.
pub type Carried = (&'static [&'static [u8]], &'static str, Run);

/// The first of these after which the program does something else.
pub fn wrongly_carried<T: Threads + Wait + Sync>(
    threads: &T,
    alloc: Global,
    rows: &[Carried],
) -> Option<usize> {
    let mut at = 0usize;
    for (arguments, input, wanted) in rows {
        if !answers(threads, alloc, arguments, input, *wanted) {
            return Some(at);
        }
        at = at.saturating_add(1);
    }
    None
}

/// The call of standard input, of standard output and of standard error that is answered with a fault, the fault's
/// kind, arguments, and what the program does.
pub type Faulty = (
    usize,
    usize,
    usize,
    ErrorKind,
    &'static [&'static [u8]],
    Run,
);

fn does_so<T: Threads + Wait + Sync>(
    threads: &T,
    alloc: Global,
    input: &'static str,
    row: Faulty,
) -> bool {
    let faults = Faults {
        read: row.0,
        output: row.1,
        errors: row.2,
        kind: row.3,
    };
    does(threads, alloc, row.4, input, faults, row.5)
}

/// The first of these faults after which the program does something else.
pub fn wrongly_faulted<T: Threads + Wait + Sync>(
    threads: &T,
    alloc: Global,
    input: &'static str,
    rows: &[Faulty],
) -> Option<usize> {
    let mut at = 0usize;
    for row in rows {
        if !does_so(threads, alloc, input, *row) {
            return Some(at);
        }
        at = at.saturating_add(1);
    }
    None
}

// Arguments that are wrong, and what goes to standard error.
static WRONG: [Wrong; 18] = [
    (
        &[b"seat_cli", b"--layout", b"three.toml"],
        "error: unexpected argument '--layout' found\n\nUsage: seat_cli [COMMAND]\n\nFor more information, try '--help'.\n",
    ),
    (
        &[b"seat_cli", b"join", b"--layout"],
        "error: a value is required for '--layout <FILE>' but none was supplied\n\nFor more information, try '--help'.\n",
    ),
    (
        &[b"seat_cli", b"join", b"--layout=a", b"--layout=b"],
        "error: the argument '--layout <FILE>' cannot be used multiple times\n\nUsage: seat_cli join [--layout FILE]\n\nFor more information, try '--help'.\n",
    ),
    (
        &[b"seat_cli", b"join", b"three.toml"],
        "error: unexpected argument 'three.toml' found\n\nUsage: seat_cli join [--layout FILE]\n\nFor more information, try '--help'.\n",
    ),
    (
        &[b"seat_cli", b"join", b"--sites", b"3"],
        "error: unexpected argument '--sites' found\n\nUsage: seat_cli join [--layout FILE]\n\nFor more information, try '--help'.\n",
    ),
    (
        &[b"seat_cli", b"walk"],
        "error: unrecognized subcommand 'walk'\n\n  tip: a similar subcommand exists: 'ask'\n\nUsage: seat_cli [COMMAND]\n\nFor more information, try '--help'.\n",
    ),
    (
        &[b"seat_cli", b"help"],
        "error: unrecognized subcommand 'help'\n\nUsage: seat_cli [COMMAND]\n\nFor more information, try '--help'.\n",
    ),
    (
        &[b"seat_cli", b"--"],
        "error: 'seat_cli' requires a subcommand but one was not provided\n  [subcommands: join, play, site, serve, ask, regroup, rebuild, judge, run]\n\n\
         Usage: seat_cli [COMMAND]\n\nFor more information, try '--help'.\n",
    ),
    (
        &[b"seat_cli", b"play", b"--from", b"x"],
        "error: invalid value 'x' for '--from <M>': invalid digit found in string\n\nFor more information, try '--help'.\n",
    ),
    (
        &[b"seat_cli", b"play", b"--from", b"65536"],
        "error: invalid value '65536' for '--from <M>': 65536 is not in 0..=65535\n\nFor more information, try '--help'.\n",
    ),
    (
        &[b"seat_cli", b"play", b"--from"],
        "error: a value is required for '--from <M>' but none was supplied\n\nFor more information, try '--help'.\n",
    ),
    (
        &[b"seat_cli", b"play", b"--tables=1"],
        "error: unexpected value '1' for '--tables' found; no more were expected\n\nUsage: seat_cli play [--tables] [--from M] [--layout FILE]\n\nFor more information, try '--help'.\n",
    ),
    (
        &[b"seat_cli", b"play", b"--from", b"1", b"--from", b"2"],
        "error: the argument '--from <M>' cannot be used multiple times\n\nUsage: seat_cli play [--tables] [--from M] [--layout FILE]\n\nFor more information, try '--help'.\n",
    ),
    (
        &[b"seat_cli", b"judge", b"--cut"],
        "error: a value is required for '--cut <C>' but none was supplied\n\nFor more information, try '--help'.\n",
    ),
    (
        &[b"seat_cli", b"judge", b"--cut=1", b"--cut=2"],
        "error: the argument '--cut <C>' cannot be used multiple times\n\nUsage: seat_cli judge [--cut C] [--layout FILE] [--logs FILE ..]\n\nFor more information, try '--help'.\n",
    ),
    // a word that names no cut is refused before the layout is looked for
    (
        &[b"seat_cli", b"judge", b"--cut", b"1,x"],
        "cut refused BadWord\n",
    ),
    (
        &[b"seat_cli", b"judge", b"--layout=no.toml", b"--cut="],
        "cut refused BadWord\n",
    ),
    (
        &[b"seat_cli", b"join", b"--layout", b"\xff"],
        "error: an argument is not UTF-8\n",
    ),
];

#[test]
fn wrong_arguments_are_told_and_nothing_is_read(rt: HostRuntime) {
    assert_eq!(rt; wrongly_refused(&rt, rt.alloc(), &WRONG), None);
}

// Arguments and input, and what the program does.
static RUNS: [Carried; 16] = [
    (&[], GAVE, (0, GAVE, "", "")),
    (&[b"seat_cli"], GAVE, (0, GAVE, "", "")),
    (&[b"seat_cli", b"join"], GAVE, (0, GAVE, "", "")),
    (
        &[b"seat_cli", b"join"],
        THIRD,
        (4, "line 1 refused OtherLayout 0\n", "", ""),
    ),
    (
        &[b"seat_cli", b"join", b"--layout", b"three.toml"],
        THIRD,
        (0, THIRD, "", "three.toml\n"),
    ),
    (
        &[b"seat_cli", b"join", b"--layout=five.toml"],
        GAVE,
        (4, "line 1 refused BadRow 0\n", "", "five.toml\n"),
    ),
    (
        &[b"seat_cli", b"join", b"--layout=long.toml"],
        THIRD,
        (0, THIRD, "", "long.toml\n"),
    ),
    (
        &[b"seat_cli", b"join", b"--layout=longer.toml"],
        THIRD,
        (3, "", "layout refused TooLong\n", "longer.toml\n"),
    ),
    (
        &[b"seat_cli", b"join", b"--layout=no.toml"],
        THIRD,
        (3, "", "layout refused NotRead\n", "no.toml\n"),
    ),
    (
        &[b"seat_cli", b"join", b"--layout=broken.toml"],
        THIRD,
        (3, "", "layout refused NotRead\n", "broken.toml\n"),
    ),
    (
        &[b"seat_cli", b"join", b"--layout=torn.toml"],
        THIRD,
        (3, "", "layout refused NotRead\n", "torn.toml\n"),
    ),
    (
        &[b"seat_cli", b"join", b"--layout="],
        GAVE,
        (3, "", "layout refused NotRead\n", "\n"),
    ),
    (
        &[b"seat_cli", b"play", b"--layout=no.toml"],
        GAVE,
        (3, "", "layout refused NotRead\n", "no.toml\n"),
    ),
    (
        &[
            b"seat_cli",
            b"judge",
            b"--cut=0,0,1",
            b"--layout=three.toml",
        ],
        "",
        (0, "bad cut\n", "", "three.toml\n"),
    ),
    (
        &[b"seat_cli", b"judge"],
        "",
        (
            0,
            "\
site      cut  entries  runs
   0        0        0     0
   1        0        0     0
consistent
",
            "",
            "",
        ),
    ),
    (
        &[b"seat_cli", b"judge", b"--cut=full"],
        GAVE,
        (4, "line 1 refused NotTranscript\n", "", ""),
    ),
];

#[test]
fn a_command_is_carried_out_under_the_layout_that_is_named(rt: HostRuntime) {
    assert_eq!(rt; wrongly_carried(&rt, rt.alloc(), &RUNS), None);
}

static FAULTS: [Faulty; 14] = [
    // a read of the input
    (0, NEVER, NEVER, ErrorKind::Other, &[], (7, "", "io\n", "")),
    (1, NEVER, NEVER, ErrorKind::Other, &[], (7, "", "io\n", "")),
    (2, NEVER, NEVER, ErrorKind::Other, &[], (7, "", "io\n", "")),
    (
        1,
        NEVER,
        NEVER,
        ErrorKind::OutOfMemory,
        &[],
        (6, "", "memory\n", ""),
    ),
    (
        1,
        NEVER,
        NEVER,
        ErrorKind::Interrupted,
        &[],
        (0, GAVE, "", ""),
    ),
    // a write of the answer, whose 78 bytes go out in twelve calls: after the fault nothing follows
    (NEVER, 0, NEVER, ErrorKind::Other, &[], (7, "", "io\n", "")),
    (
        NEVER,
        1,
        NEVER,
        ErrorKind::Other,
        &[],
        (7, "{\"from\"", "io\n", ""),
    ),
    // what is said of a fault can't be written
    (0, NEVER, 0, ErrorKind::Other, &[], (7, "", "", "")),
    // help can't be written, or what is wrong with the arguments
    (
        NEVER,
        0,
        NEVER,
        ErrorKind::Other,
        &[b"seat_cli", b"--help"],
        (7, "", "io\n", ""),
    ),
    (
        NEVER,
        1,
        NEVER,
        ErrorKind::Other,
        &[b"seat_cli", b"-V"],
        (7, "seat_cl", "io\n", ""),
    ),
    (
        NEVER,
        NEVER,
        1,
        ErrorKind::Other,
        &[b"seat_cli", b"walk"],
        (2, "", "error: ", ""),
    ),
    // a file can't be opened or read, for want of memory; or it is not there, which can't be written
    (
        NEVER,
        NEVER,
        NEVER,
        ErrorKind::OutOfMemory,
        &[b"seat_cli", b"join", b"--layout", b"no.toml"],
        (6, "", "memory\n", "no.toml\n"),
    ),
    (
        NEVER,
        NEVER,
        NEVER,
        ErrorKind::OutOfMemory,
        &[b"seat_cli", b"join", b"--layout", b"torn.toml"],
        (6, "", "memory\n", "torn.toml\n"),
    ),
    (
        NEVER,
        NEVER,
        1,
        ErrorKind::NotFound,
        &[b"seat_cli", b"join", b"--layout", b"no.toml"],
        (3, "", "layout ", "no.toml\n"),
    ),
];

#[test]
fn each_fault_is_told_once_and_nothing_is_written_after_it(rt: HostRuntime) {
    assert_eq!(rt; wrongly_faulted(&rt, rt.alloc(), GAVE, &FAULTS), None);
}
