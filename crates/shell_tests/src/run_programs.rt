//! The command `run` of the whole program on a fake runtime: arguments that are wrong, scripts, faults, and the file for
//! closed logs. Each script's output is the same whatever the schedule.
use crate::programs::{
    Carried, Faulty, Run, Wrong, wrongly_carried, wrongly_faulted, wrongly_refused,
};
use crate::runtime::{Fake, Setting, Text};
use program_shell::run;
use std::alloc::Global;
use std::io::ErrorKind;
use std::sync::Wait;
use std::thread::Threads;
use test_streams::NEVER;

// Arguments that are wrong, and what goes to standard error. They are judged before the layout is looked for.
static WRONG: [Wrong; 11] = [
    (
        &[b"seat_cli", b"run", b"--turns", b"0"],
        "error: invalid value '0' for '--turns <T>': 0 is not in 1..=1000\n\nFor more information, try '--help'.\n",
    ),
    (
        &[b"seat_cli", b"run", b"--turns=0", b"--layout=no.toml"],
        "error: invalid value '0' for '--turns <T>': 0 is not in 1..=1000\n\nFor more information, try '--help'.\n",
    ),
    (
        &[b"seat_cli", b"run", b"--turns", b"1001"],
        "error: invalid value '1001' for '--turns <T>': 1001 is not in 1..=1000\n\nFor more information, try '--help'.\n",
    ),
    (
        &[b"seat_cli", b"run", b"--turns=65536"],
        "error: invalid value '65536' for '--turns <T>': 65536 is not in 1..=1000\n\nFor more information, try '--help'.\n",
    ),
    (
        &[b"seat_cli", b"run", b"--turns", b"x"],
        "error: invalid value 'x' for '--turns <T>': invalid digit found in string\n\nFor more information, try '--help'.\n",
    ),
    (
        &[b"seat_cli", b"run", b"--turns"],
        "error: a value is required for '--turns <T>' but none was supplied\n\nFor more information, try '--help'.\n",
    ),
    (
        &[b"seat_cli", b"run", b"--turns=1", b"--turns=2"],
        "error: the argument '--turns <T>' cannot be used multiple times\n\nUsage: seat_cli run [--turns T] [--out FILE] [--layout FILE]\n\nFor more information, try '--help'.\n",
    ),
    (
        &[b"seat_cli", b"run", b"--out"],
        "error: a value is required for '--out <FILE>' but none was supplied\n\nFor more information, try '--help'.\n",
    ),
    (
        &[b"seat_cli", b"run", b"--out=a", b"--out=b"],
        "error: the argument '--out <FILE>' cannot be used multiple times\n\nUsage: seat_cli run [--turns T] [--out FILE] [--layout FILE]\n\nFor more information, try '--help'.\n",
    ),
    (
        &[b"seat_cli", b"run", b"a.log"],
        "error: unexpected argument 'a.log' found\n\nUsage: seat_cli run [--turns T] [--out FILE] [--layout FILE]\n\nFor more information, try '--help'.\n",
    ),
    (
        &[b"seat_cli", b"join", b"--out=a"],
        "error: unexpected argument '--out' found\n\nUsage: seat_cli join [--layout FILE]\n\nFor more information, try '--help'.\n",
    ),
];

#[test]
fn wrong_arguments_of_run_are_told_and_nothing_is_read(rt: HostRuntime) {
    assert_eq!(rt; wrongly_refused(&rt, rt.alloc(), &WRONG), None);
}

// Arguments and input, and what the program does.
static RUNS: [Carried; 11] = [
    (&[b"seat_cli", b"run"], "", (0, "consistent\n", "", "")),
    (
        &[b"seat_cli", b"run"],
        "1 leave a 9\n0 read a 7\n0 leave a 7",
        (
            0,
            "0: admitted\n0: left reader\n1: refused NotHere\nconsistent\n",
            "",
            "",
        ),
    ),
    (
        &[b"seat_cli", b"run", b"--turns", b"1"],
        "1 read b 9\n0 read a 7\n",
        (0, "0: admitted\n1: refused NoRecord\nconsistent\n", "", ""),
    ),
    (
        &[b"seat_cli", b"run", b"--turns=1000", b"--layout=three.toml"],
        "2 leave a 9\n0 announce a 7\n",
        (
            0,
            "0: announced 1\n2: refused NotHere\nconsistent\n",
            "",
            "three.toml\n",
        ),
    ),
    (
        &[b"seat_cli", b"run"],
        "0 read a 7\n0 send\n",
        (4, "line 2 refused BadWord\n", "", ""),
    ),
    (
        &[b"seat_cli", b"run"],
        "1 take 0\n",
        (4, "line 1 refused BadWord\n", "", ""),
    ),
    (
        &[b"seat_cli", b"run"],
        "1 restart\n",
        (4, "line 1 refused BadWord\n", "", ""),
    ),
    (
        &[b"seat_cli", b"run"],
        "2 read a 7\n",
        (4, "line 1 refused NoSite\n", "", ""),
    ),
    (
        &[b"seat_cli", b"run", b"--layout=three.toml"],
        "2 announce a 7\n3 read a 7\n",
        (4, "line 2 refused NoSite\n", "", "three.toml\n"),
    ),
    (
        &[b"seat_cli", b"run", b"--layout=no.toml"],
        "0 send\n",
        (3, "", "layout refused NotRead\n", "no.toml\n"),
    ),
    // the layout is judged before the file for logs is made
    (
        &[b"seat_cli", b"run", b"--out=a.log", b"--layout=no.toml"],
        "0 read a 7\n",
        (3, "", "layout refused NotRead\n", "no.toml\n"),
    ),
];

#[test]
fn a_script_is_carried_out_under_the_layout_that_is_named(rt: HostRuntime) {
    assert_eq!(rt; wrongly_carried(&rt, rt.alloc(), &RUNS), None);
}

static FAULTS: [Faulty; 6] = [
    // a read of the input
    (
        0,
        NEVER,
        NEVER,
        ErrorKind::Other,
        &[b"seat_cli", b"run"],
        (7, "", "io\n", ""),
    ),
    (
        1,
        NEVER,
        NEVER,
        ErrorKind::OutOfMemory,
        &[b"seat_cli", b"run"],
        (6, "", "memory\n", ""),
    ),
    // a write of the output
    (
        NEVER,
        0,
        NEVER,
        ErrorKind::Other,
        &[b"seat_cli", b"run"],
        (7, "", "io\n", ""),
    ),
    (
        NEVER,
        2,
        NEVER,
        ErrorKind::Other,
        &[b"seat_cli", b"run"],
        (7, "0: admitted\nco", "io\n", ""),
    ),
    // the file for logs can't be made, or there is no memory for it
    (
        0,
        NEVER,
        NEVER,
        ErrorKind::NotFound,
        &[b"seat_cli", b"run", b"--out=no/a.log"],
        (7, "", "io\n", "no/a.log.part\n"),
    ),
    (
        0,
        NEVER,
        NEVER,
        ErrorKind::OutOfMemory,
        &[b"seat_cli", b"run", b"--out=no/a.log"],
        (6, "", "memory\n", "no/a.log.part\n"),
    ),
];

#[test]
fn a_run_that_fails_says_so(rt: HostRuntime) {
    assert_eq!(rt;
        wrongly_faulted(&rt, rt.alloc(), "0 read a 7\n", &FAULTS),
        None
    );
}

const ONE_SITE: &str = "sites = 1\n[[record]]\nname = \"a\"\nseats = 1\nhome = 0\nproblem = 1\n";

const SCRIPT: &str = "0 read a 7\n";

// A layout, whose logs of the script have 125 bytes; and the files that can be made, with how many bytes fit into each. Two
// sites leave 286,000 bytes at least in 1,000 turns, and 275,000 at most in half as many.
static FILES: [(&str, Text); 7] = [
    (
        "one.toml",
        Text {
            text: ONE_SITE,
            fillers: 0,
            fails: NEVER,
        },
    ),
    (
        "a.log.part",
        Text {
            text: "",
            fillers: 125,
            fails: NEVER,
        },
    ),
    (
        "full.log.part",
        Text {
            text: "",
            fillers: 124,
            fails: NEVER,
        },
    ),
    (
        "long.log.part",
        Text {
            text: "",
            fillers: 280_000,
            fails: NEVER,
        },
    ),
    (
        "none.log.part",
        Text {
            text: "",
            fillers: 0,
            fails: NEVER,
        },
    ),
    (
        "taken.part",
        Text {
            text: "",
            fillers: 9999,
            fails: NEVER,
        },
    ),
    (
        "link",
        Text {
            text: "",
            fillers: 9999,
            fails: NEVER,
        },
    ),
];

// Arguments, the input and how many LF follow it, and what the program does, with files too.
type Logged = (&'static [&'static [u8]], &'static str, usize, Run);

static LOGGED: [Logged; 9] = [
    (
        &[b"seat_cli", b"run", b"--layout=one.toml", b"--out=a.log"],
        SCRIPT,
        0,
        (
            0,
            "0: admitted\nconsistent\n",
            "",
            "one.toml\na.log.part\na.log.part becomes a.log\n",
        ),
    ),
    // a script that is refused, and an input that is too long: nothing is left of the file
    (
        &[b"seat_cli", b"run", b"--layout=one.toml", b"--out=a.log"],
        "0 send\n",
        0,
        (
            4,
            "line 1 refused BadWord\n",
            "",
            "one.toml\na.log.part\na.log.part is gone\n",
        ),
    ),
    (
        &[b"seat_cli", b"run", b"--layout=one.toml", b"--out=a.log"],
        SCRIPT,
        16_777_206,
        (
            4,
            "input refused TooLong\n",
            "",
            "one.toml\na.log.part\na.log.part is gone\n",
        ),
    ),
    // a file that the logs don't fit into
    (
        &[b"seat_cli", b"run", b"--layout=one.toml", b"--out=full.log"],
        SCRIPT,
        0,
        (
            7,
            "",
            "io\n",
            "one.toml\nfull.log.part\nfull.log.part is gone\n",
        ),
    ),
    (
        &[b"seat_cli", b"run", b"--layout=one.toml", b"--out=none.log"],
        SCRIPT,
        0,
        (
            7,
            "",
            "io\n",
            "one.toml\nnone.log.part\nnone.log.part is gone\n",
        ),
    ),
    // one into which those of half of the turns would fit
    (
        &[b"seat_cli", b"run", b"--turns=1000", b"--out=long.log"],
        SCRIPT,
        0,
        (7, "", "io\n", "long.log.part\nlong.log.part is gone\n"),
    ),
    // one that can't get its name
    (
        &[b"seat_cli", b"run", b"--layout=one.toml", b"--out=taken"],
        SCRIPT,
        0,
        (
            7,
            "0: admitted\nconsistent\n",
            "io\n",
            "one.toml\ntaken.part\ntaken.part is gone\n",
        ),
    ),
    // what is no file is written to directly; and no file has no name
    (
        &[b"seat_cli", b"run", b"--layout=one.toml", b"--out=link"],
        SCRIPT,
        0,
        (0, "0: admitted\nconsistent\n", "", "one.toml\nlink\n"),
    ),
    (
        &[b"seat_cli", b"run", b"--layout=one.toml", b"--out="],
        SCRIPT,
        0,
        (7, "", "io\n", "one.toml\n\n"),
    ),
];

// Whether the program does so.
fn is_logged<T: Threads + Wait + Sync>(threads: &T, alloc: Global, row: &Logged) -> bool {
    let (arguments, text, fillers, wanted) = *row;
    let setting = Setting {
        arguments,
        input: Text {
            text,
            fillers,
            fails: NEVER,
        },
        files: &FILES,
        fault: ErrorKind::NotFound,
    };
    let fake = Fake::new(alloc, setting, NEVER, NEVER);
    let status = run(&fake, threads);
    let (output, errors, opened) = fake.into_texts();
    status == wanted.0
        && output.bytes() == wanted.1.as_bytes()
        && errors.bytes() == wanted.2.as_bytes()
        && opened.bytes() == wanted.3.as_bytes()
}

#[test]
fn closed_logs_stand_in_their_file_whole_or_not_at_all(rt: HostRuntime) {
    for (row, logged) in LOGGED.iter().enumerate() {
        assert!(rt; is_logged(&rt, rt.alloc(), logged), "row {row}");
    }
}
