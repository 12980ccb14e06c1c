//! The command `site` of the whole program on a fake runtime: arguments that are wrong, the store that is named, and
//! faults.
use crate::programs::{Carried, Faulty, Wrong, wrongly_carried, wrongly_faulted, wrongly_refused};
use std::io::ErrorKind;
use test_streams::NEVER;

// Arguments that are wrong, and what goes to standard error.
const NEITHER_SITE_NOR_STORE: &str = "\
error: the following required arguments were not provided:
  --site <I>
  --store <FILE>

Usage: seat_cli site --site I --store FILE [--layout FILE]

For more information, try '--help'.
";

static WRONG: [Wrong; 8] = [
    (
        &[b"seat_cli", b"site", b"--store", b"a.db"],
        "error: the following required arguments were not provided:\n  --site <I>\n\nUsage: seat_cli site --site I --store FILE [--layout FILE]\n\nFor more information, try '--help'.\n",
    ),
    (
        &[b"seat_cli", b"site", b"--site", b"0"],
        "error: the following required arguments were not provided:\n  --store <FILE>\n\nUsage: seat_cli site --site I --store FILE [--layout FILE]\n\nFor more information, try '--help'.\n",
    ),
    (&[b"seat_cli", b"site"], NEITHER_SITE_NOR_STORE),
    (
        &[b"seat_cli", b"site", b"--site", b"x", b"--store=a.db"],
        "error: invalid value 'x' for '--site <I>': invalid digit found in string\n\nFor more information, try '--help'.\n",
    ),
    (
        &[b"seat_cli", b"site", b"--site", b"65536", b"--store=a.db"],
        "error: invalid value '65536' for '--site <I>': 65536 is not in 0..=65535\n\nFor more information, try '--help'.\n",
    ),
    (
        &[
            b"seat_cli",
            b"site",
            b"--site=0",
            b"--site=1",
            b"--store=a.db",
        ],
        "error: the argument '--site <I>' cannot be used multiple times\n\nUsage: seat_cli site --site I --store FILE [--layout FILE]\n\nFor more information, try '--help'.\n",
    ),
    (
        &[
            b"seat_cli",
            b"site",
            b"--site=0",
            b"--store=a.db",
            b"--store=b.db",
        ],
        "error: the argument '--store <FILE>' cannot be used multiple times\n\nUsage: seat_cli site --site I --store FILE [--layout FILE]\n\nFor more information, try '--help'.\n",
    ),
    (
        &[b"seat_cli", b"site", b"--site=0", b"--store=a.db", b"b.db"],
        "error: unexpected argument 'b.db' found\n\nUsage: seat_cli site --site I --store FILE [--layout FILE]\n\nFor more information, try '--help'.\n",
    ),
];

#[test]
fn wrong_arguments_of_site_are_told_and_nothing_is_read(rt: HostRuntime) {
    assert_eq!(rt; wrongly_refused(&rt, rt.alloc(), &WRONG), None);
}

// Arguments and input, and what the program does.
static RUNS: [Carried; 7] = [
    (
        &[b"seat_cli", b"site", b"--site=0", b"--store=new.db"],
        "read a 7\nread a 7\nsend",
        (
            0,
            "admitted\nrefused AlreadyHere\n{\"from\":0,\"rows\":[{\"ann\":0,\"fin\":0,\"out\":[2,0],\"r\":0,\"s\":0,\"taken\":1}],\"v\":1}\n",
            "",
            "new.db\n",
        ),
    ),
    (
        &[
            b"seat_cli",
            b"site",
            b"--site",
            b"1",
            b"--store",
            b"new.db",
            b"--layout=three.toml",
        ],
        "announce a 5\nreed a 5\n",
        (
            4,
            "announced 1\nline 2 refused BadWord\n",
            "",
            "three.toml\nnew.db\n",
        ),
    ),
    (
        &[b"seat_cli", b"site", b"--site", b"2", b"--store", b"new.db"],
        "read a 7\n",
        (3, "", "layout refused NoSite\n", ""),
    ),
    (
        &[
            b"seat_cli",
            b"site",
            b"--site",
            b"65535",
            b"--store",
            b"none.db",
            b"--layout=no.toml",
        ],
        "read a 7\n",
        (3, "", "layout refused NotRead\n", "no.toml\n"),
    ),
    (
        &[
            b"seat_cli",
            b"site",
            b"--site",
            b"0",
            b"--store",
            b"none.db",
        ],
        "read a 7\n",
        (5, "", "store refused StoreFault\n", "none.db\n"),
    ),
    (
        &[b"seat_cli", b"site", b"--site", b"0", b"--store="],
        "read a 7\n",
        (5, "", "store refused StoreFault\n", "\n"),
    ),
    (
        &[b"seat_cli", b"site", b"--site", b"0", b"--store=new.db"],
        "",
        (0, "", "", "new.db\n"),
    ),
];

#[test]
fn a_site_is_served_over_the_store_that_is_named(rt: HostRuntime) {
    assert_eq!(rt; wrongly_carried(&rt, rt.alloc(), &RUNS), None);
}

static FAULTS: [Faulty; 5] = [
    (
        0,
        NEVER,
        NEVER,
        ErrorKind::Other,
        &[b"seat_cli", b"site", b"--site=0", b"--store=new.db"],
        (7, "", "io\n", "new.db\n"),
    ),
    (
        1,
        NEVER,
        NEVER,
        ErrorKind::OutOfMemory,
        &[b"seat_cli", b"site", b"--site=0", b"--store=new.db"],
        (6, "", "memory\n", "new.db\n"),
    ),
    (
        NEVER,
        0,
        NEVER,
        ErrorKind::Other,
        &[b"seat_cli", b"site", b"--site=0", b"--store=new.db"],
        (7, "", "io\n", "new.db\n"),
    ),
    (
        NEVER,
        1,
        NEVER,
        ErrorKind::Other,
        &[b"seat_cli", b"site", b"--site=0", b"--store=new.db"],
        (7, "admitte", "io\n", "new.db\n"),
    ),
    (
        NEVER,
        NEVER,
        1,
        ErrorKind::Other,
        &[b"seat_cli", b"site", b"--site=0", b"--store=none.db"],
        (5, "", "store r", "none.db\n"),
    ),
];

#[test]
fn each_fault_of_site_is_told_once(rt: HostRuntime) {
    assert_eq!(rt;
        wrongly_faulted(&rt, rt.alloc(), "read a 7\n", &FAULTS),
        None
    );
}
