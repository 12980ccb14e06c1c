//! The commands `regroup` and `rebuild` of the whole program on a fake runtime: arguments that are wrong, what is printed, and
//! faults.
use crate::programs::{Carried, Faulty, Wrong, wrongly_carried, wrongly_faulted, wrongly_refused};
use std::io::ErrorKind;
use test_streams::NEVER;

// Arguments that are wrong, and what goes to standard error.
static WRONG: [Wrong; 2] = [
    (
        &[b"seat_cli", b"regroup", b"--site=0", b"--store=a.db"],
        "error: the following required arguments were not provided:\n  --group <NAME>\n\n\
         Usage: seat_cli regroup --site I --store FILE [--layout FILE] --group NAME\n\nFor more information, try '--help'.\n",
    ),
    (
        &[
            b"seat_cli",
            b"rebuild",
            b"--site=0",
            b"--store=a.db",
            b"--group=east.2",
            b"--lost=x",
        ],
        "error: invalid value 'x' for '--lost <J>': invalid digit found in string\n\nFor more information, try '--help'.\n",
    ),
];

#[test]
fn wrong_arguments_of_a_move_are_told_and_nothing_is_read(rt: HostRuntime) {
    assert_eq!(rt; wrongly_refused(&rt, rt.alloc(), &WRONG), None);
}

// Arguments and input, and what `regroup` does: no input is read.
static REGROUPED: [Carried; 10] = [
    (
        &[
            b"seat_cli",
            b"regroup",
            b"--site=0",
            b"--store=old.db",
            b"--group=east",
        ],
        "",
        (
            0,
            "east.2:moved d6a41a2b6edb4b8d 49d0174c {\"from\":0,\"rows\":[],\"v\":1}\n",
            "",
            "old.db\n",
        ),
    ),
    (
        &[
            b"seat_cli",
            b"regroup",
            b"--site=1",
            b"--store=old.db",
            b"--group=east",
        ],
        "",
        (
            0,
            "east.2:moved d6a41a2b6edb4b8d 974d99c4 {\"from\":1,\"rows\":[],\"v\":1}\n",
            "",
            "old.db\n",
        ),
    ),
    (
        &[
            b"seat_cli",
            b"regroup",
            b"--site",
            b"1",
            b"--store",
            b"old.db",
            b"--layout=three.toml",
            b"--group",
            b"east",
        ],
        "x",
        (
            0,
            "east.2:moved 50b3e8c44fe0750a 974d99c4 {\"from\":1,\"rows\":[],\"v\":1}\n",
            "",
            "three.toml\nold.db\n",
        ),
    ),
    (
        &[
            b"seat_cli",
            b"regroup",
            b"--site=0",
            b"--store=none.db",
            b"--group=east",
        ],
        "",
        (5, "", "store refused NoStore\n", "none.db\n"),
    ),
    (
        &[
            b"seat_cli",
            b"regroup",
            b"--site=0",
            b"--store=old.db",
            b"--group=west",
        ],
        "",
        (5, "", "store refused WrongGroup\n", "old.db\n"),
    ),
    (
        &[
            b"seat_cli",
            b"regroup",
            b"--site=0",
            b"--store=old.db",
            b"--group=east.1048575",
        ],
        "",
        (5, "", "store refused LastGeneration\n", "old.db\n"),
    ),
    (
        &[
            b"seat_cli",
            b"regroup",
            b"--site=2",
            b"--store=old.db",
            b"--group=east",
        ],
        "",
        (3, "", "layout refused NoSite\n", ""),
    ),
    (
        &[
            b"seat_cli",
            b"regroup",
            b"--site=0",
            b"--store=old.db",
            b"--group=refused",
        ],
        "",
        (2, "", "group refused BadWord\n", ""),
    ),
    (
        &[
            b"seat_cli",
            b"regroup",
            b"--site=0",
            b"--store=old.db",
            b"--group=east.1",
        ],
        "",
        (2, "", "group refused BadWord\n", ""),
    ),
    (
        &[
            b"seat_cli",
            b"regroup",
            b"--site=0",
            b"--store=old.db",
            b"--group=east",
            b"--layout=seatless.toml",
        ],
        "",
        (
            3,
            "",
            "layout refused BadSeats\nrecord 2\n",
            "seatless.toml\n",
        ),
    ),
];

#[test]
fn a_store_is_moved_and_its_text_printed(rt: HostRuntime) {
    assert_eq!(rt; wrongly_carried(&rt, rt.alloc(), &REGROUPED), None);
}

// The same of `rebuild`: a store is made behind all that may be refused.
static REBUILT: [Carried; 16] = [
    (
        &[
            b"seat_cli",
            b"rebuild",
            b"--site=1",
            b"--store=new.db",
            b"--group=east.2",
        ],
        "east.2:moved d6a41a2b6edb4b8d dd43195b {\"from\":0,\"rows\":[{\"ann\":0,\"fin\":0,\"out\":[2,1],\"r\":0,\"s\":0,\"taken\":0}],\"v\":1}\n",
        (0, "a rights 1 inside 0 unfinished 0\n", "", "new.db\n"),
    ),
    (
        &[
            b"seat_cli",
            b"rebuild",
            b"--site=1",
            b"--store=new.db",
            b"--group=east.2",
        ],
        "east.2 d6a41a2b6edb4b8d dd43195b {\"from\":0,\"rows\":[{\"ann\":0,\"fin\":0,\"out\":[2,1],\"r\":0,\"s\":0,\"taken\":0}],\"v\":1}",
        (0, "a rights 1 inside 0 unfinished 0\n", "", "new.db\n"),
    ),
    (
        &[
            b"seat_cli",
            b"rebuild",
            b"--site=1",
            b"--store=new.db",
            b"--group=east.2",
            b"--layout=three.toml",
            b"--lost=2",
        ],
        "east.2:moved 50b3e8c44fe0750a adf54b7a {\"from\":0,\"rows\":[{\"ann\":0,\"fin\":0,\"out\":[3,1,0],\"r\":0,\"s\":0,\"taken\":0}],\"v\":1}\n",
        (
            0,
            "a rights 1 inside 0 unfinished 0\ntexts 1aa64b9ccb3b60ab\n",
            "",
            "three.toml\nnew.db\n",
        ),
    ),
    (
        &[
            b"seat_cli",
            b"rebuild",
            b"--site=1",
            b"--store=old.db",
            b"--group=east.2",
        ],
        "east.2:moved d6a41a2b6edb4b8d dd43195b {\"from\":0,\"rows\":[{\"ann\":0,\"fin\":0,\"out\":[2,1],\"r\":0,\"s\":0,\"taken\":0}],\"v\":1}\n",
        (5, "", "store refused Exists\n", "old.db\n"),
    ),
    (
        &[
            b"seat_cli",
            b"rebuild",
            b"--site=1",
            b"--store=new.db",
            b"--group=east.2",
        ],
        "",
        (4, "input refused NoDelta 0\n", "", ""),
    ),
    (
        &[
            b"seat_cli",
            b"rebuild",
            b"--site=1",
            b"--store=new.db",
            b"--group=east.2",
        ],
        "east.2:moved d6a41a2b6edb4b8d dd43195b {\"from\":0,\"rows\":[{\"ann\":0,\"fin\":0,\"out\":[2,1],\"r\":0,\"s\":0,\"taken\":0}],\"v\":1}\nx\n",
        (4, "line 2 refused NoMark\n", "", ""),
    ),
    (
        &[
            b"seat_cli",
            b"rebuild",
            b"--site=1",
            b"--store=new.db",
            b"--group=east.2",
        ],
        "east.2:moved d6a41a2b6edb4b8d dd43195b {\"from\":0,\"rows\":[{\"ann\":0,\"fin\":0,\"out\":[2,1],\"r\":0,\"s\":0,\"taken\":0}],\"v\":1}\n\
         east.2 d6a41a2b6edb4b8d dd43195b {\"from\":0,\"rows\":[{\"ann\":0,\"fin\":0,\"out\":[2,1],\"r\":0,\"s\":0,\"taken\":0}],\"v\":1}\n",
        (4, "line 2 refused Twice\n", "", ""),
    ),
    (
        &[
            b"seat_cli",
            b"rebuild",
            b"--site=1",
            b"--store=new.db",
            b"--group=east.2",
        ],
        "east.3:moved d6a41a2b6edb4b8d dd43195b {\"from\":0,\"rows\":[{\"ann\":0,\"fin\":0,\"out\":[2,1],\"r\":0,\"s\":0,\"taken\":0}],\"v\":1}\n",
        (4, "line 1 refused WrongGroup\n", "", ""),
    ),
    (
        &[
            b"seat_cli",
            b"rebuild",
            b"--site=1",
            b"--store=new.db",
            b"--group=east.2",
        ],
        "east.2:moved d6a41a2b6edb4b8d 44136fa3 {}\n",
        (4, "line 1 refused NotCanonical\n", "", ""),
    ),
    (
        &[
            b"seat_cli",
            b"rebuild",
            b"--site=1",
            b"--store=new.db",
            b"--group=east.2",
        ],
        "east.2:moved d6a41a2b6edb4b8d 82f0dfbe {\"from\":0,\"rows\":[{\"ann\":0,\"fin\":0,\"out\":[2,1,0],\"r\":0,\"s\":0,\"taken\":0}],\"v\":1}\n",
        (4, "line 1 refused BadDelta\n", "", ""),
    ),
    (
        &[
            b"seat_cli",
            b"rebuild",
            b"--site=1",
            b"--store=new.db",
            b"--group=east.2",
        ],
        "east.2:moved d6a41a2b6edb4b8d 845ec61d {\"from\":0,\"rows\":[{\"ann\":0,\"fin\":0,\"out\":[0,0],\"r\":0,\"s\":1,\"taken\":1}],\"v\":1}\n",
        (4, "input refused Acted\n", "", ""),
    ),
    (
        &[
            b"seat_cli",
            b"rebuild",
            b"--site=1",
            b"--store=new.db",
            b"--group=east.2",
            b"--lost=0",
        ],
        "east.2 d6a41a2b6edb4b8d dd43195b {\"from\":0,\"rows\":[{\"ann\":0,\"fin\":0,\"out\":[2,1],\"r\":0,\"s\":0,\"taken\":0}],\"v\":1}\n",
        (4, "line 1 refused WrongGroup\n", "", ""),
    ),
    (
        &[
            b"seat_cli",
            b"rebuild",
            b"--site=2",
            b"--store=new.db",
            b"--group=east.2",
        ],
        "east.2:moved d6a41a2b6edb4b8d dd43195b {\"from\":0,\"rows\":[{\"ann\":0,\"fin\":0,\"out\":[2,1],\"r\":0,\"s\":0,\"taken\":0}],\"v\":1}\n",
        (3, "", "layout refused NoSite\n", ""),
    ),
    (
        &[
            b"seat_cli",
            b"rebuild",
            b"--site=1",
            b"--store=new.db",
            b"--group=east.2",
            b"--lost=7",
        ],
        "east.2:moved d6a41a2b6edb4b8d dd43195b {\"from\":0,\"rows\":[{\"ann\":0,\"fin\":0,\"out\":[2,1],\"r\":0,\"s\":0,\"taken\":0}],\"v\":1}\n",
        (3, "", "layout refused NoSite\n", ""),
    ),
    (
        &[
            b"seat_cli",
            b"rebuild",
            b"--site=1",
            b"--store=new.db",
            b"--group=east",
        ],
        "east d6a41a2b6edb4b8d dd43195b {\"from\":0,\"rows\":[{\"ann\":0,\"fin\":0,\"out\":[2,1],\"r\":0,\"s\":0,\"taken\":0}],\"v\":1}\n",
        (2, "", "group refused NotMoved\n", ""),
    ),
    (
        &[
            b"seat_cli",
            b"rebuild",
            b"--site=1",
            b"--store=new.db",
            b"--group=east.1048576",
        ],
        "",
        (2, "", "group refused BadWord\n", ""),
    ),
];

#[test]
fn a_lost_site_is_built_again_and_shown(rt: HostRuntime) {
    assert_eq!(rt; wrongly_carried(&rt, rt.alloc(), &REBUILT), None);
}

// Calls that are answered with a fault.
static FAULTY: [Faulty; 4] = [
    (
        NEVER,
        0,
        NEVER,
        ErrorKind::Other,
        &[
            b"seat_cli",
            b"regroup",
            b"--site=0",
            b"--store=old.db",
            b"--group=east",
        ],
        (7, "", "io\n", "old.db\n"),
    ),
    (
        NEVER,
        0,
        NEVER,
        ErrorKind::Other,
        &[
            b"seat_cli",
            b"rebuild",
            b"--site=1",
            b"--store=new.db",
            b"--group=east.2",
        ],
        (7, "", "io\n", ""),
    ),
    (
        0,
        NEVER,
        NEVER,
        ErrorKind::Other,
        &[
            b"seat_cli",
            b"rebuild",
            b"--site=1",
            b"--store=new.db",
            b"--group=east.2",
        ],
        (7, "", "io\n", ""),
    ),
    (
        0,
        NEVER,
        NEVER,
        ErrorKind::OutOfMemory,
        &[
            b"seat_cli",
            b"rebuild",
            b"--site=1",
            b"--store=new.db",
            b"--group=east.2",
        ],
        (6, "", "memory\n", ""),
    ),
];

#[test]
fn faults_of_a_move_are_told(rt: HostRuntime) {
    assert_eq!(rt; wrongly_faulted(&rt, rt.alloc(), "x", &FAULTY), None);
}
