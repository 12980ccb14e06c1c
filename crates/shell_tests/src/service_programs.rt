//! The commands `serve` and `ask` of the whole program on a fake runtime: arguments that are wrong, the store that is
//! named, and faults.
use crate::programs::{Carried, Faulty, Wrong, wrongly_carried, wrongly_faulted, wrongly_refused};
use std::io::ErrorKind;
use test_streams::NEVER;

// Arguments that are wrong, and what goes to standard error.
static WRONG: [Wrong; 10] = [
    (
        &[b"seat_cli", b"serve", b"--site=0"],
        "error: the following required arguments were not provided:\n  --store <FILE>\n\n\
         Usage: seat_cli serve --site I --store FILE [--layout FILE] [--group NAME | --plain] [--create] [--grow] [--wait SECONDS] \
         [--together N | --log FILE]\n\nFor more information, try '--help'.\n",
    ),
    (
        &[
            b"seat_cli",
            b"serve",
            b"--site=0",
            b"--store=a.db",
            b"--wait=x",
        ],
        "error: invalid value 'x' for '--wait <SECONDS>': invalid digit found in string\n\nFor more information, try '--help'.\n",
    ),
    (
        &[
            b"seat_cli",
            b"serve",
            b"--site=0",
            b"--store=a.db",
            b"--together=0",
        ],
        "error: invalid value '0' for '--together <N>': 0 is not in 1..=256\n\nFor more information, try '--help'.\n",
    ),
    (
        &[
            b"seat_cli",
            b"serve",
            b"--site=0",
            b"--store=a.db",
            b"--together=257",
        ],
        "error: invalid value '257' for '--together <N>': 257 is not in 1..=256\n\nFor more information, try '--help'.\n",
    ),
    (
        &[
            b"seat_cli",
            b"serve",
            b"--site=0",
            b"--store=a.db",
            b"--together=x",
        ],
        "error: invalid value 'x' for '--together <N>': invalid digit found in string\n\nFor more information, try '--help'.\n",
    ),
    (
        &[
            b"seat_cli",
            b"serve",
            b"--site=0",
            b"--store=a.db",
            b"--together=2",
            b"--log=a.log",
        ],
        "together refused Log\n",
    ),
    (
        &[
            b"seat_cli",
            b"ask",
            b"--site=0",
            b"--store=a.db",
            b"--together=2",
            b"send",
        ],
        "error: unexpected argument '--together' found\n\n  tip: to pass '--together' as a value, use '-- --together'\n\n\
         Usage: seat_cli ask --site I --store FILE [--layout FILE] [--group NAME | --plain] [--create] [--grow] [--wait SECONDS] [--log FILE] WORD..\n\nFor more information, try '--help'.\n",
    ),
    (
        &[b"seat_cli", b"serve", b"--site=0", b"--store=a.db", b"send"],
        "error: unexpected argument 'send' found\n\n\
         Usage: seat_cli serve --site I --store FILE [--layout FILE] [--group NAME | --plain] [--create] [--grow] [--wait SECONDS] \
         [--together N | --log FILE]\n\nFor more information, try '--help'.\n",
    ),
    (
        &[b"seat_cli", b"ask", b"--site=0", b"--store=a.db"],
        "error: the following required arguments were not provided:\n  <WORD>\n\n\
         Usage: seat_cli ask --site I --store FILE [--layout FILE] [--group NAME | --plain] [--create] [--grow] [--wait SECONDS] [--log FILE] WORD..\n\nFor more information, try '--help'.\n",
    ),
    (
        &[
            b"seat_cli",
            b"ask",
            b"--site=0",
            b"--store=a.db",
            b"give",
            b"a",
            b"1",
            b"2",
            b"3",
        ],
        "error: unexpected argument '3' found\n\n\
         Usage: seat_cli ask --site I --store FILE [--layout FILE] [--group NAME | --plain] [--create] [--grow] [--wait SECONDS] [--log FILE] WORD..\n\nFor more information, try '--help'.\n",
    ),
];

#[test]
fn wrong_arguments_of_a_service_are_told_and_nothing_is_read(rt: HostRuntime) {
    assert_eq!(rt; wrongly_refused(&rt, rt.alloc(), &WRONG), None);
}

// Arguments and input, and what `serve` does: each line is answered, one that can't be read too.
static SERVED: [Carried; 11] = [
    (
        &[
            b"seat_cli",
            b"serve",
            b"--site=0",
            b"--store=new.db",
            b"--create",
        ],
        "read a 7\nreed a 7\nshow a\nshow b\nsessions a\nwrite a 7\nleave a 7",
        (
            0,
            "admitted\nrefused BadWord 1\nrights 1 inside 1 unfinished 0\nrefused NoRecord\n1 7 reader\nrefused NotAnnounced\nrefused BadWord\n",
            "",
            "new.db\n",
        ),
    ),
    (
        &[
            b"seat_cli",
            b"serve",
            b"--site",
            b"1",
            b"--store",
            b"old.db",
            b"--layout=three.toml",
            b"--plain",
        ],
        "announce a 5\ntake {\"from\":2,\"rows\":[{\"ann\":2,\"fin\":0,\"out\":[0,0,0],\"r\":0,\"s\":1,\"taken\":0}],\"v\":1}\nread a 7\n",
        (
            5,
            "announced 1\nrefused OwnRowAhead 0\nrefused Frozen\n",
            "store refused Outdated\n",
            "three.toml\nold.db\n",
        ),
    ),
    (
        &[
            b"seat_cli",
            b"serve",
            b"--site=0",
            b"--store=new.db",
            b"--group=payroll",
            b"--create",
        ],
        "send\ntake {\"from\":1,\"rows\":[],\"v\":1}\ntake payroll d6a41a2b6edb4b8d 974d99c4 {\"from\":1,\"rows\":[],\"v\":1}\n\
         take payroll d6a41a2b6edb4b8d 2d711642 x\ntake stock d6a41a2b6edb4b8d 2d711642 x\ntake payroll 50b3e8c44fe0750a 2d711642 x\n\
         take payroll d6a41a2b6edb4b8d 2d711642 y\ntake\n",
        (
            0,
            "payroll d6a41a2b6edb4b8d 49d0174c {\"from\":0,\"rows\":[],\"v\":1}\nrefused NoMark\nmerged 0\nrefused NotJson\n\
             refused WrongGroup\nrefused OtherRecords\nrefused Damaged\nrefused BadWord 2\n",
            "",
            "new.db\n",
        ),
    ),
    (
        &[
            b"seat_cli",
            b"serve",
            b"--site=0",
            b"--store=new.db",
            b"--create",
            b"--together=1",
            b"--log=a.log",
        ],
        "read a 7\n",
        (0, "admitted\n", "", "new.db\nlog a.log\n"),
    ),
    (
        &[
            b"seat_cli",
            b"serve",
            b"--site=0",
            b"--store=new.db",
            b"--create",
            b"--together=4",
        ],
        "read a 7\nread a 7\nleave a 7\nread a 8\nshow a\nreed\nsessions a\nleave a 8",
        (
            0,
            "admitted\nrefused AlreadyHere\nleft reader\nadmitted\nrights 1 inside 1 unfinished 0\nrefused BadWord 1\n1 8 reader\nrefused BadWord\n",
            "",
            "new.db\n",
        ),
    ),
    (
        &[
            b"seat_cli",
            b"serve",
            b"--site=1",
            b"--store=old.db",
            b"--layout=three.toml",
            b"--plain",
            b"--together=256",
        ],
        "announce a 5\ntake {\"from\":2,\"rows\":[{\"ann\":2,\"fin\":0,\"out\":[0,0,0],\"r\":0,\"s\":1,\"taken\":0}],\"v\":1}\nread a 7\n",
        (
            5,
            "announced 1\nrefused OwnRowAhead 0\nrefused Frozen\n",
            "store refused Outdated\n",
            "three.toml\nold.db\n",
        ),
    ),
    (
        &[b"seat_cli", b"serve", b"--site=0", b"--store=none.db"],
        "read a 7\n",
        (5, "", "store refused NoStore\n", "none.db\n"),
    ),
    (
        &[
            b"seat_cli",
            b"serve",
            b"--site=0",
            b"--store=old.db",
            b"--create",
        ],
        "read a 7\n",
        (5, "", "store refused Exists\n", "old.db\n"),
    ),
    (
        &[
            b"seat_cli",
            b"serve",
            b"--site=0",
            b"--store=used.db",
            b"--wait=300",
        ],
        "read a 7\n",
        (5, "", "store refused InUse\n", "used.db\nwait 300\n"),
    ),
    (
        &[
            b"seat_cli",
            b"serve",
            b"--site=0",
            b"--store=new.db",
            b"--create",
            b"--log",
            b"site.log",
        ],
        "read a 7\n",
        (0, "admitted\n", "", "new.db\nlog site.log\n"),
    ),
    (
        &[
            b"seat_cli",
            b"serve",
            b"--site=2",
            b"--store=new.db",
            b"--create",
        ],
        "read a 7\n",
        (3, "", "layout refused NoSite\n", ""),
    ),
];

#[test]
fn each_line_of_a_service_is_answered(rt: HostRuntime) {
    assert_eq!(rt; wrongly_carried(&rt, rt.alloc(), &SERVED), None);
}

// What `ask` does: its words are one call, and no input is read.
static ASKED: [Carried; 12] = [
    (
        &[
            b"seat_cli",
            b"ask",
            b"--site=0",
            b"--store=old.db",
            b"read",
            b"a",
            b"7",
        ],
        "write a 7\n",
        (0, "admitted\n", "", "old.db\n"),
    ),
    (
        &[
            b"seat_cli",
            b"ask",
            b"--site=0",
            b"--store=old.db",
            b"give",
            b"a",
            b"1",
            b"9",
        ],
        "",
        (1, "refused TooFewRights 2\n", "", "old.db\n"),
    ),
    (
        &[
            b"seat_cli",
            b"ask",
            b"--site=0",
            b"--store=old.db",
            b"read a 7\nwrite a 8",
        ],
        "",
        (1, "refused BadWord 3\n", "", "old.db\n"),
    ),
    (
        &[
            b"seat_cli",
            b"ask",
            b"--create",
            b"--site=0",
            b"--store=new.db",
            b"show",
            b"a",
        ],
        "",
        (0, "rights 2 inside 0 unfinished 0\n", "", "new.db\n"),
    ),
    (
        &[
            b"seat_cli",
            b"ask",
            b"--site=0",
            b"--store=none.db",
            b"send",
        ],
        "",
        (5, "", "store refused NoStore\n", "none.db\n"),
    ),
    (
        &[
            b"seat_cli",
            b"ask",
            b"--site=0",
            b"--store=old.db",
            b"--group",
            b"z234567890-34567890123456789012z",
            b"send",
        ],
        "",
        (
            0,
            "z234567890-34567890123456789012z d6a41a2b6edb4b8d 49d0174c {\"from\":0,\"rows\":[],\"v\":1}\n",
            "",
            "old.db\n",
        ),
    ),
    (
        &[
            b"seat_cli",
            b"ask",
            b"--site=0",
            b"--store=old.db",
            b"--group=z234567890-34567890123456789012z3",
            b"send",
        ],
        "",
        (2, "", "group refused BadWord\n", ""),
    ),
    (
        &[
            b"seat_cli",
            b"ask",
            b"--site=0",
            b"--store=old.db",
            b"--group=3z",
            b"--layout=none.toml",
            b"send",
        ],
        "",
        (2, "", "group refused BadWord\n", ""),
    ),
    (
        &[
            b"seat_cli",
            b"ask",
            b"--site=0",
            b"--store=old.db",
            b"--group=gave",
            b"send",
        ],
        "",
        (2, "", "group refused BadWord\n", ""),
    ),
    (
        &[
            b"seat_cli",
            b"ask",
            b"--site=0",
            b"--store=old.db",
            b"--group=east",
            b"--plain",
            b"send",
        ],
        "",
        (2, "", "group refused Plain\n", ""),
    ),
    (
        &[
            b"seat_cli",
            b"ask",
            b"--site=0",
            b"--store=old.db",
            b"--plain",
            b"send",
        ],
        "",
        (0, "{\"from\":0,\"rows\":[],\"v\":1}\n", "", "old.db\n"),
    ),
    (
        &[b"seat_cli", b"ask", b"--site=2", b"--store=old.db", b"send"],
        "",
        (3, "", "layout refused NoSite\n", ""),
    ),
];

#[test]
fn a_call_of_the_arguments_is_made(rt: HostRuntime) {
    assert_eq!(rt; wrongly_carried(&rt, rt.alloc(), &ASKED), None);
}

static FAULTS: [Faulty; 4] = [
    (
        0,
        NEVER,
        NEVER,
        ErrorKind::Other,
        &[b"seat_cli", b"serve", b"--site=0", b"--store=old.db"],
        (7, "", "io\n", "old.db\n"),
    ),
    (
        NEVER,
        1,
        NEVER,
        ErrorKind::Other,
        &[b"seat_cli", b"serve", b"--site=0", b"--store=old.db"],
        (7, "admitte", "io\n", "old.db\n"),
    ),
    (
        NEVER,
        0,
        NEVER,
        ErrorKind::Other,
        &[b"seat_cli", b"ask", b"--site=0", b"--store=old.db", b"send"],
        (7, "", "io\n", "old.db\n"),
    ),
    (
        NEVER,
        NEVER,
        1,
        ErrorKind::Other,
        &[b"seat_cli", b"serve", b"--site=0", b"--store=none.db"],
        (5, "", "store r", "none.db\n"),
    ),
];

#[test]
fn each_fault_of_a_service_is_told_once(rt: HostRuntime) {
    assert_eq!(rt;
        wrongly_faulted(&rt, rt.alloc(), "read a 7\n", &FAULTS),
        None
    );
}
