//! Sites over databases in memory: what is kept from one run to the next, a store of the first version, and stores that
//! are refused.
use super::runs::{NO_LINE, Run, Script, Story, wrong_story};
use exit_status::{Status, StoreRefusal};
use test_streams::texts::WRITERS_FIRST;

// A store of the first version, of site 0 of two sites, which has no table for what it hears of writers.
const FIRST_VERSION: &str = "
CREATE TABLE meta (name TEXT PRIMARY KEY NOT NULL, value TEXT NOT NULL);
CREATE TABLE cells (record INTEGER NOT NULL, slot INTEGER NOT NULL, n INTEGER NOT NULL CHECK (n >= 0), PRIMARY KEY (record, slot));
CREATE TABLE sessions (record INTEGER NOT NULL, holder INTEGER NOT NULL, phase INTEGER NOT NULL, place INTEGER NOT NULL UNIQUE, PRIMARY KEY (record, holder));
INSERT INTO meta VALUES ('version', '1'), ('site', '0'), ('layout', '2;a,2,0,2');";

// A counter, and a session, that no site has.
const WRONG_COUNTER: &str = "INSERT INTO cells VALUES (0, 0, 1000000000003);";

const WRONG_SESSION: &str = "INSERT INTO sessions VALUES (0, 7, 1, 1);";

const ONE_READER: Script = Script {
    lines: "read a 7\n",
    ..NO_LINE
};

const FIRST_READER: Script = Script {
    toml: WRITERS_FIRST,
    ..ONE_READER
};

const READS: Run = Run {
    script: ONE_READER,
    status: Status::Done,
    output: "admitted\n",
};

const READS_AGAIN: Run = Run {
    script: Script {
        lines: "read a 7\nread a 8\n",
        ..NO_LINE
    },
    status: Status::Done,
    output: "refused AlreadyHere\nadmitted\n",
};

const HEARS: Run = Run {
    script: Script {
        toml: WRITERS_FIRST,
        lines: "take {\"from\":1,\"rows\":[{\"ann\":1,\"fin\":0,\"out\":[0,0],\"r\":0,\"s\":1,\"taken\":0}],\"v\":1}\n",
        ..NO_LINE
    },
    status: Status::Done,
    output: "merged 1\n",
};

const REMEMBERS: Run = Run {
    script: FIRST_READER,
    status: Status::Done,
    output: "refused WriterAnnounced 1\n",
};

static KEPT: [Story; 3] = [
    (&[], &[READS, READS_AGAIN]),
    (&[], &[HEARS, REMEMBERS]),
    (&[FIRST_VERSION], &[HEARS, REMEMBERS]),
];

#[test]
fn what_a_reply_told_is_in_the_database(rt: HostRuntime) {
    assert!(rt; wrong_story(rt.alloc(), &KEPT) == None);
}

// A run that the store refuses.
macro_rules! refused {
    ($refusal:ident, $script:expr) => {
        Run {
            script: $script,
            status: Status::NoStore(StoreRefusal::$refusal),
            output: "",
        }
    };
}

const AT_THE_OTHER: Script = Script {
    site: 1,
    ..ONE_READER
};

const FIRST_AT_THE_OTHER: Script = Script {
    site: 1,
    ..FIRST_READER
};

static OTHERS: [Story; 3] = [
    (&[], &[READS, refused!(WrongSite, AT_THE_OTHER)]),
    (&[], &[READS, refused!(WrongLayout, FIRST_READER)]),
    (&[], &[READS, refused!(WrongSite, FIRST_AT_THE_OTHER)]),
];

#[test]
fn a_store_of_another_site_or_layout_is_refused(rt: HostRuntime) {
    assert!(rt; wrong_story(rt.alloc(), &OTHERS) == None);
}

const NO_STORE: Run = refused!(BadStore, FIRST_READER);

const COUNTERS: Run = refused!(WrongCounters, FIRST_READER);

const SESSIONS: Run = refused!(WrongSessions, FIRST_READER);

static OF_NO_SITE: [Story; 3] = [
    (
        &["CREATE TABLE meta (name TEXT, value TEXT)"],
        &[NO_STORE, NO_STORE],
    ),
    (&[FIRST_VERSION, WRONG_COUNTER], &[COUNTERS, COUNTERS]),
    (&[FIRST_VERSION, WRONG_SESSION], &[SESSIONS, SESSIONS]),
];

#[test]
fn a_store_with_what_no_site_has_is_refused(rt: HostRuntime) {
    assert!(rt; wrong_story(rt.alloc(), &OF_NO_SITE) == None);
}

// Counters that no site has: at slots of notices, past them, and at the last slot.
static OUT_OF_PLACE: [Story; 4] = [
    (
        &[FIRST_VERSION, "INSERT INTO cells VALUES (0, 300, 1);"],
        &[COUNTERS, COUNTERS],
    ),
    (
        &[
            FIRST_VERSION,
            "INSERT INTO cells VALUES (0, 301, 1), (0, 401, 1);",
        ],
        &[COUNTERS, COUNTERS],
    ),
    (
        &[FIRST_VERSION, "INSERT INTO cells VALUES (0, 316, 1);"],
        &[COUNTERS, COUNTERS],
    ),
    (
        &[
            FIRST_VERSION,
            "INSERT INTO cells VALUES (0, 65535, 9223372036854775807);",
        ],
        &[COUNTERS, COUNTERS],
    ),
];

#[test]
fn counters_of_no_site_are_wrong_counters(rt: HostRuntime) {
    assert!(rt; wrong_story(rt.alloc(), &OUT_OF_PLACE) == None);
}
