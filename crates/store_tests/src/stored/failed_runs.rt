//! Runs of a site that fail, over a database: its store is unharmed, and the next run finds what was kept.
use super::runs::{NO_LINE, Run, Script, Story, wrong_story};
use exit_status::Status;
use test_streams::NEVER;

// A run that is carried out whole.
macro_rules! done {
    ($lines:expr, $output:expr) => {
        Run {
            script: Script {
                lines: $lines,
                ..NO_LINE
            },
            status: Status::Done,
            output: $output,
        }
    };
}

// A run in which a call of the reader or of the writer fails.
macro_rules! fails {
    ($lines:expr, $read:expr, $write:expr, $output:expr) => {
        Run {
            script: Script {
                lines: $lines,
                read: $read,
                write: $write,
                ..NO_LINE
            },
            status: Status::Io,
            output: $output,
        }
    };
}

// Reader 7 comes; then both ask, and either is there or not.
const COMES: Run = done!("read a 7\n", "admitted\n");

const ONE_IS_THERE: Run = done!("read a 7\nread a 8\n", "refused AlreadyHere\nadmitted\n");

const BOTH_ARE_THERE: Run = done!(
    "read a 7\nread a 8\n",
    "refused AlreadyHere\nrefused AlreadyHere\n"
);

const TOO_LONG: Run = Run {
    script: Script {
        lines: "read a 8\n",
        blanks: 16_777_208,
        ..NO_LINE
    },
    status: Status::Refused,
    output: "input refused TooLong\n",
};

// 47 bytes, which come in two calls; a third tells the end.
const LONG: &str = "read a 8\nleave a 8\nread a 8\nleave a 8\nread a 8\n";

// Its answer has 26 bytes, which go out in four calls and a flush.
const SHORT: &str = "read a 8\nread a 9\n";

// What fails behind the first run, and what the next run finds: no line of an input that was not read whole is
// carried out; where the answer can't be written, every line was.
static FAILS: [Story; 7] = [
    (&[], &[COMES, TOO_LONG, ONE_IS_THERE]),
    (&[], &[COMES, fails!(LONG, 0, NEVER, ""), ONE_IS_THERE]),
    (&[], &[COMES, fails!(LONG, 1, NEVER, ""), ONE_IS_THERE]),
    (&[], &[COMES, fails!(LONG, 2, NEVER, ""), ONE_IS_THERE]),
    (&[], &[COMES, fails!(SHORT, NEVER, 0, ""), BOTH_ARE_THERE]),
    (
        &[],
        &[
            COMES,
            fails!(SHORT, NEVER, 2, "admitted\nrefus"),
            BOTH_ARE_THERE,
        ],
    ),
    (
        &[],
        &[
            COMES,
            fails!(SHORT, NEVER, 4, "admitted\nrefused NoSeat 0\n"),
            BOTH_ARE_THERE,
        ],
    ),
];

#[test]
fn a_run_that_fails_leaves_the_store_unharmed(rt: HostRuntime) {
    assert!(rt; wrong_story(rt.alloc(), &FAILS) == None);
}

// A seat is given, and that is told.
const TELLS: Run = done!(
    "give a 1 1\nsend\n",
    "given\n{\"from\":0,\"rows\":[{\"ann\":0,\"fin\":0,\"out\":[2,1],\"r\":0,\"s\":0,\"taken\":1}],\"v\":1}\n"
);

// The site takes this text: it tells nothing to the one that gave the seat, and more than it did to one that did not.
const TAKES: &str =
    "take {\"from\":0,\"rows\":[{\"ann\":0,\"fin\":0,\"out\":[2,1],\"r\":0,\"s\":0,\"taken\":1}],\"v\":1}\nread a 8\n";

const KNOWS_IT: Run = done!(TAKES, "merged 0\nrefused NoSeat 0\n");

const KNOWS_IT_NOT: Run = done!(TAKES, "refused OwnRowAhead 0\nadmitted\n");

// What stands after `COMES` is what a copy from before `TELLS` holds.
static PUT_BACK: [Story; 2] = [
    (&[], &[COMES, TELLS, KNOWS_IT]),
    (&[], &[COMES, KNOWS_IT_NOT, BOTH_ARE_THERE]),
];

#[test]
fn a_store_that_was_put_back_does_not_take_what_it_no_longer_knows(rt: HostRuntime) {
    assert!(rt; wrong_story(rt.alloc(), &PUT_BACK) == None);
}
