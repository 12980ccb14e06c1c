//! Scripts at one site and at several, with links of no turn, of some and of the most. A site that is asked to help gives
//! away the seats above its part of all, so that with turns of links only a first reader is sure of a seat.
use crate::runs::{ONE_SITE, Story, ends};
use exit_status::Status;
use test_streams::texts::{THREE_SITES, TWO_SITES};

static STORIES: [Story; 8] = [
    (ONE_SITE, 100, "", Status::Done, "consistent\n"),
    (
        ONE_SITE,
        100,
        "0 read a 1\n0 leave a 1\n",
        Status::Done,
        "0: admitted\n0: left reader\nconsistent\n",
    ),
    // A last line without LF is one.
    (
        ONE_SITE,
        0,
        "0 announce a 5\n0 write a 5\n0 read a 1\n0 leave a 5\n0 help a\n0 give a 0 1",
        Status::Done,
        "\
0: announced 1
0: admitted
0: refused NoSeat 0
0: left writer
0: refused NoPlan
0: refused ToSelf
consistent
",
    ),
    // The replies of site 0 come first, whatever the order of the lines.
    (
        TWO_SITES,
        20,
        "1 read b 1\n0 read a 1\n1 leave a 9\n0 leave a 1\n0 read a 2\n0 give a 0 1\n",
        Status::Done,
        "\
0: admitted
0: left reader
0: admitted
0: refused ToSelf
1: refused NoRecord
1: refused NotHere
consistent
",
    ),
    (
        TWO_SITES,
        0,
        "1 read a 1\n1 read a 1000000000001\n0 give a 2 1\n0 give a 1 0\n",
        Status::Done,
        "\
0: refused NoSite
0: refused ZeroSeats
1: refused NoSeat 0
1: refused BadHolder
consistent
",
    ),
    (
        TWO_SITES,
        1000,
        "1 leave a 1\n0 read a 7\n",
        Status::Done,
        "0: admitted\n1: refused NotHere\nconsistent\n",
    ),
    (THREE_SITES, 1, "", Status::Done, "consistent\n"),
    (
        THREE_SITES,
        50,
        "2 read nobody 1\n1 leave a 1\n0 read a 1\n2 leave a 4\n0 leave a 1\n",
        Status::Done,
        "\
0: admitted
0: left reader
1: refused NotHere
2: refused NoRecord
2: refused NotHere
consistent
",
    ),
];

#[test]
fn scripts_are_carried_out_and_judged(rt: HostRuntime) {
    for (row, story) in STORIES.iter().enumerate() {
        assert!(rt; ends(&rt, rt.alloc(), story), "row {row}");
    }
}
