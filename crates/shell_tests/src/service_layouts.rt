//! Layout files of the commands of a service.
use crate::programs::{Carried, wrongly_carried};

// Layout files that are refused: the commands of a service name the record at fault, if it is one; `join`, `play`, `site`, `run`
// and `judge` do not.
static REFUSED: [Carried; 12] = [
    (
        &[
            b"seat_cli",
            b"serve",
            b"--site=0",
            b"--store=old.db",
            b"--layout=seatless.toml",
        ],
        "read a 7\n",
        (
            3,
            "",
            "layout refused BadSeats\nrecord 2\n",
            "seatless.toml\n",
        ),
    ),
    (
        &[
            b"seat_cli",
            b"ask",
            b"--site=0",
            b"--store=old.db",
            b"--layout=seatless.toml",
            b"send",
        ],
        "",
        (
            3,
            "",
            "layout refused BadSeats\nrecord 2\n",
            "seatless.toml\n",
        ),
    ),
    (
        &[
            b"seat_cli",
            b"serve",
            b"--site=0",
            b"--store=old.db",
            b"--layout=names.toml",
        ],
        "",
        (3, "", "layout refused SameName\nrecord 3\n", "names.toml\n"),
    ),
    (
        &[
            b"seat_cli",
            b"ask",
            b"--site=0",
            b"--store=old.db",
            b"--layout=names.toml",
            b"send",
        ],
        "",
        (3, "", "layout refused SameName\nrecord 3\n", "names.toml\n"),
    ),
    (
        &[
            b"seat_cli",
            b"serve",
            b"--site=0",
            b"--store=old.db",
            b"--layout=empty.toml",
        ],
        "",
        (3, "", "layout refused NoRecords\n", "empty.toml\n"),
    ),
    (
        &[
            b"seat_cli",
            b"ask",
            b"--site=0",
            b"--store=old.db",
            b"--layout=no.toml",
            b"send",
        ],
        "",
        (3, "", "layout refused NotRead\n", "no.toml\n"),
    ),
    (
        &[
            b"seat_cli",
            b"site",
            b"--site=0",
            b"--store=old.db",
            b"--layout=seatless.toml",
        ],
        "",
        (3, "", "layout refused BadSeats\n", "seatless.toml\n"),
    ),
    (
        &[
            b"seat_cli",
            b"site",
            b"--site=0",
            b"--store=old.db",
            b"--layout=names.toml",
        ],
        "",
        (3, "", "layout refused SameName\n", "names.toml\n"),
    ),
    (
        &[b"seat_cli", b"join", b"--layout=seatless.toml"],
        "",
        (3, "", "layout refused BadSeats\n", "seatless.toml\n"),
    ),
    (
        &[b"seat_cli", b"play", b"--layout=names.toml"],
        "",
        (3, "", "layout refused SameName\n", "names.toml\n"),
    ),
    (
        &[b"seat_cli", b"judge", b"--layout=seatless.toml"],
        "",
        (3, "", "layout refused BadSeats\n", "seatless.toml\n"),
    ),
    (
        &[b"seat_cli", b"run", b"--layout=names.toml"],
        "",
        (3, "", "layout refused SameName\n", "names.toml\n"),
    ),
];

#[test]
fn a_record_at_fault_is_named_where_a_site_is_to_be_served(rt: HostRuntime) {
    assert_eq!(rt; wrongly_carried(&rt, rt.alloc(), &REFUSED), None);
}
