//! Both tables of three worlds, to the byte.
use crate::layouts::{greatest_layout, layout_of};
use admission_model::Ask;
use audit_report::*;
use merge_core::Layout;
use multi_site_world::{Event, World, run_grown};
use std::alloc::Global;

// The world after these events, the first sites of which begin under an earlier layout.
fn world_after(alloc: Global, layout: Layout, first: u16, events: &[Event]) -> Option<World> {
    let (world, _) = run_grown(alloc, layout, first, events).ok()?;
    Some(world)
}

fn shows_seats(alloc: Global, world: &World, table: &str) -> Option<bool> {
    let seats = seat_table(alloc, world).ok()?;
    Some(seats.as_str() == table)
}

fn shows_sessions(alloc: Global, world: &World, table: &str) -> Option<bool> {
    let sessions = session_table(alloc, world).ok()?;
    Some(sessions.as_str() == table)
}

// Whether the tables of a world are these two texts.
fn shows(alloc: Global, world: &World, tables: (&str, &str)) -> Option<bool> {
    Some(shows_seats(alloc, world, tables.0)? && shows_sessions(alloc, world, tables.1)?)
}

// A writer waits at site 1, and site 0 hands it its seats, the last one after its reader has left.
const WRITER_HELPED: [Event; 14] = [
    Event::Call(1, Ask::Announce { r: 0, h: 5 }),
    Event::Call(0, Ask::Read { r: 0, h: 1 }),
    Event::Send(1),
    Event::Take(0, 0),
    Event::Call(0, Ask::Read { r: 0, h: 2 }),
    Event::Call(0, Ask::Help { r: 0 }),
    Event::Send(0),
    Event::Take(1, 1),
    Event::Call(1, Ask::Quill { r: 0, h: 5 }),
    Event::Call(0, Ask::Leave { r: 0, h: 1 }),
    Event::Call(0, Ask::Help { r: 0 }),
    Event::Send(0),
    Event::Take(1, 2),
    Event::Call(1, Ask::Quill { r: 0, h: 5 }),
];

const WRITER_SEATS: &str = "\
record           site  rights  inside  unfinished\n\
a                   0       0       0           0\n\
a                   1       0       3           1\n\
a                   2       0       0           0\n";

const WRITER_SESSIONS: &str =
    "record           site         holder  phase\na                   1              5  writer\n";

fn writer_inside(alloc: Global) -> Option<bool> {
    let layout = layout_of(alloc, 3, &[("a", 3, 0, 2)])?;
    let world = world_after(alloc, layout, 3, &WRITER_HELPED)?;
    shows(alloc, &world, (WRITER_SEATS, WRITER_SESSIONS))
}

#[test]
fn a_writer_has_all_seats(rt: HostRuntime) {
    assert!(rt; writer_inside(rt.alloc()) == Some(true));
}

// Readers and waiting writers of two records come and go at two sites; the third site knows them all, and site 1
// comes to know it.
const COMINGS: [Event; 15] = [
    Event::Call(1, Ask::Read { r: 1, h: 9 }),
    Event::Call(0, Ask::Read { r: 0, h: 7 }),
    Event::Call(0, Ask::Announce { r: 1, h: 3 }),
    Event::Call(0, Ask::Read { r: 0, h: 2 }),
    Event::Call(0, Ask::Announce { r: 0, h: 30 }),
    Event::Call(0, Ask::Read { r: 0, h: 5 }),
    Event::Call(0, Ask::Leave { r: 0, h: 7 }),
    Event::Call(1, Ask::Announce { r: 0, h: 1 }),
    Event::Call(1, Ask::Read { r: 1, h: 4 }),
    Event::Grow(1),
    Event::Call(1, Ask::Leave { r: 1, h: 9 }),
    Event::Call(0, Ask::Read { r: 0, h: 7 }),
    Event::Call(0, Ask::Announce { r: 1, h: 1 }),
    Event::Call(0, Ask::Leave { r: 1, h: 3 }),
    Event::Call(
        0,
        Ask::Give {
            r: 0,
            to: 1,
            seats: 1,
        },
    ),
];

const COMINGS_SEATS: &str = "\
record           site  rights  inside  unfinished\n\
pool-2              0       0       3           1\n\
pool-2              1       0       0           1\n\
pool-2              2       0       0           0\n\
b                   0       0       0           1\n\
b                   1       1       1           0\n\
b                   2       0       0           0\n";

const COMINGS_SESSIONS: &str = "\
record           site         holder  phase\n\
pool-2              0              2  reader\n\
pool-2              0             30  waiting\n\
pool-2              0              5  reader\n\
pool-2              0              7  reader\n\
pool-2              1              1  waiting\n\
b                   0              1  waiting\n\
b                   1              4  reader\n";

fn comings(alloc: Global) -> Option<bool> {
    let layout = layout_of(alloc, 3, &[("pool-2", 4, 0, 1), ("b", 2, 1, 2)])?;
    let world = world_after(alloc, layout, 2, &COMINGS)?;
    shows(alloc, &world, (COMINGS_SEATS, COMINGS_SESSIONS))
}

#[test]
fn readers_and_waiting_writers_of_two_records(rt: HostRuntime) {
    assert!(rt; comings(rt.alloc()) == Some(true));
}

const LAST_SEATS: &str = "record-number255   15   65534       1           0\n";

const LAST_SESSIONS: &str =
    "record           site         holder  phase\nrecord-number255   15  1000000000000  reader\n";

// The length of the seat table, and whether its last line is the one wanted.
fn seats_end(alloc: Global, world: &World) -> Option<(usize, bool)> {
    let seats = seat_table(alloc, world).ok()?;
    Some((seats.len(), seats.as_str().ends_with(LAST_SEATS)))
}

// The same, and whether the session table is the one wanted.
fn greatest_tables(alloc: Global) -> Option<((usize, bool), bool)> {
    let reader = Event::Call(
        15,
        Ask::Read {
            r: 255,
            h: 1_000_000_000_000,
        },
    );
    let world = world_after(alloc, greatest_layout(alloc, 15)?, 16, &[reader])?;
    let seats = seats_end(alloc, &world)?;
    Some((seats, shows_sessions(alloc, &world, LAST_SESSIONS)?))
}

// A header and 4,096 lines, each of 50 bytes.
#[test]
fn tables_at_the_limits(rt: HostRuntime) {
    assert!(rt; greatest_tables(rt.alloc()) == Some(((204_850, true), true)));
}
