//! Small worlds, run.
use crate::admission::sites::{Answer, told};
use crate::layouts::one_record;
use admission_model::Ask;
use multi_site_world::*;
use std::alloc::Global;

// A reply of a world, of whose delta the number of rows is told.
#[derive(Clone, Copy, PartialEq)]
enum Seen {
    Core(Answer),
    Sent(u64),
    Restarted,
    Grown,
    NoSite,
    NoMessage,
    NoGrowth,
    Memory,
}

fn seen_reply(reply: &WorldReply) -> Seen {
    match reply {
        WorldReply::Core(reply) => Seen::Core(told(reply)),
        WorldReply::Sent(k) => Seen::Sent(*k),
        WorldReply::Restarted => Seen::Restarted,
        WorldReply::Grown => Seen::Grown,
        WorldReply::NoSite => Seen::NoSite,
        WorldReply::NoMessage => Seen::NoMessage,
        WorldReply::NoGrowth => Seen::NoGrowth,
        WorldReply::Memory => Seen::Memory,
    }
}

// The first of these replies that is another than wanted.
fn first_other(replies: &[WorldReply], wanted: &[Seen]) -> Option<(usize, Seen)> {
    for (k, reply) in replies.iter().enumerate() {
        let seen = seen_reply(reply);
        match wanted.get(k) {
            Some(want) => {
                if seen != *want {
                    return Some((k, seen));
                }
            }
            None => return Some((k, seen)),
        }
    }
    None
}

// A seat that is given, sent and received admits a reader, also after the site has grown.
const GROWTH: [Event; 8] = [
    Event::Call(
        0,
        Ask::Give {
            r: 0,
            to: 1,
            seats: 1,
        },
    ),
    Event::Send(0),
    Event::Take(1, 0),
    Event::Grow(1),
    Event::Call(1, Ask::Read { r: 0, h: 8 }),
    Event::Grow(1),
    Event::Take(1, 1),
    Event::Take(3, 1),
];

const GROWTH_REPLIES: [Seen; 8] = [
    Seen::Core(Answer::Given),
    Seen::Sent(0),
    Seen::Core(Answer::Merged(1)),
    Seen::Grown,
    Seen::Core(Answer::Admitted),
    Seen::NoGrowth,
    Seen::NoMessage,
    Seen::NoSite,
];

// The first event that is answered otherwise, and the number of replies and of messages.
fn wrong_in_growth(alloc: Global) -> Option<(Option<(usize, Seen)>, usize, u64)> {
    let layout = one_record(alloc, 3, 2, 1)?;
    let (world, replies) = run_grown(alloc, layout, 2, &GROWTH).ok()?;
    let other = first_other(replies.as_slice(), &GROWTH_REPLIES);
    Some((other, replies.len(), world.messages()))
}

#[test]
fn a_seat_that_is_sent_serves_after_growth(rt: HostRuntime) {
    assert!(rt; wrong_in_growth(rt.alloc()) == Some((None, 8, 1)));
}

// The number that a site's core has.
fn site_number(world: &World, i: u16) -> Option<u16> {
    if usize::from(i) < world.sites() {
        return Some(world.core(i).site());
    }
    None
}

// Which site sent a message, and how many rows it has.
fn message_parts(world: &World, k: u64) -> Option<(u16, usize)> {
    if k < world.messages() {
        let message = world.message(k);
        return Some((message.from_site(), message.rows().len()));
    }
    None
}

// The world of two sites after a seat was given and each site sent what it knows.
fn world_told(alloc: Global) -> Option<World> {
    let events = [
        Event::Call(
            0,
            Ask::Give {
                r: 0,
                to: 1,
                seats: 1,
            },
        ),
        Event::Send(1),
        Event::Send(0),
    ];
    let (world, replies) = run_world(alloc, one_record(alloc, 2, 2, 1)?, &events).ok()?;
    if replies.len() == 3 {
        return Some(world);
    }
    None
}

// How many sites the layout has, and the numbers of site 1 and of a site that is not there.
fn sites_shown(world: &World) -> (u16, [Option<u16>; 2]) {
    let numbers = [site_number(world, 1), site_number(world, 2)];
    (world.layout().sites(), numbers)
}

// The parts of both messages and of one that is not there.
fn messages_shown(world: &World) -> [Option<(u16, usize)>; 3] {
    [
        message_parts(world, 0),
        message_parts(world, 1),
        message_parts(world, 2),
    ]
}

type Shown = ((u16, [Option<u16>; 2]), [Option<(u16, usize)>; 3]);

fn shown(alloc: Global) -> Option<Shown> {
    let world = world_told(alloc)?;
    Some((sites_shown(&world), messages_shown(&world)))
}

#[test]
fn a_world_shows_its_sites_and_messages(rt: HostRuntime) {
    let sites = (2, [Some(1), None]);
    let messages = [Some((1, 0)), Some((0, 1)), None];
    assert!(rt; shown(rt.alloc()) == Some((sites, messages)));
}

// The same world's replies where site 1 takes the second message and a reader comes.
fn seat_taken(alloc: Global) -> Option<[Seen; 2]> {
    let mut world = world_told(alloc)?;
    let taken = seen_reply(&world.step(&Event::Take(1, 1)));
    let read = seen_reply(&world.step(&Event::Call(1, Ask::Read { r: 0, h: 8 })));
    Some([taken, read])
}

const TAKEN: [Seen; 2] = [Seen::Core(Answer::Merged(1)), Seen::Core(Answer::Admitted)];

#[test]
fn a_world_goes_on_step_by_step(rt: HostRuntime) {
    assert!(rt; seat_taken(rt.alloc()) == Some(TAKEN));
}

// Why there is no world of these first sites.
fn refused_growth(alloc: Global, first: u16) -> Option<Option<GrowthError>> {
    Some(World::grown(alloc, one_record(alloc, 2, 2, 1)?, first).err())
}

// The number of first sites, and why there is no such world of two sites.
const FIRST_SITES: [(u16, Option<GrowthError>); 4] = [
    (0, Some(GrowthError::BadGrowth)),
    (1, None),
    (2, None),
    (3, Some(GrowthError::BadGrowth)),
];

// The first number that is answered otherwise.
fn first_wrong_number(alloc: Global) -> Option<u16> {
    for (first, want) in FIRST_SITES {
        if refused_growth(alloc, first) != Some(want) {
            return Some(first);
        }
    }
    None
}

#[test]
fn first_sites_are_all_or_an_earlier_layout(rt: HostRuntime) {
    assert_eq!(rt; first_wrong_number(rt.alloc()), None);
}

// A writer at site 1 is heard of at site 0, which lets no reader in and hands its seats over as they come back; the
// writer enters, site 2 takes a message thin, site 1 begins again, and the writer leaves.
const STORY: [Event; 18] = [
    Event::Call(1, Ask::Announce { r: 0, h: 5 }),
    Event::Call(0, Ask::Read { r: 0, h: 1 }),
    Event::Send(1),
    Event::Take(0, 0),
    Event::Call(0, Ask::Read { r: 0, h: 2 }),
    Event::Call(0, Ask::Help { r: 0 }),
    Event::Send(0),
    Event::Take(1, 1),
    Event::Call(1, Ask::Quill { r: 0, h: 5 }),
    Event::Call(0, Ask::Leave { r: 0, h: 1 }),
    Event::Call(0, Ask::Help { r: 0 }),
    Event::Send(0),
    Event::Take(1, 2),
    Event::Call(1, Ask::Quill { r: 0, h: 5 }),
    Event::Thin(2, 2, 1),
    Event::Restart(1),
    Event::Call(1, Ask::Leave { r: 0, h: 5 }),
    Event::Grow(0),
];

// The events that were not answered that memory is out.
fn events_served(alloc: Global, replies: &[WorldReply]) -> Option<Vec<Event>> {
    let mut events = Vec::new(alloc);
    for (k, reply) in replies.iter().enumerate() {
        if seen_reply(reply) != Seen::Memory {
            events.push(*STORY.get(k)?).ok()?;
        }
    }
    Some(events)
}

// The other replies.
fn replies_served(alloc: Global, replies: &[WorldReply]) -> Option<Vec<Seen>> {
    let mut others = Vec::new(alloc);
    for reply in replies {
        if seen_reply(reply) != Seen::Memory {
            others.push(seen_reply(reply)).ok()?;
        }
    }
    Some(others)
}

// Runs events in a new world, and gives the replies.
fn replies_to(alloc: Global, events: &[Event]) -> Option<Vec<WorldReply>> {
    let (_, replies) = run_world(alloc, one_record(alloc, 3, 3, 2)?, events).ok()?;
    Some(replies)
}

// The events of the story for which there was memory, all but one at most, and their replies.
fn story_served(alloc: Global) -> Option<(Vec<Event>, Vec<Seen>)> {
    let replies = replies_to(alloc, &STORY)?;
    let events = events_served(alloc, replies.as_slice())?;
    if events.len() != STORY.len() && events.len() != STORY.len() - 1 {
        return None;
    }
    Some((events, replies_served(alloc, replies.as_slice())?))
}

// The first reply that is another than wanted, when these events are run.
fn first_apart(alloc: Global, events: &[Event], wanted: &[Seen]) -> Option<Option<(usize, Seen)>> {
    let replies = replies_to(alloc, events)?;
    if replies.len() != wanted.len() {
        return None;
    }
    Some(first_other(replies.as_slice(), wanted))
}

// The first reply of a run that is another than in a run of the events that did not find memory out. Of both runs
// together one allocation may be refused: where one gives no world for that, or finds memory out when the other had
// not, it is run again. There is none where a run gives no world twice.
fn strayed(alloc: Global) -> Option<Option<(usize, Seen)>> {
    let (events, wanted) = match story_served(alloc) {
        Some(served) => served,
        None => story_served(alloc)?,
    };
    match first_apart(alloc, events.as_slice(), wanted.as_slice()) {
        None | Some(Some((_, Seen::Memory))) => {
            first_apart(alloc, events.as_slice(), wanted.as_slice())
        }
        apart => apart,
    }
}

#[test]
fn refused_growths_leave_the_run_of_the_other_events(rt: HostRuntime) {
    assert!(rt; strayed(rt.alloc()) == Some(None));
}
