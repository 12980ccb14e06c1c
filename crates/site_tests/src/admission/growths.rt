//! A call that finds no memory changes nothing.
use super::sites::{Answer, is_same, kept, layout, said, serve, site, told};
use crate::layouts::{delta, same_delta};
use admission_core::*;
use merge_core::Delta;
use std::alloc::Global;

// With ample memory these tests see each call succeed. They are written so that any one allocation may be refused while
// they run: a call that then finds no memory has changed nothing, and what else finds none is tried again.

// A site of two with three seats, before any operation.
fn fresh(alloc: Global) -> Option<SiteCore> {
    site(alloc, (2, 3, 1), 0)
}

// The same with a reader, a writer that waits, and one seat given away.
fn at_work(alloc: Global) -> Option<SiteCore> {
    let mut core = fresh(alloc)?;
    let admitted = serve(&mut core, Ask::Read { r: 0, h: 1 });
    let announced = serve(&mut core, Ask::Announce { r: 0, h: 2 });
    let given = serve(
        &mut core,
        Ask::Give {
            r: 0,
            to: 1,
            seats: 1,
        },
    );
    let all = admitted == Answer::Admitted
        && announced == Answer::Announced(1)
        && given == Answer::Given;
    all.then_some(core)
}

// Whether a site keeps and tells what it did, if there is memory to see it.
fn is_as_before(alloc: Global, core: &SiteCore, before: &Durable, told: &Delta) -> Option<bool> {
    let now = kept(core)?;
    Some(is_same(&now, before) && same_delta(alloc, &said(core)?, told)?)
}

// The answer to a call, prepared and carried out by hand.
fn answer_to(core: &mut SiteCore, call: &Call) -> Answer {
    let prepared = core.prepare(call);
    told(&core.apply(prepared))
}

// Whether a call succeeds, or finds no memory and changes nothing.
fn serves_or_keeps(alloc: Global, core: &mut SiteCore, call: &Call) -> Option<bool> {
    let kept_before = kept(core)?;
    let said_before = said(core)?;
    match answer_to(core, call) {
        Answer::Refused(Refusal::Memory) => is_as_before(alloc, core, &kept_before, &said_before),
        Answer::Refused(_) => Some(false),
        _ => Some(true),
    }
}

fn at_work_serves_or_keeps(alloc: Global, call: &Call) -> Option<bool> {
    serves_or_keeps(alloc, &mut at_work(alloc)?, call)
}

// The same; tried again where there was no memory for the site or for a look at it.
fn is_kept(alloc: Global, call: &Call) -> bool {
    let kept = match at_work_serves_or_keeps(alloc, call) {
        None => at_work_serves_or_keeps(alloc, call),
        kept => kept,
    };
    kept == Some(true)
}

// The asks that the site at work carries out.
const ASKS: [Ask; 5] = [
    Ask::Read { r: 0, h: 3 },
    Ask::Announce { r: 0, h: 4 },
    Ask::Leave { r: 0, h: 1 },
    Ask::Leave { r: 0, h: 2 },
    Ask::Give {
        r: 0,
        to: 1,
        seats: 1,
    },
];

// How many of these asks are carried out, or have no effect for want of memory, before the first that is not.
fn asks_kept(alloc: Global) -> usize {
    for (k, ask) in ASKS.iter().enumerate() {
        if !is_kept(alloc, &Call::Ask(*ask)) {
            return k;
        }
    }
    ASKS.len()
}

#[test]
fn an_ask_without_memory_changes_nothing(rt: HostRuntime) {
    assert!(rt; asks_kept(rt.alloc()) == 5);
}

// A site whose writer waits, with all seats at hand.
fn with_writer(alloc: Global) -> Option<SiteCore> {
    let mut core = fresh(alloc)?;
    let announced = serve(&mut core, Ask::Announce { r: 0, h: 2 });
    (announced == Answer::Announced(1)).then_some(core)
}

const WRITE: Ask = Ask::Quill { r: 0, h: 2 };

// What `enter_write` answers, after which the writer is inside, or is as before for want of memory, and enters then.
fn writer_answers(core: &mut SiteCore) -> [Answer; 2] {
    [serve(core, WRITE), serve(core, WRITE)]
}

const INSIDE: Answer = Answer::Refused(Refusal::AlreadyInside);

const NO_MEMORY: Answer = Answer::Refused(Refusal::Memory);

// Whether a writer enters at the first call, or at the second where the first finds no memory.
fn writer_enters(alloc: Global) -> Option<bool> {
    let answers = writer_answers(&mut with_writer(alloc)?);
    Some(answers == [Answer::Admitted, INSIDE] || answers == [NO_MEMORY, Answer::Admitted])
}

// Whether a writer's call, prepared and carried out by hand, succeeds or has no effect.
fn write_kept(alloc: Global) -> Option<bool> {
    serves_or_keeps(alloc, &mut with_writer(alloc)?, &Call::Ask(WRITE))
}

// Both of these; again where there was no memory for the site or for a look at it.
fn writer_served(alloc: Global) -> [Option<bool>; 2] {
    let enters = match writer_enters(alloc) {
        None => writer_enters(alloc),
        enters => enters,
    };
    let kept = match write_kept(alloc) {
        None => write_kept(alloc),
        kept => kept,
    };
    [enters, kept]
}

#[test]
fn a_writer_without_memory_enters_later(rt: HostRuntime) {
    assert!(rt; writer_served(rt.alloc()) == [Some(true), Some(true)]);
}

fn help_kept(alloc: Global) -> Option<bool> {
    serves_or_keeps(alloc, &mut fresh(alloc)?, &Call::Ask(Ask::Help { r: 0 }))
}

// Whether a help is carried out, or has no effect.
fn is_help_kept(alloc: Global) -> bool {
    let kept = match help_kept(alloc) {
        None => help_kept(alloc),
        kept => kept,
    };
    kept == Some(true)
}

// A merge of what site 1 tells, read again where that found no memory.
fn merge(alloc: Global) -> Option<Call> {
    let told = match delta(alloc, (0, 1, &[0, 0], [0, 1, 0])) {
        None => delta(alloc, (0, 1, &[0, 0], [0, 1, 0]))?,
        Some(told) => told,
    };
    Some(Call::Merge(told))
}

// The same of a merge.
fn is_merge_kept(alloc: Global) -> bool {
    match merge(alloc) {
        Some(call) => is_kept(alloc, &call),
        None => false,
    }
}

#[test]
fn a_help_or_merge_without_memory_changes_nothing(rt: HostRuntime) {
    let help = is_help_kept(rt.alloc());
    let merge = is_merge_kept(rt.alloc());
    let snapshot = is_kept(rt.alloc(), &Call::Snapshot);
    assert!(rt; [help, merge, snapshot] == [true; 3]);
}

fn left(alloc: Global) -> Option<Durable> {
    at_work(alloc)?.durable().ok()
}

// Whether a site at work is restored, or refused for want of memory alone.
fn restored_or_not(alloc: Global) -> Option<bool> {
    let left = left(alloc)?;
    let layout = layout(alloc, (2, 3, 1))?;
    match SiteCore::restore(alloc, layout, 0, left) {
        Ok(_) => Some(true),
        Err(error) => Some(error == RestoreError::Memory),
    }
}

// The same; tried again where there was no memory for what is restored.
fn restored_now_or_then(alloc: Global) -> Option<bool> {
    match restored_or_not(alloc) {
        None => restored_or_not(alloc),
        restored => restored,
    }
}

#[test]
fn a_restore_without_memory_says_so(rt: HostRuntime) {
    assert!(rt; restored_now_or_then(rt.alloc()) == Some(true));
}
