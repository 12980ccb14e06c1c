//! Ends that answer by a list. No test can refuse one allocation of a run, so these stand for each of them: a turn whose end
//! has no memory is counted and the run goes on, and a closed end ends it.
ghost use Rattle.std.specs.Prelude.{◌≡◌};
ghost use Rattle.admission_core.specs.Kept.{DurableState};

use crate::gates::TestGate;
use crate::sites::{WRITER_FIRST, job_of, opened};
use exchange_threads::{Fate, Inlet, Outlet, PutError, TakeError, run_inbox_at, run_outbox_at};
use session_book::Opening;
use std::alloc::Global;
use std::marker::Brand;
use std::sync::Wait;
use std::sync::ledger::Blank;

// What an end answers.
#[derive(Clone, Copy, Debug, PartialEq, Eq)]
enum Answer {
    Ok,
    Memory,
    Closed,
}

// An end that answers by a list, and `Ok` behind it; and how many texts it put or gave.
#[derive(Drop)]
struct Listed {
    alloc: Global,
    answers: Vec<Answer>,
    asked: usize,
    texts: u64,
}

// A delta without rows.
const TEXT: &str = "{\"from\":1,\"rows\":[],\"v\":1}";

impl Listed {
    // The next answer.
    fn next(&mut self) -> Answer {
        let answer = match self.answers.get(self.asked) {
            Some(answer) => *answer,
            None => Answer::Ok,
        };
        self.asked = self.asked.saturating_add(1);
        if answer == Answer::Ok {
            self.texts = self.texts.saturating_add(1);
        }
        answer
    }
}

impl Outlet for Listed {
    ghost accounts = { λ _ _ _ _. Unit {0} };

    ghost closed = { λ _. Unit {0} };

    ghost rests = { λ _ _. Unit {0} };

    ghost same = { λ _ _. Unit {0} };

    fn put<R: Wait>(&mut self, _rt: &R, _place: u64, _text: String) -> Result<(), PutError> {
        match self.next() {
            Answer::Ok => Ok(()),
            Answer::Memory => Err(PutError::Memory),
            Answer::Closed => Err(PutError::Closed),
        }
    }

    ghost same_as_itself = { λ _. tt };

    ghost same_later = { λ _ _ _ _ _. tt };

    ghost grows = { λ _ _ _ _ _ right. right };
}

impl Inlet for Listed {
    ghost accounts = { λ _ _ _ _ _. Unit {0} };

    ghost holds = { λ _ _ _ _ _. Unit {0} };

    ghost closed = { λ _. Unit {0} };

    ghost rests = { λ _ _. Unit {0} };

    ghost same = { λ _ _. Unit {0} };

    fn take<R: Wait>(&mut self, _rt: &R) -> Result<String, TakeError> {
        match self.next() {
            Answer::Ok => match String::from_str(self.alloc, TEXT) {
                Ok(text) => Ok(text),
                Err(_) => Err(TakeError::Memory),
            },
            Answer::Memory => Err(TakeError::Memory),
            Answer::Closed => Err(TakeError::Closed),
        }
    }

    fn note(&mut self, _text: String, _fate: Fate) {}

    ghost same_as_itself = { λ _. tt };

    ghost same_later = { λ _ _ _ _ _. tt };

    ghost lacks = { λ _ _ _ _ _ _ right. right };
}

const TURNS: u64 = 8;

// An end with this answer at one place of its list.
fn end_with(alloc: Global, place: u64, answer: Answer) -> Option<Listed> {
    let mut answers = Vec::new(alloc);
    for n in 0..TURNS {
        let next = if n == place { answer } else { Answer::Ok };
        answers.push(next).ok()?;
    }
    Some(Listed {
        alloc,
        answers,
        asked: 0,
        texts: 0,
    })
}

// What came of an outbox and an inbox at such ends: the turns, the texts sent and the turns without memory; the texts taken,
// the refusals and the turns without memory; and how many texts each end put or gave.
type Counts = ([u64; 3], [u64; 3], [u64; 2]);

fn counts_over<L: Opening, R: Wait>(
    rt: &R,
    alloc: Global,
    blank: Blank,
    place: u64,
    answer: Answer,
) -> Option<Counts>
    requires name { blank.name ≡ L.name }
    requires parts { blank.parts ≡ L.parts }
    requires unknown { (d : DurableState) → ¬ L.kept d }
    requires one_each { blank.parts ≡ 1 }
{
    let job = job_of(WRITER_FIRST, 0, Vec::new(alloc), TURNS);
    let (site, mut passes) = opened::<L>(alloc, blank, &job, 1)?;
    let mut pass = passes.pop()?;
    let mut outlet = end_with(alloc, place, answer)?;
    let mut inlet = end_with(alloc, place, answer)?;
    let mut gate = TestGate::Always;
    let told = run_outbox_at(rt, alloc, &site, &mut pass, &mut gate, &mut outlet, TURNS);
    let heard = run_inbox_at(rt, alloc, &site, &mut pass, &mut inlet, TURNS);
    Some((
        [told.turns, told.sent, told.memory],
        [heard.taken, heard.refused.len() as u64, heard.memory],
        [outlet.texts, inlet.texts],
    ))
}

// The same of a new site.
fn counts_of<R: Wait>(rt: &R, alloc: Global, place: u64, answer: Answer) -> Option<Counts> {
    let blank = Blank::new(1);
    counts_over::<Brand, R>(rt, alloc, blank, place, answer)
}

#[test]
fn each_turn_without_memory_is_counted_and_the_run_goes_on(rt: HostRuntime) {
    for place in 0..TURNS {
        let found = counts_of(&rt, rt.alloc(), place, Answer::Memory);
        assert!(rt;
            found == Some(([8, 7, 1], [7, 0, 1], [7, 7])),
            "{place} {found:?}"
        );
    }
}

#[test]
fn an_end_that_is_closed_ends_the_run(rt: HostRuntime) {
    for place in 0..TURNS {
        let found = counts_of(&rt, rt.alloc(), place, Answer::Closed);
        let turns = place + 1;
        assert!(rt;
            found == Some(([turns, place, 0], [place, 0, 0], [place, place])),
            "{place} {found:?}"
        );
    }
}
