// What an outbox remembers from turn to turn. Nothing here waits.
ghost use Rattle.std.specs.Prelude.{◌≡◌, ◌+◌, ◌<◌, None, Some, IfOk, string_bytes};
ghost use Rattle.exchange_threads.specs.Turns.{turn_after, lacks_at};
ghost use Rattle.exchange_threads.specs.Outbox.{IsOutAt, nothing_told, after_help, sent_text};

use crate::report::OutReport;
use crate::turn::{Turn, turn_after};
use admission_core::Reply;
use delta_codec::encode;
use merge_core::Delta;
use std::alloc::{AllocError, Global};

// Of so many texts one is whole.
const WHOLE_EVERY: u64 = 16;

/// The report so far, and the last snapshot whose text was sent.
#[derive(Debug, Drop)]
pub struct Telling {
    pub report: OutReport,
    pub last: Option<Delta>,
}

impl Telling {
    /// Nothing was told.
    pub fn new() -> Telling
        ensures report { result.report ≡ nothing_told }
        ensures last { result.last ≡ None }
    {
        Telling {
            report: OutReport {
                turns: 0,
                helped: 0,
                sent: 0,
                memory: 0,
            },
            last: None,
        }
    }

    /// Begins a turn, and notes what the site answered as it was asked to help.
    pub fn note_help(&mut self, reply: &Reply) -> Turn
        requires at { IsOutAt self.old.report.turns self.old.report }
        requires few { self.old.report.turns < 1000000000 }
        ensures report { self.new.report ≡ after_help self.old.report reply.now }
        ensures last { self.new.last ≡ self.old.last }
        ensures turn { result ≡ turn_after reply.now }
    {
        self.report.turns += 1;
        if let Reply::Gave { .. } = reply {
            self.report.helped += 1;
        }
        let turn = turn_after(reply);
        if let Turn::IsOver = turn {
            self.report.memory += 1;
        }
        turn
    }

    /// The text that is to be sent of a snapshot: now and then all of it, and else the rows that the last snapshot
    /// whose text was sent has not. Linear in both snapshots.
    pub fn text(&self, alloc: Global, snapshot: &Delta) -> Result<String, AllocError>
        ensures { IfOk result (λ text. string_bytes text ≡ sent_text self.now.report.sent self.now.last snapshot.now) }
    {
        if let Some(last) = &self.last {
            if self.report.sent % WHOLE_EVERY != 0 {
                let thin = snapshot.thin(alloc, last)?;
                return encode(alloc, &thin);
            }
        }
        encode(alloc, snapshot)
    }

    /// Notes that the text of a snapshot was sent.
    pub fn note_sent(&mut self, snapshot: Delta)
        requires few { self.old.report.sent < 1000000000 }
        ensures { self.new ≡ record { report = record self.old.report { sent = self.old.report.sent + 1 }; last = Some snapshot } }
    {
        self.report.sent += 1;
        self.last = Some(snapshot);
    }

    /// Notes why no snapshot was taken.
    pub fn note_unshown(&mut self, reply: &Reply) -> Turn
        requires few { self.old.report.memory < 1000000000 }
        ensures report { self.new ≡ record { report = record self.old.report { memory = self.old.report.memory + lacks_at (turn_after reply.now) }; last = self.old.last } }
        ensures turn { result ≡ turn_after reply.now }
    {
        let turn = turn_after(reply);
        if let Turn::IsOver = turn {
            self.report.memory += 1;
        }
        turn
    }

    /// Notes a turn that met want of memory.
    pub fn note_memory(&mut self)
        requires few { self.old.report.memory < 1000000000 }
        ensures { self.new ≡ record { report = record self.old.report { memory = self.old.report.memory + 1 }; last = self.old.last } }
    {
        self.report.memory += 1;
    }
}
