ghost use Rattle.std.specs.Prelude.{◌≡◌, ◌⊎◌, ◌+◌, ◌<◌, ◌≤◌, List, ◌∷◌, ◌++◌, [], Option, None, length};
ghost use Rattle.merge_core.specs.Delta.{DeltaState};
ghost use Rattle.session_book.specs.declared.pass.Receipt.{Receipt};
ghost use Rattle.exchange_threads.specs.declared.turn.Turn.TheVariants.{GoesOn, EndsRun};
ghost use Rattle.exchange_threads.specs.Turns.{IsMarked};
ghost use Rattle.exchange_threads.specs.Outbox.{HasAsked, HasShown, HasTold, HasRunOut, HasRunOutAt, IsOutAt, IsSending, shown_receipt};

use crate::gate::Gate;
use crate::outlet::{Outlet, PlainOutlet, PutError};
use crate::report::OutReport;
use crate::telling::Telling;
use crate::turn::Turn;
use admission_core::{Ask, Call, Reply};
use crossbeam_channel::Sender;
use durable_keeper::Keeper;
use merge_core::Delta;
use session_book::{Opening, Pass, Site};
use std::alloc::Global;
use std::sync::Wait;

// Begins a turn: the site is asked to help the record whose turn it is.
fn ask_help<K: Keeper, L: Opening, R: Wait>(
    rt: &R,
    site: &Site<K, L>,
    pass: &mut Pass<L>,
    told: &mut Telling,
) -> Turn
    requires at { IsOutAt told.old.report.turns told.old.report }
    requires few { told.old.report.turns < 1000000000 }
    ensures asked { HasAsked (length site.now.layout.records) pass.old pass.new told.old.report told.new.report result }
    ensures last { told.new.last ≡ told.old.last }
    ensures at { IsOutAt (told.old.report.turns + 1) told.new.report }
    ensures going { result ≡ GoesOn → told.new.report.sent + told.new.report.memory ≤ told.old.report.turns }
{
    let r = (told.report.turns % u64::from(site.records())) as u16;
    let reply = site.call(rt, pass, Call::Ask(Ask::Help { r }));
    told.note_help(&reply)
}

// Puts the text of a snapshot, whose receipt stands at that place of the pass, and keeps the snapshot if that was put.
fn send_snapshot<O: Outlet, R: Wait>(
    rt: &R,
    alloc: Global,
    place: u64,
    snapshot: Delta,
    outlet: &mut O,
    told: &mut Telling,
) -> Turn
    requires sent { told.old.report.sent < 1000000000 }
    requires memory { told.old.report.memory < 1000000000 }
    ensures sending { IsSending snapshot told.old told.new result }
    ensures accounts { (rs : List Receipt) → O.accounts outlet.old rs told.old.report.sent told.old.last → place ≡ length rs
        → O.accounts outlet.new (rs ++ shown_receipt snapshot ∷ []) told.new.report.sent told.new.last }
    ensures closed { result ≡ EndsRun → O.closed outlet.new }
    ensures same { O.same outlet.old outlet.new }
{
    let Ok(text) = told.text(alloc, &snapshot) else {
        told.note_memory();
        return Turn::IsOver;
    };
    match outlet.put(rt, place, text) {
        Ok(()) => {
            told.note_sent(snapshot);
            Turn::GoesOn
        }
        Err(PutError::Memory) => {
            told.note_memory();
            Turn::IsOver
        }
        Err(PutError::Closed) => Turn::EndsRun,
    }
}

// Takes a snapshot and puts its text.
fn tell<K: Keeper, L: Opening, O: Outlet, R: Wait>(
    rt: &R,
    alloc: Global,
    site: &Site<K, L>,
    pass: &mut Pass<L>,
    outlet: &mut O,
    told: &mut Telling,
) -> Turn
    requires sent { told.old.report.sent < 1000000000 }
    requires memory { told.old.report.memory < 1000000000 }
    requires accounts { O.accounts outlet.old pass.old.receipts told.old.report.sent told.old.last }
    ensures shown { HasShown pass.old pass.new told.old told.new result }
    ensures turns { told.new.report.turns ≡ told.old.report.turns }
    ensures helped { told.new.report.helped ≡ told.old.report.helped }
    ensures spent { told.new.report.sent + told.new.report.memory ≤ told.old.report.sent + told.old.report.memory + 1 }
    ensures accounts { O.accounts outlet.new pass.new.receipts told.new.report.sent told.new.last }
    ensures early { result ≡ EndsRun → O.closed outlet.new ⊎ IsMarked pass.new }
    ensures same { O.same outlet.old outlet.new }
{
    let place = pass.count();
    match site.call(rt, pass, Call::Snapshot) {
        Reply::Snapshot(snapshot) => send_snapshot(rt, alloc, place, snapshot, outlet, told),
        reply => told.note_unshown(&reply),
    }
}

// One turn.
fn out_turn<K: Keeper, L: Opening, G: Gate, O: Outlet, R: Wait>(
    rt: &R,
    alloc: Global,
    site: &Site<K, L>,
    pass: &mut Pass<L>,
    gate: &mut G,
    outlet: &mut O,
    told: &mut Telling,
) -> Turn
    requires at { IsOutAt told.old.report.turns told.old.report }
    requires few { told.old.report.turns < 1000000000 }
    requires accounts { O.accounts outlet.old pass.old.receipts told.old.report.sent told.old.last }
    ensures told { HasTold G.answers (length site.now.layout.records) pass.old pass.new gate.old gate.new told.old.report told.new.report result }
    ensures at { IsOutAt (told.old.report.turns + 1) told.new.report }
    ensures accounts { O.accounts outlet.new pass.new.receipts told.new.report.sent told.new.last }
    ensures early { result ≡ EndsRun → O.closed outlet.new ⊎ IsMarked pass.new }
    ensures same { O.same outlet.old outlet.new }
{
    let number = told.report.turns;
    match ask_help(rt, site, pass, told) {
        Turn::GoesOn => {}
        Turn::IsOver => return Turn::IsOver,
        Turn::EndsRun => return Turn::EndsRun,
    }
    if !gate.open(number) {
        return Turn::GoesOn;
    }
    tell(rt, alloc, site, pass, outlet, told)
}

/// Runs an outbox of a site for so many turns, of which there are at most 10^9, at any outlet. As [`run_outbox`] does,
/// whose channel is one. The caller shows that the outlet's account begins with the pass's receipts; afterwards it is
/// right of what was put. The gate is asked in each turn that gets so far, and each turn goes by its answer. A put that is
/// refused as `Closed` ends the run, and one refused as `Memory` the turn.
pub fn run_outbox_at<K: Keeper, L: Opening, G: Gate, O: Outlet, R: Wait>(
    rt: &R,
    alloc: Global,
    site: &Site<K, L>,
    pass: &mut Pass<L>,
    gate: &mut G,
    outlet: &mut O,
    turns: u64,
) -> OutReport
    requires few { turns ≤ 1000000000 }
    requires accounts { O.accounts outlet.old pass.old.receipts 0 None }
    ensures ran { HasRunOutAt G.answers (O.closed outlet.new) (length site.now.layout.records) pass.old pass.new gate.old gate.new turns result }
    ensures accounts { (last : Option DeltaState) × O.accounts outlet.new pass.new.receipts result.sent last }
    ensures same { O.same outlet.old outlet.new }
{
    let mut told = Telling::new();
    'turns: for _ in 0..turns {
        let turn = out_turn(rt, alloc, site, pass, gate, outlet, &mut told);
        if let Turn::EndsRun = turn {
            return told.report;
        }
    }
    told.report
}

/// Runs an outbox of a site for so many turns, of which there are at most 10^9. Turn `t` asks the site to help record
/// `t` modulo the number of records, so that seats go where a writer waits. Where the gate is open it then takes a snapshot
/// and sends its text: the whole one with the first text that is sent and each 16th after it, and else the rows that the
/// last snapshot whose text was sent in this run has not. While the channel is full the runner waits for room; a shut gate
/// ends the turn. The run ends early, and the report tells of the turns that were begun, once the site answers `Frozen`
/// or `LogFull`, or once the channel is closed: all its receivers are gone, and the last text is lost. A turn that
/// meets want of memory is counted, does nothing more, and the runner goes on. The sender and the gate are dropped
/// at the end.
///
/// A text has what changed since the snapshot before it. A turn costs what the site knows, since the log and the pass's
/// receipt keep the snapshot whole, and it is compared with the one before it, row by row. May wait, for the site's lock,
/// the channel and the gate.
pub fn run_outbox<K: Keeper, L: Opening, G: Gate + Drop, R: Wait>(
    rt: &R,
    alloc: Global,
    site: &Site<K, L>,
    pass: &mut Pass<L>,
    gate: G,
    sender: Sender<String>,
    turns: u64,
) -> OutReport
    requires few { turns ≤ 1000000000 }
    ensures { (gate_after : _) × HasRunOut G.answers (length site.now.layout.records) pass.old pass.new gate gate_after turns result }
{
    let mut gate = gate;
    let mut outlet = PlainOutlet {
        sender,
        refused: None,
    };
    run_outbox_at(rt, alloc, site, pass, &mut gate, &mut outlet, turns)
}
