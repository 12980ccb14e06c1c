ghost use Rattle.std.specs.Prelude.{◌≡◌, ◌≢◌, ◌≤◌, length, map, string_bytes, IfOk, IfErr, OnOk, OnErr};
ghost use denote.Param.Send.{IsSend, IsSync};
ghost use Rattle.exchange_threads.specs.Outbox.{HasRunOut};
ghost use Rattle.exchange_threads.specs.Inbox.{HasRunIn};
ghost use Rattle.ruled_pair.specs.Pairs.{HasRunBoth, HasSent, HasTaken, IsFresh, IsFreshInlet, IsFreshOutlet, IsPairReport, IsRefusal, IsReportOf, MayEndIn, MayEndOut};

use crate::inlet::RuledInlet;
use crate::outlet::RuledOutlet;
use durable_keeper::Keeper;
use exchange_threads::{Fate, Gate, InReport, OutReport, run_inbox_at, run_outbox_at};
use ordered_link::make_link;
use session_book::{Opening, Pass, Site};
use std::alloc::{AllocError, Global};
use std::sync::Wait;
use std::sync::ledger::Ledger;
use std::thread::{Threads, join_mut};
use thiserror::Error;

/// What a site lends to a pair of links: the pass of its outbox and that of its inbox, and the gate that decides at which
/// turns it sends.
#[derive(Drop)]
pub struct RuledEnd<L: Ledger, G> {
    pub out_pass: Pass<L>,
    pub in_pass: Pass<L>,
    pub gate: G,
}

/// What happened in one direction.
#[derive(Debug, Drop)]
pub struct PairReport {
    /// The texts that were put, in order.
    pub put: Vec<String>,
    /// The texts that were taken, in order.
    pub taken: Vec<String>,
    /// For each text that was put, where the receipt of its snapshot stands in the outbox's pass, from 0.
    pub sent_at: Vec<u64>,
    /// What came of each text that was taken.
    pub fates: Vec<Fate>,
    /// What the outbox did.
    pub out: OutReport,
    /// What the inbox did.
    pub got: InReport,
}

/// Why no runner was started, in the order in which it is judged.
#[derive(Clone, Copy, Debug, PartialEq, Eq, Error)]
pub enum PairError {
    /// Both sites have the same number.
    #[error("there is no such link")]
    NoLink,
    #[error("out of memory")]
    Memory,
}

/// Both ends of one direction.
#[derive(Drop)]
pub struct Direction {
    outlet: RuledOutlet,
    inlet: RuledInlet,
}

// Both ends of a new link, for an outbox and an inbox whose passes have so many receipts.
fn new_direction(alloc: Global, out_count: u64, in_count: u64) -> Result<Direction, AllocError>
    ensures { IfOk result (λ d. IsFresh d out_count in_count) }
{
    let (putter, taker) = make_link(alloc)?;
    Ok(Direction {
        outlet: RuledOutlet::new(alloc, putter, out_count),
        inlet: RuledInlet::new(alloc, taker, in_count),
    })
}

// Runs the outbox of a direction, and then tells the inbox that no text will follow.
fn send_texts<K: Keeper, L: Opening, G: Gate, R: Wait>(
    rt: &R,
    alloc: Global,
    site: &Site<K, L>,
    pass: &mut Pass<L>,
    gate: &mut G,
    outlet: &mut RuledOutlet,
    turns: u64,
) -> OutReport
    requires few { turns ≤ 1000000000 }
    requires fresh { IsFreshOutlet outlet.old (length pass.old.receipts) }
    ensures ran { HasRunOut G.answers (length site.now.layout.records) pass.old pass.new gate.old gate.new turns result }
    ensures sent { HasSent outlet.old outlet.new pass.new.receipts result.sent }
    ensures ending { MayEndOut turns pass.new outlet.new result }
{
    let report = run_outbox_at(rt, alloc, site, pass, gate, outlet, turns);
    outlet.putter.finish(rt);
    report
}

// Runs the inbox of a direction, and then closes its end, so that an outbox that waits gets its text back.
fn take_texts<K: Keeper, L: Opening, R: Wait>(
    rt: &R,
    alloc: Global,
    site: &Site<K, L>,
    pass: &mut Pass<L>,
    inlet: &mut RuledInlet,
    turns: u64,
) -> InReport
    requires few { turns ≤ 1000000000 }
    requires fresh { IsFreshInlet inlet.old (length pass.old.receipts) }
    ensures ran { HasRunIn (map string_bytes inlet.new.taken.items) pass.old pass.new turns result }
    ensures taken { HasTaken inlet.old inlet.new pass.new result.memory }
    ensures ending { MayEndIn turns pass.new inlet.new result }
{
    let report = run_inbox_at(rt, alloc, site, pass, inlet, turns);
    inlet.taker.close();
    report
}

// Both runners of one direction, each on a thread of its own.
fn run_direction<
    K: Keeper + Send,
    L: Opening + Send + Sync,
    G: Gate + Send,
    N: Keeper + Send,
    M: Opening + Send + Sync,
    R: Threads + Wait + Sync,
>(
    rt: &R,
    alloc: Global,
    from: &Site<K, L>,
    out_pass: &mut Pass<L>,
    gate: &mut G,
    to: &Site<N, M>,
    in_pass: &mut Pass<M>,
    direction: &mut Direction,
    turns: u64,
) -> (OutReport, InReport)
    requires few { turns ≤ 1000000000 }
    requires fresh { IsFresh direction.old (length out_pass.old.receipts) (length in_pass.old.receipts) }
    ensures { HasRunBoth G.answers (length from.now.layout.records) turns
        out_pass.old out_pass.new in_pass.old in_pass.new gate.old gate.new direction.old direction.new result.0 result.1 }
{
    let Direction { outlet, inlet } = direction;
    // if no thread can be started, the sender runs first: up to 15 texts and the closing word fit the link
    let (got, out) = join_mut(
        rt,
        &mut || take_texts(rt, alloc, to, in_pass, inlet, turns),
        &mut || send_texts(rt, alloc, from, out_pass, gate, outlet, turns),
    );
    (out, got)
}

// The report of a direction whose runners have ended.
fn report_of(direction: Direction, out: OutReport, got: InReport) -> PairReport
    requires link { direction.outlet.putter.link ≡ direction.inlet.taker.link }
    ensures { IsReportOf direction out got result }
{
    let Direction { outlet, inlet } = direction;
    let RuledOutlet {
        mut putter,
        first: _,
        put,
        sent_at,
    } = outlet;
    let RuledInlet {
        taker,
        first: _,
        taken,
        fates,
    } = inlet;
    putter.learn_prefix(taker);
    PairReport {
        put,
        taken,
        sent_at,
        fates,
        out,
        got,
    }
}

/// Runs two links between two sites, one each way, for so many turns, at most 10^9: at each site an outbox and an inbox, each
/// on a thread of its own, as [`exchange_threads::run_outbox`] and [`exchange_threads::run_inbox`] do. Each link holds at
/// most 16 texts. What happened from the first site to the second, and from the second to the first, once all four
/// runners have ended. A runner first reserves memory in its report, so that the report lacks no text that was put or taken.
/// Refused, before any runner starts, in this order: `NoLink`; `Memory`. Where a thread can't be
/// started, runners run in turn, and then may wait for ever for one another. May wait.
///
/// That what is taken is a prefix of what was put goes by a rule that the channel keeps under every schedule. Each outbox goes
/// by its own site's gate. Where one made fewer turns, a site of the link had stopped or its log was full, or the inbox met
/// want of memory.
///
/// The reports keep each text twice, once as put and once as taken, until they are dropped: so memory grows with the turns,
/// linearly in the sum of the lengths of all texts. Each put copies its text.
pub fn run_ruled_pair<
    K: Keeper + Send,
    L: Opening + Send + Sync,
    G: Gate + Send,
    N: Keeper + Send,
    M: Opening + Send + Sync,
    H: Gate + Send,
    R: Threads + Wait + Sync,
>(
    rt: &R,
    alloc: Global,
    first: &Site<K, L>,
    second: &Site<N, M>,
    first_end: &mut RuledEnd<L, G>,
    second_end: &mut RuledEnd<M, H>,
    turns: u64,
) -> Result<(PairReport, PairReport), PairError>
    requires few { turns ≤ 1000000000 }
    ensures ran { IfOk result (λ reports.
        IsPairReport G.answers (length first.now.layout.records) turns
        first_end.old.out_pass first_end.new.out_pass second_end.old.in_pass second_end.new.in_pass first_end.old.gate first_end.new.gate reports.0
        × IsPairReport H.answers (length second.now.layout.records) turns
        second_end.old.out_pass second_end.new.out_pass first_end.old.in_pass first_end.new.in_pass second_end.old.gate second_end.new.gate reports.1) }
    ensures apart { OnOk result (first.now.site ≢ second.now.site) }
    ensures refused { IfErr result (IsRefusal first.now.site second.now.site) }
    ensures first_stays { OnErr result (first_end.new ≡ first_end.old) }
    ensures second_stays { OnErr result (second_end.new ≡ second_end.old) }
{
    if first.site() == second.site() {
        return Err(PairError::NoLink);
    }
    let Ok(mut there) = new_direction(
        alloc,
        first_end.out_pass.count(),
        second_end.in_pass.count(),
    ) else {
        return Err(PairError::Memory);
    };
    let Ok(mut back) = new_direction(
        alloc,
        second_end.out_pass.count(),
        first_end.in_pass.count(),
    ) else {
        return Err(PairError::Memory);
    };
    let ((out, got), (out_back, got_back)) = run_both(
        rt, alloc, first, second, first_end, second_end, &mut there, &mut back, turns,
    );
    Ok((
        report_of(there, out, got),
        report_of(back, out_back, got_back),
    ))
}

// Runs both directions.
fn run_both<
    K: Keeper + Send,
    L: Opening + Send + Sync,
    G: Gate + Send,
    N: Keeper + Send,
    M: Opening + Send + Sync,
    H: Gate + Send,
    R: Threads + Wait + Sync,
>(
    rt: &R,
    alloc: Global,
    first: &Site<K, L>,
    second: &Site<N, M>,
    first_end: &mut RuledEnd<L, G>,
    second_end: &mut RuledEnd<M, H>,
    there: &mut Direction,
    back: &mut Direction,
    turns: u64,
) -> ((OutReport, InReport), (OutReport, InReport))
    requires few { turns ≤ 1000000000 }
    requires there { IsFresh there.old (length first_end.old.out_pass.receipts) (length second_end.old.in_pass.receipts) }
    requires back { IsFresh back.old (length second_end.old.out_pass.receipts) (length first_end.old.in_pass.receipts) }
    ensures there { HasRunBoth G.answers (length first.now.layout.records) turns
        first_end.old.out_pass first_end.new.out_pass second_end.old.in_pass second_end.new.in_pass first_end.old.gate first_end.new.gate
        there.old there.new result.0.0 result.0.1 }
    ensures back { HasRunBoth H.answers (length second.now.layout.records) turns
        second_end.old.out_pass second_end.new.out_pass first_end.old.in_pass first_end.new.in_pass second_end.old.gate second_end.new.gate
        back.old back.new result.1.0 result.1.1 }
{
    let RuledEnd {
        out_pass: first_out,
        in_pass: first_in,
        gate: first_gate,
    } = first_end;
    let RuledEnd {
        out_pass: second_out,
        in_pass: second_in,
        gate: second_gate,
    } = second_end;
    join_mut(
        rt,
        &mut || -> (OutReport, InReport)
            requires { IsSend K.row × IsSend L.row × IsSync L.row × IsSend G.row × IsSend N.row × IsSend M.row × IsSync M.row × IsSync R.row
                × (turns ≤ 1000000000) × IsFresh there.now (length first_out.now.receipts) (length second_in.now.receipts) }
            ensures { HasRunBoth G.answers (length first.entry.now.layout.records) turns first_out.entry.now first_out.exit.now second_in.entry.now second_in.exit.now
                first_gate.entry.now first_gate.exit.now there.entry.now there.exit.now result.0 result.1 }
        {
            run_direction(
                rt, alloc, first, first_out, first_gate, second, second_in, there, turns,
            )
        },
        &mut || -> (OutReport, InReport)
            requires { IsSend K.row × IsSend L.row × IsSync L.row × IsSend H.row × IsSend N.row × IsSend M.row × IsSync M.row × IsSync R.row
                × (turns ≤ 1000000000) × IsFresh back.now (length second_out.now.receipts) (length first_in.now.receipts) }
            ensures { HasRunBoth H.answers (length second.entry.now.layout.records) turns second_out.entry.now second_out.exit.now first_in.entry.now first_in.exit.now
                second_gate.entry.now second_gate.exit.now back.entry.now back.exit.now result.0 result.1 }
        {
            run_direction(
                rt,
                alloc,
                second,
                second_out,
                second_gate,
                first,
                first_in,
                back,
                turns,
            )
        },
    )
}
