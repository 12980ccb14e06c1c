//! Two sites at work with links that keep their order between them: one function opens, runs and closes both.
ghost use Rattle.std.specs.Prelude.{◌≡◌, ◌<◌, ◌≤◌, ◌+◌, true, ◌⊎◌, [], ◌∷◌, IfOk, OnOk, List, length};
ghost use denote.Param.Send.{IsSend, IsSync};
ghost use Rattle.admission_core.specs.Kept.{DurableState};
ghost use Rattle.session_book.specs.Passes.{new_pass};
ghost use Rattle.session_book.specs.Sites.{new_passes};
ghost use Rattle.ordered_link.specs.Rule.{link_capacity};
ghost use Rattle.run_engine.specs.Rounds.{HasHelped, HaveRounds};
ghost use Rattle.run_engine.specs.Tasks.{HasCalled};
ghost use Rattle.run_engine.specs.Runs.{AreSiteRuns, IsClosedWith, IsOpenedFor};
ghost use Rattle.run_engine.specs.Scripts.{asks_of};

use crate::callers::is_logged;
use crate::script::Asked;
use crate::sites::{asks_of, opened};
use crate::tasks::{AlwaysOpen, Caller, run_caller};
use admission_core::{Ask, Call};
use durable_keeper::{Keeper, MemoryKeeper};
use merge_core::Layout;
use ruled_pair::{RuledEnd, run_ruled_pair};
use session_book::{Opening, Pass, Site, Transcript};
use std::alloc::{AllocError, Global};
use std::marker::Brand;
use std::sync::Wait;
use std::sync::ledger::{Blank, Ledger};
use std::thread::{Threads, join_mut};

// The passes of a site: its caller's, and those of its two runners.
const PASSES: u16 = 3;

// The most turns of a round. A link holds 16 texts: those of 15 turns, and the word that ends them. So the sender of a round
// never waits for its receiver, and a round ends even where no thread can be started and the sender runs before it.
const ROUND_TURNS: u64 = 15;

/// What works at one of two sites: its caller, and both ends of its links.
#[derive(Drop)]
pub struct Work<L: Ledger> {
    caller: Caller<L>,
    end: RuledEnd<L, AlwaysOpen>,
}

// A site that is open, and what works at it.
#[derive(Drop)]
struct Side<L: Opening> {
    site: Site<MemoryKeeper, L>,
    work: Work<L>,
}

/// As [`crate::sites::run_sites`] does, at the two sites of a layout. What arrives at one is a prefix of what the other sent.
pub fn run_two<R: Threads + Wait + Sync>(
    rt: &R,
    alloc: Global,
    layout: &Layout,
    turns: u64,
    asked: &[Asked],
) -> Result<Vec<Transcript>, AllocError>
    requires two { layout.now.sites ≡ 2 }
    requires few { turns ≤ 1000000000 }
    ensures { IfOk result (λ transcripts. AreSiteRuns layout.now asked.now transcripts.items) }
{
    let one = Blank::new(u64::from(PASSES));
    let other = Blank::new(u64::from(PASSES));
    run_two_over::<Brand, Brand, R>(rt, alloc, one, other, layout, turns, asked)
}

// The same over the ledgers of both openings.
fn run_two_over<L: Opening + Send + Sync, M: Opening + Send + Sync, R: Threads + Wait + Sync>(
    rt: &R,
    alloc: Global,
    one: Blank,
    other: Blank,
    layout: &Layout,
    turns: u64,
    asked: &[Asked],
) -> Result<Vec<Transcript>, AllocError>
    requires name { one.name ≡ L.name }
    requires parts { one.parts ≡ L.parts }
    requires unknown { (d : DurableState) → ¬ L.kept d }
    requires one_each { one.parts ≡ 3 }
    requires other_name { other.name ≡ M.name }
    requires other_parts { other.parts ≡ M.parts }
    requires other_unknown { (d : DurableState) → ¬ M.kept d }
    requires other_each { other.parts ≡ 3 }
    requires two { layout.now.sites ≡ 2 }
    requires few { turns ≤ 1000000000 }
    ensures { IfOk result (λ transcripts. AreSiteRuns layout.now asked.now transcripts.items) }
{
    let mut side = side_of::<L>(alloc, one, layout, 0, asked)?;
    let mut peer = side_of::<M>(alloc, other, layout, 1, asked)?;
    work_both(
        rt,
        alloc,
        &side.site,
        &peer.site,
        &mut side.work,
        &mut peer.work,
        turns,
    )?;
    let first = close_side(rt, alloc, side)?;
    let second = close_side(rt, alloc, peer)?;
    let transcripts = vec![in alloc; first, second]?;
    Ok(transcripts)
}

// One of two sites: it is open, and its caller is to ask of it what the script does.
fn side_of<L: Opening>(
    alloc: Global,
    blank: Blank,
    layout: &Layout,
    number: u16,
    asked: &[Asked],
) -> Result<Side<L>, AllocError>
    requires name { blank.name ≡ L.name }
    requires parts { blank.parts ≡ L.parts }
    requires unknown { (d : DurableState) → ¬ L.kept d }
    requires one_each { blank.parts ≡ 3 }
    ensures opened { IfOk result (λ side. IsOpenedFor layout.now number 3 side.site (new_passes 3)) }
    ensures pass { IfOk result (λ side. side.work.caller.pass ≡ new_pass 0) }
    ensures asks { IfOk result (λ side. side.work.caller.asks.items ≡ asks_of number asked.now) }
{
    let (site, passes) = opened::<L>(alloc, blank, layout.try_copy(alloc)?, number, PASSES)?;
    let asks = asks_of(alloc, number, asked)?;
    let work = work_of(passes, asks);
    Ok(Side { site, work })
}

// What is to work with the passes of a site: its caller with pass 0, and the ends of its links with 1, for what it sends, and 2.
fn work_of<L: Opening>(passes: Vec<Pass<L>>, asks: Vec<Ask>) -> Work<L>
    requires { passes.items ≡ new_passes 3 }
    ensures pass { result.caller.pass ≡ new_pass 0 }
    ensures ends { (result.end.out_pass ≡ new_pass 1) × (result.end.in_pass ≡ new_pass 2) }
    ensures asks { result.caller.asks ≡ asks }
{
    let mut passes = passes;
    let in_pass = passes.pop().unwrap();
    let out_pass = passes.pop().unwrap();
    let pass = passes.pop().unwrap();
    Work {
        caller: Caller {
            pass,
            asks,
            answered: false,
        },
        end: RuledEnd {
            out_pass,
            in_pass,
            gate: AlwaysOpen,
        },
    }
}

// Runs the callers of both sites and both links, a thread for each. `Err` where memory was refused for a link.
fn work_both<
    K: Keeper + Send,
    L: Opening + Send + Sync,
    N: Keeper + Send,
    M: Opening + Send + Sync,
    R: Threads + Wait + Sync,
>(
    rt: &R,
    alloc: Global,
    site: &Site<K, L>,
    peer: &Site<N, M>,
    work: &mut Work<L>,
    peer_work: &mut Work<M>,
    turns: u64,
) -> Result<(), AllocError>
    requires few { turns ≤ 1000000000 }
    ensures called { HasCalled work.old.caller work.new.caller }
    ensures peer_called { HasCalled peer_work.old.caller peer_work.new.caller }
    ensures linked { IfOk result (λ _. HaveRounds (length site.now.layout.records) (length peer.now.layout.records) turns
        work.old.end work.new.end peer_work.old.end peer_work.new.end) }
{
    let Work { caller, end } = work;
    let Work {
        caller: peer_caller,
        end: peer_end,
    } = peer_work;
    let (linked, ()) = join_mut(
        rt,
        &mut || -> bool
            requires { IsSend K.row × IsSend L.row × IsSync L.row × IsSend N.row × IsSend M.row × IsSync M.row × IsSync R.row × (turns ≤ 1000000000) }
            ensures { result ≡ true → HaveRounds (length site.entry.now.layout.records) (length peer.entry.now.layout.records) turns
                end.entry.now end.exit.now peer_end.entry.now peer_end.exit.now }
        { run_rounds(rt, alloc, site, peer, end, peer_end, turns) },
        &mut || -> ()
            requires { IsSend K.row × IsSend L.row × IsSync L.row × IsSend N.row × IsSend M.row × IsSync M.row × IsSync R.row }
        { call_both(rt, site, peer, caller, peer_caller) },
    );
    if !linked {
        return Err(AllocError);
    }
    Ok(())
}

// The turns of the next round, of so many that are left.
fn round_of(left: u64) -> u64
    ensures room { result + 1 ≤ link_capacity }
    ensures full { (result ≡ left) ⊎ (result + 1 ≡ link_capacity) }
    ensures some { 0 < left → 0 < result }
    ensures within { result ≤ left }
{
    left.min(ROUND_TURNS)
}

// Runs both links for so many turns, in rounds, each over new links. Whether memory sufficed for all of them.
fn run_rounds<
    K: Keeper + Send,
    L: Opening + Send + Sync,
    N: Keeper + Send,
    M: Opening + Send + Sync,
    R: Threads + Wait + Sync,
>(
    rt: &R,
    alloc: Global,
    site: &Site<K, L>,
    peer: &Site<N, M>,
    end: &mut RuledEnd<L, AlwaysOpen>,
    peer_end: &mut RuledEnd<M, AlwaysOpen>,
    turns: u64,
) -> bool
    requires few { turns ≤ 1000000000 }
    ensures { result ≡ true → HaveRounds (length site.now.layout.records) (length peer.now.layout.records) turns end.old end.new peer_end.old peer_end.new }
{
    let mut begun = 0;
    'rounds: while begun < turns {
        let round = round_of(turns - begun);
        if !ask_help(rt, site, &mut end.out_pass, begun, round) {
            return false;
        }
        if !ask_help(rt, peer, &mut peer_end.out_pass, begun, round) {
            return false;
        }
        let Ok((_there, _back)) = run_ruled_pair(rt, alloc, site, peer, end, peer_end, round) else {
            return false;
        };
        begun += round;
    }
    true
}

// Asks a site for help with each record whose turn comes in so many turns of the run, from this one on. Whether each reply
// was logged; the first that is not ends it. The turns of a round begin at 0, so its outbox asks for the first records only;
// that is enough where a round has a turn for each record.
fn ask_help<K: Keeper, L: Opening, R: Wait>(
    rt: &R,
    site: &Site<K, L>,
    pass: &mut Pass<L>,
    from: u64,
    turns: u64,
) -> bool
    requires few { from + turns ≤ 1000000000 }
    ensures { result ≡ true → HasHelped (length site.now.layout.records) from turns pass.old pass.new }
{
    let records = u64::from(site.records());
    if records <= ROUND_TURNS {
        return true;
    }
    'turns: for n in 0..turns {
        let r = ((from + n) % records) as u16;
        let reply = site.call(rt, pass, Call::Ask(Ask::Help { r }));
        if !is_logged(&reply) {
            return false;
        }
    }
    true
}

// Runs the callers of both sites, a thread for each.
fn call_both<
    K: Keeper + Send,
    L: Opening + Send + Sync,
    N: Keeper + Send,
    M: Opening + Send + Sync,
    R: Threads + Wait + Sync,
>(rt: &R, site: &Site<K, L>, peer: &Site<N, M>, caller: &mut Caller<L>, peer_caller: &mut Caller<M>)
    ensures called { HasCalled caller.old caller.new }
    ensures peer_called { HasCalled peer_caller.old peer_caller.new }
{
    join_mut(
        rt,
        &mut || run_caller(rt, site, caller),
        &mut || run_caller(rt, peer, peer_caller),
    );
}

// Closes a site, where each of its caller's replies was logged: what it leaves.
fn close_side<L: Opening, R: Wait>(
    rt: &R,
    alloc: Global,
    side: Side<L>,
) -> Result<Transcript, AllocError>
    ensures closed { IfOk result (IsClosedWith side.site side.work.caller.pass) }
    ensures answered { OnOk result (side.work.caller.answered ≡ true) }
{
    let Side { site, work } = side;
    let Work { caller, end } = work;
    if !caller.answered {
        return Err(AllocError);
    }
    let passes = vec![in alloc; end.out_pass, end.in_pass, caller.pass]?;
    match site.close(rt, passes) {
        Ok((transcript, _keeper)) => Ok(transcript),
        Err(_) => Err(AllocError),
    }
}
