ghost use Rattle.std.specs.Prelude.{◌≡◌, ℕ, ◌<◌, ◌≤◌, All, IsSome, length, slice_index_or};
ghost use Rattle.exchange_threads.specs.Ports.{HasRunPort};

use crate::gate::Gate;
use crate::inbox::run_inbox;
use crate::outbox::run_outbox;
use crate::report::{InReport, OutReport};
use crossbeam_channel::{Receiver, Sender};
use durable_keeper::Keeper;
use session_book::{Opening, Pass, Site};
use std::alloc::Global;
use std::sync::Wait;
use std::sync::ledger::Ledger;
use std::thread;
use std::thread::Threads;

/// The end of a link that a port runs.
#[derive(Drop)]
pub enum End<G> {
    /// It sends, where its gate is open.
    Outlet(Sender<String>, G),
    /// It receives.
    Inlet(Receiver<String>),
}

/// What a runner did.
#[derive(Debug, Drop)]
pub enum Report {
    Sent(OutReport),
    Got(InReport),
}

/// One runner of a site: the pass by which it calls the site, the end of its link before it ran, and its report after.
#[derive(Drop)]
pub struct Port<L: Ledger, G> {
    pub pass: Pass<L>,
    pub link: Option<End<G>>,
    pub report: Option<Report>,
}

/// Runs one port of a site for so many turns, at most 10^9, on the thread that it is called on. The caller shows an end in
/// the port; afterwards it has its report and no end. For who starts the threads of a site's ports beside others. May wait.
pub fn run_port<K: Keeper, L: Opening, G: Gate + Drop, R: Wait>(
    rt: &R,
    alloc: Global,
    site: &Site<K, L>,
    port: &mut Port<L, G>,
    turns: u64,
)
    requires few { turns ≤ 1000000000 }
    requires there { IsSome port.old.link }
    ensures { HasRunPort G.answers (length site.now.layout.records) turns port.old port.new }
{
    let Port { pass, link, report } = port;
    match link.take() {
        Some(End::Outlet(sender, gate)) => {
            let told = run_outbox(rt, alloc, site, pass, gate, sender, turns);
            *report = Some(Report::Sent(told));
        }
        Some(End::Inlet(receiver)) => {
            let heard = run_inbox(rt, alloc, site, pass, receiver, turns);
            *report = Some(Report::Got(heard));
        }
        None => {}
    }
}

/// Runs the ports of one site for so many turns, at most 10^9, a thread for each, and returns once every runner has
/// ended. The caller shows an end in each port; afterwards each has its report and no end. Where a thread can't be
/// started, runners run in turn, and then may wait for ever for one another. May wait.
pub fn run_links<
    K: Keeper + Send,
    L: Opening + Send + Sync,
    G: Gate + Drop + Send,
    R: Threads + Wait + Sync,
>(rt: &R, alloc: Global, site: &Site<K, L>, ports: &mut [Port<L, G>], turns: u64)
    requires few { turns ≤ 1000000000 }
    requires there { All (λ p. IsSome p.link) ports.old }
    ensures { (i : ℕ) (d : _) → i < length ports.old → HasRunPort G.answers (length site.now.layout.records) turns (slice_index_or ports.old i d) (slice_index_or ports.new i d) }
{
    let count = ports.len();
    if count == 0 {
        return;
    }
    thread::for_each_mut(
        rt,
        ports,
        count,
        &|_, port| { run_port(rt, alloc, site, port, turns) },
    );
}
