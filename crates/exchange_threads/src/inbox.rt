ghost use Rattle.std.specs.Prelude.{◌≡◌, ◌⊎◌, ℕ, ◌<◌, ◌≤◌, false, List, []};
ghost use Rattle.exchange_threads.specs.Turns.{IsMarked};
ghost use Rattle.exchange_threads.specs.declared.turn.Turn.TheVariants.{EndsRun};
ghost use Rattle.exchange_threads.specs.Fates.{HasFate};
ghost use Rattle.exchange_threads.specs.Inbox.{HearsText, HasTurned, HasRunIn, HasRunInAt, CanCount, CountsTurn};

use crate::fate::{Fate, merge_fate, unread_fate};
use crate::inlet::{Inlet, TakeError};
use crate::report::InReport;
use crate::turn::Turn;
use admission_core::Call;
use crossbeam_channel::Receiver;
use delta_codec::decode;
use durable_keeper::Keeper;
use session_book::{Opening, Pass, Site};
use std::alloc::Global;
use std::sync::Wait;

// A text that was taken: it is read, and the site merges its delta.
fn hear_text<K: Keeper, L: Opening, R: Wait>(
    rt: &R,
    alloc: Global,
    site: &Site<K, L>,
    pass: &mut Pass<L>,
    text: &[u8],
    report: &mut InReport,
) -> (Turn, Fate)
    requires room { 0 < report.old.refused.room }
    requires fits { CanCount report.old }
    ensures hears { HearsText text.now pass.old pass.new report.old report.new result.0 }
    ensures counts { CountsTurn report.old report.new }
    ensures fate { HasFate text.now result.1 pass.old pass.new report.old report.new result.0 }
{
    report.taken += 1;
    let place = pass.count();
    match decode(alloc, text) {
        Ok(delta) => {
            let reply = site.call(rt, pass, Call::Merge(delta));
            (report.note_merge(&reply), merge_fate(&reply, place))
        }
        Err(error) => {
            report.note_unread(error);
            (Turn::GoesOn, unread_fate(error))
        }
    }
}

// One turn. Room for the name of a refusal is made before a text is taken.
fn in_turn<K: Keeper, L: Opening, I: Inlet, R: Wait>(
    rt: &R,
    alloc: Global,
    site: &Site<K, L>,
    pass: &mut Pass<L>,
    inlet: &mut I,
    report: &mut InReport,
) -> Turn
    requires fits { CanCount report.old }
    requires accounts { (texts : List (List ℕ)) × I.accounts inlet.old pass.old.receipts texts report.old.memory false }
    ensures turned { (texts : List (List ℕ)) → I.accounts inlet.old pass.old.receipts texts report.old.memory false
        → HasTurned (I.accounts inlet.new pass.new.receipts) texts pass.old pass.new report.old report.new result }
    ensures counts { CountsTurn report.old report.new }
    ensures early { result ≡ EndsRun → I.closed inlet.new ⊎ IsMarked pass.new }
    ensures same { I.same inlet.old inlet.new }
{
    if report.refused.reserve().is_err() {
        report.memory += 1;
        return Turn::IsOver;
    }
    let text = match inlet.take(rt) {
        Ok(text) => text,
        Err(TakeError::Memory) => {
            report.memory += 1;
            return Turn::IsOver;
        }
        Err(TakeError::Closed) => return Turn::EndsRun,
    };
    let (turn, fate) = hear_text(rt, alloc, site, pass, text.as_bytes(), report);
    inlet.note(text, fate);
    turn
}

/// Runs an inbox of a site for so many turns, of which there are at most 10^9, at any inlet. As [`run_inbox`] does, whose
/// channel is one. The caller shows that the inlet's account begins with the pass's receipts; afterwards it has the texts
/// that were taken, and where it says that the last text ended the run, the pass has a mark. A take that is refused as
/// `Closed` ends the run, and one refused as `Memory` the turn.
pub fn run_inbox_at<K: Keeper, L: Opening, I: Inlet, R: Wait>(
    rt: &R,
    alloc: Global,
    site: &Site<K, L>,
    pass: &mut Pass<L>,
    inlet: &mut I,
    turns: u64,
) -> InReport
    requires few { turns ≤ 1000000000 }
    requires accounts { I.accounts inlet.old pass.old.receipts [] 0 false }
    ensures ran { HasRunInAt (I.closed inlet.new) (λ texts ended. I.accounts inlet.new pass.new.receipts texts result.memory ended) pass.old pass.new turns result }
    ensures same { I.same inlet.old inlet.new }
{
    let mut report = InReport::new(alloc);
    'turns: for t in 0..turns {
        let turn = in_turn(rt, alloc, site, pass, inlet, &mut report);
        if let Turn::EndsRun = turn {
            return report;
        }
    }
    report
}

/// Runs an inbox of a site for so many turns, of which there are at most 10^9. Each turn takes a text, reads it in place,
/// and has the site merge its delta. While the channel is empty the runner waits for a text. The run ends early once the site
/// answers `Frozen` or `LogFull`, or once the channel is closed: all its senders are gone, and each text that it held was
/// taken. A text that is no delta's, or whose delta the site refuses, is counted by the name of the refusal. A turn that
/// meets want of memory is counted, does nothing more, and the runner goes on; it takes no text where no name could be
/// counted. The receiver is dropped at the end, which closes the channel for its senders if it is the last.
///
/// Linear in the text, of which no copy is made, and in what the site copies of its delta. May wait, for the site's lock
/// and the channel.
pub fn run_inbox<K: Keeper, L: Opening, R: Wait>(
    rt: &R,
    alloc: Global,
    site: &Site<K, L>,
    pass: &mut Pass<L>,
    receiver: Receiver<String>,
    turns: u64,
) -> InReport
    requires few { turns ≤ 1000000000 }
    ensures { (texts : List (List ℕ)) × HasRunIn texts pass.old pass.new turns result }
{
    let mut inlet = receiver;
    run_inbox_at(rt, alloc, site, pass, &mut inlet, turns)
}
