//! The entries of one run, replayed at a core.
ghost use Rattle.std.specs.Prelude.{◌≡◌, ◌↔◌, ◌<◌, ◌≤◌, ◌+◌, ◌-◌, IfOk, IsSome, IsTrue, None, Some, false, if◌then◌else◌, length, take, List};
ghost use Rattle.merge_core.specs.declared.delta.Row.{Row};
ghost use Rattle.admission_model.specs.declared.ask.Call.TheVariants.{Snapshot};
ghost use Rattle.admission_model.specs.Account.{Account};
ghost use Rattle.admission_model.specs.View.{view_of};
ghost use Rattle.admission_model.specs.Serving.{after, reply_of};
ghost use Rattle.admission_model.specs.Durable.{change_between, IsEmpty};
ghost use Rattle.admission_core.specs.Core.{SameContent, Stands, is_memory};
ghost use Rattle.desk_log.specs.Log.{is_fault, account_after};
ghost use Rattle.log_replay.specs.Replay.{IsFollowed, IsEnd, IsEndable, TellsOwn};

use crate::own::{OwnRows, own_rows};
use admission_core::{Call, Refusal, Reply, SiteCore, is_memory};
use desk_log::Entry;
use desk_log::same::same_reply;
use std::alloc::{AllocError, Global};

/// How far the cut is: so many entries ahead, or behind, and then with the own rows there.
#[derive(Debug, Drop)]
pub(crate) struct Mark {
    pub left: u64,
    pub own: Option<OwnRows>,
}

// The reply is the store's fault.
pub(crate) fn is_fault(reply: &Reply) -> bool
    ensures { result ≡ is_fault reply.now }
{
    matches!(reply, Reply::Refused(Refusal::StoreFault))
}

// Whether a reply is the one that a core gave, unless that is want of memory.
#[inline(always)]
fn is_same(reply: &Reply, given: Reply) -> Result<bool, AllocError>
    ensures { IfOk result (λ ok. (IsTrue ok ↔ (reply.now ≡ given)) × (is_memory given ≡ false)) }
{
    if is_memory(&given) {
        return Err(AllocError);
    }
    Ok(same_reply(reply, &given))
}

// Whether a reply to a request for a snapshot is the model's. Takes no memory.
fn is_shown(core: &SiteCore, reply: &Reply) -> bool
    ensures { (a : Account) → Stands a core.now → IsTrue result ↔ (reply.now ≡ reply_of (view_of a) Snapshot) }
{
    match reply {
        Reply::Snapshot(delta) => core.is_snapshot(delta),
        _ => false,
    }
}

// Carries a call out: whether a reply to it is the model's.
fn is_answer(core: &mut SiteCore, call: &Call, reply: &Reply) -> Result<bool, AllocError>
    ensures same { IfOk result (λ ok. (a : Account) → Stands a core.old → IsTrue ok ↔ (reply.now ≡ reply_of (view_of a) call.now)) }
    ensures stands { IfOk result (λ ok. (a : Account) → Stands a core.old → Stands (after a call.now) core.new) }
{
    match call {
        Call::Ask(ask) => is_same(reply, core.ask(*ask)),
        Call::Merge(delta) => is_same(reply, core.merge(delta)),
        Call::Snapshot => Ok(is_shown(core, reply)),
    }
}

// Replays an entry: whether its reply is the model's. No call of the model is answered by a fault of the store; any other
// entry is carried out, whether its reply is the model's or not. A request for a snapshot takes no memory.
pub(crate) fn follow_one(core: &mut SiteCore, entry: &Entry) -> Result<bool, AllocError>
    ensures same { IfOk result (λ ok. (a : Account) → Stands a core.old → IsTrue ok ↔ (entry.now.reply ≡ reply_of (view_of a) entry.now.call)) }
    ensures fault { IfOk result (λ ok. IsTrue ok → is_fault entry.now.reply ≡ false) }
    ensures stands { IfOk result (λ ok. (a : Account) → Stands a core.old → Stands (if is_fault entry.now.reply then a else after a entry.now.call) core.new) }
{
    if is_fault(&entry.reply) {
        return Ok(false);
    }
    is_answer(core, &entry.call, &entry.reply)
}

/// Replays entries at a core, up to the first whose reply is not the model's: how many come before it.
pub(crate) fn follow(core: &mut SiteCore, entries: &[Entry]) -> Result<usize, AllocError>
    ensures followed { IfOk result (λ n. (a : Account) → Stands a core.old → IsFollowed a entries.now n core.new) }
    ensures within { IfOk result (λ n. n ≤ length entries.now) }
{
    let mut n = 0;
    let mut rest = entries;
    'entries: while let [entry, later @ ..] = rest {
        if !follow_one(core, entry)? {
            return Ok(n);
        }
        n += 1;
        rest = later;
    }
    Ok(n)
}

/// The same, and where the cut is before one of the entries, the own rows are taken there.
pub(crate) fn follow_past(
    alloc: Global,
    core: &mut SiteCore,
    entries: &[Entry],
    mark: &mut Mark,
) -> Result<usize, AllocError>
    requires { (a : Account) × Stands a core.old }
    ensures followed { IfOk result (λ n. (a : Account) → Stands a core.old → IsFollowed a entries.now n core.new) }
    ensures within { IfOk result (λ n. n ≤ length entries.now) }
    ensures taken { IfOk result (λ n. IsSome mark.old.own → mark.new ≡ mark.old) }
    ensures past { IfOk result (λ n. mark.old.own ≡ None → length entries.now ≤ mark.old.left → mark.new ≡ record { left = mark.old.left - length entries.now; own = None }) }
    ensures here { IfOk result (λ n. mark.old.own ≡ None → mark.old.left < length entries.now → length entries.now ≤ n + 1
        → (rows : List Row) × ((mark.new.own ≡ Some rows) × ((a : Account) → Stands a core.old → TellsOwn (length core.old.layout.records) rows (account_after a (take mark.old.left entries.now))))) }
{
    if mark.own.is_some() {
        return follow(core, entries);
    }
    let all = entries.len() as u64;
    if mark.left >= all {
        mark.left -= all;
        return follow(core, entries);
    }
    let until = mark.left as usize;
    let n = follow(core, &entries[..until])?;
    if n < until {
        return Ok(n);
    }
    mark.own = Some(own_rows(alloc, core)?);
    let more = follow(core, &entries[until..])?;
    Ok(until + more)
}

// Whether a call changes what a stop leaves of the site. The core is as it was, its room aside.
fn changes(core: &mut SiteCore, call: &Call) -> Result<bool, AllocError>
    ensures content { SameContent core.old core.new }
    ensures answer { IfOk result (λ b. (a : Account) → Stands a core.old → IsTrue b ↔ (¬ IsEmpty (change_between a (after a call.now)))) }
{
    let prepared = core.prepare(call);
    if is_memory(prepared.reply()) {
        return Err(AllocError);
    }
    Ok(!prepared.change().is_empty())
}

/// Whether what is left of a run's entries may end it: nothing, or one call in doubt. The core is as it was, its room
/// aside. Where something else is left, it may be any core.
pub(crate) fn may_end(core: &mut SiteCore, left: &[Entry]) -> Result<bool, AllocError>
    ensures content { SameContent core.old core.new }
    ensures answer { IfOk result (λ b. (a : Account) → (IsEndable left.now → Stands a core.old) → IsTrue b ↔ IsEnd a left.now) }
{
    let [entry, later @ ..] = left else {
        return Ok(true);
    };
    if !later.is_empty() || !is_fault(&entry.reply) {
        return Ok(false);
    }
    changes(core, &entry.call)
}
