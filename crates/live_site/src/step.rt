//! One call at a core, its keeper and a log.
ghost use Rattle.std.specs.Prelude.{◌≡◌, ◌++◌, IfOk, MatchOption, None, Some, [], false, string_bytes};
ghost use Rattle.admission_model.specs.declared.reply.Refusal.{Refusal};
ghost use Rattle.admission_model.specs.declared.reply.Reply.TheVariants.{Refused};
ghost use Rattle.admission_model.specs.Account.{Account};
ghost use Rattle.admission_model.specs.View.{view_of};
ghost use Rattle.admission_model.specs.Serving.{after, answer, reason, reply_of};
ghost use Rattle.admission_model.specs.Durable.{IsEmpty, change_between};
ghost use Rattle.admission_core.specs.Core.{IsCore, Stands, core_view, is_memory};
ghost use Rattle.durable_keeper.specs.Keeping.{IsChange};
ghost use Rattle.desk_log.specs.Desk.{IsMadeFor};
ghost use Rattle.live_site.specs.Overfull.{overfull_in};
ghost use Rattle.live_site.specs.Live.{IsLiveStep, freezes, is_outdated, line_of};
ghost use Rattle.live_site.specs.Steps.{IsNotKept, KeepsCall, KeepsMark, is_refused, unlogged};

use crate::call_log::{CallLog, LogFault};
use crate::live_site::Outcome;
use crate::overfull::overfull_in;
use admission_core::{Call, Change, Refusal, Reply, SiteCore, is_memory};
use desk_log::commit_if_changed;
use durable_keeper::{Keeper, KeeperError};
use live_keeper::LiveKeeper;
use script_text::push_reply;
use std::alloc::AllocError;

// The reply is a refusal.
fn is_refused(reply: &Reply) -> bool
    ensures { result ≡ is_refused reply.now }
{
    matches!(reply, Reply::Refused(_))
}

/// The reply shows that the site's store is older than what others have seen.
pub(crate) fn is_outdated(reply: &Reply) -> bool
    ensures { result ≡ is_outdated reply.now }
{
    matches!(reply, Reply::Refused(Refusal::OwnRowAhead { .. }))
}

// The least record to which a call would give too many rights, where its reply is no refusal.
fn overfull_at(core: &SiteCore, call: &Call, reply: &Reply) -> Option<u16>
    requires core { IsCore core.now }
    requires refused { (x : Refusal) → reason (core_view core.now) call.now ≡ Some x → reply.now ≡ Refused x }
    requires answered { reason (core_view core.now) call.now ≡ None → reply.now ≡ answer (core_view core.now) call.now }
    ensures { MatchOption result
        (reason (core_view core.now) call.now ≡ None → overfull_in (core_view core.now) call.now ≡ None)
        (λ r. (reason (core_view core.now) call.now ≡ None) × (overfull_in (core_view core.now) call.now ≡ Some r)) }
{
    if is_refused(reply) {
        return None;
    }
    overfull_in(core, call)
}

// Has the mark kept that the store is outdated.
fn mark<K: LiveKeeper>(keeper: &mut K) -> Result<(), KeeperError>
    ensures marked { KeepsMark K.Keeper K.is_outdated keeper.old keeper.new result }
    ensures honest { K.is_honest keeper.new → K.is_honest keeper.old }
    ensures layout { K.layout keeper.new ≡ K.layout keeper.old }
    ensures site { K.site keeper.new ≡ K.site keeper.old }
{
    keeper.mark_outdated()
}

// Has kept what goes with a reply: the mark where it shows that the store is outdated, and else the change. Behind such a
// reply nothing changes.
fn keep_call<K: LiveKeeper>(
    keeper: &mut K,
    reply: &Reply,
    change: &Change,
) -> Result<(), KeeperError>
    requires change { IsChange (K.layout keeper.old) (K.site keeper.old) change.now }
    requires no_fault { K.faults_of keeper.old ≡ 0 }
    ensures kept { KeepsCall K.Keeper K.is_outdated (is_outdated reply.now) keeper.old keeper.new change.now result }
    ensures idle { is_outdated reply.now ≡ false → change.now.cells ≡ [] → change.now.session ≡ None → keeper.new ≡ keeper.old }
    ensures honest { K.is_honest keeper.new → K.is_honest keeper.old }
    ensures layout { K.layout keeper.new ≡ K.layout keeper.old }
    ensures site { K.site keeper.new ≡ K.site keeper.old }
{
    if is_outdated(reply) {
        return mark(keeper);
    }
    commit_if_changed(keeper, change)
}

// How a log's fault is told.
fn unlogged(fault: LogFault) -> Outcome
    ensures { result ≡ unlogged fault }
{
    match fault {
        LogFault::Memory => Outcome::Memory,
        LogFault::Failed => Outcome::LogFailed,
    }
}

// What is told where a change was not kept. After want of memory the log takes its last entry back; after the store's
// fault it is not known whether that was kept.
fn not_kept<L: CallLog>(log: &mut L, error: KeeperError) -> Outcome
    ensures { IsNotKept L.CallLog log.old log.new error result }
{
    if error == KeeperError::StoreFault {
        return Outcome::StoreFault;
    }
    if log.take_back() {
        return Outcome::Memory;
    }
    Outcome::LogFailed
}

// Writes a reply and LF.
fn push_line(text: &mut String, reply: &Reply) -> Result<(), AllocError>
    ensures { IfOk result (λ _. string_bytes text.new ≡ string_bytes text.old ++ line_of reply.now) }
{
    push_reply(text, reply)?;
    text.push_str("\n")
}

/// Answers a call, writes the reply and LF behind the text, hands both to the log, has the change kept, or the mark that the
/// store is outdated, and only then carries the call out.
pub(crate) fn step<K: LiveKeeper, L: CallLog>(
    core: &mut SiteCore,
    keeper: &mut K,
    frozen: &mut bool,
    log: &mut L,
    call: &Call,
    text: &mut String,
) -> Outcome
    requires core { IsCore core.old }
    requires made_for { IsMadeFor K.Keeper keeper.old core.old.layout core.old.site }
    requires no_fault { K.faults_of keeper.old ≡ 0 }
    requires running { frozen.old ≡ false }
    ensures step { (a : Account) → Stands a core.old → IsLiveStep K.Keeper K.is_outdated L.CallLog a core.old core.new keeper.old keeper.new
        log.old log.new call.now (string_bytes text.old) (string_bytes text.new) result }
    ensures freezing { (a : Account) → Stands a core.old → frozen.new ≡ freezes a call.now result }
    ensures idle { (a : Account) → Stands a core.old → is_outdated (reply_of (view_of a) call.now) ≡ false → IsEmpty (change_between a (after a call.now)) → keeper.new ≡ keeper.old }
    ensures made_for { IsMadeFor K.Keeper keeper.new core.old.layout core.old.site }
    ensures honest { K.is_honest keeper.new → K.is_honest keeper.old }
{
    let prepared = core.prepare(call);
    if is_memory(prepared.reply()) {
        return Outcome::Memory;
    }
    if let Some(r) = overfull_at(core, call, prepared.reply()) {
        return Outcome::TooManySeats(r);
    }
    if push_line(text, prepared.reply()).is_err() {
        return Outcome::Memory;
    }
    if let Err(fault) = log.enter(core.layout(), call, prepared.reply()) {
        return unlogged(fault);
    }
    if let Err(error) = keep_call(keeper, prepared.reply(), prepared.change()) {
        *frozen = error == KeeperError::StoreFault;
        return not_kept(log, error);
    }
    let reply = core.apply(prepared);
    *frozen = is_outdated(&reply);
    Outcome::Answered
}
