//! One call at a core and its keeper: answered, copied, kept, and only then carried out.
ghost use Rattle.std.specs.Prelude.{◌≡◌, IfOk, IfSome, IsOk, IsSome, Ok, Some, None, [], true};
ghost use Rattle.admission_model.specs.declared.ask.Ask.{Ask};
ghost use Rattle.admission_model.specs.declared.ask.Call.TheVariants.{Ask as AskCall};
ghost use Rattle.admission_model.specs.declared.reply.Refusal.{Refusal};
ghost use Rattle.admission_model.specs.declared.reply.Refusal.TheVariants.{StoreFault as NoStore};
ghost use Rattle.admission_model.specs.declared.reply.Reply.TheVariants.{Refused};
ghost use Rattle.admission_model.specs.Account.{Account};
ghost use Rattle.admission_model.specs.Durable.{IsEmpty, change_between};
ghost use Rattle.admission_model.specs.Serving.{after};
ghost use Rattle.admission_core.specs.Core.{IsCore, Stands, is_memory};
ghost use Rattle.durable_keeper.specs.Keeping.{IsChange};
ghost use Rattle.durable_keeper.specs.declared.error.KeeperError.TheVariants.{Memory, StoreFault};
ghost use Rattle.desk_log.specs.Desk.{IsMadeFor, IsStep, IsCopied, KeepsChange};

use admission_core::{Ask, Call, Change, Refusal, Reply, SiteCore, is_memory};
use durable_keeper::{Keeper, KeeperError};
use std::alloc::{AllocError, Global};

/// A reply with its copies: one for the log, and one for a receipt where that is wanted.
#[derive(Drop)]
pub(crate) struct Served {
    pub reply: Reply,
    pub logged: Reply,
    pub receipt: Option<Reply>,
}

/// An equal call. A question takes no memory.
pub(crate) fn copied_call(alloc: Global, call: &Call) -> Result<Call, AllocError>
    ensures copy { IfOk result (λ copy. copy ≡ call.now) }
    ensures ask { (ask : Ask) → call.now ≡ AskCall ask → result ≡ Ok (AskCall ask) }
{
    if let Call::Ask(ask) = call {
        return Ok(Call::Ask(*ask));
    }
    call.try_copy(alloc)
}

// An equal reply. A refusal takes no memory.
fn copied_reply(alloc: Global, reply: &Reply) -> Result<Reply, AllocError>
    ensures copy { IfOk result (λ copy. copy ≡ reply.now) }
    ensures refused { (refusal : Refusal) → reply.now ≡ Refused refusal → result ≡ Ok (Refused refusal) }
{
    if let Reply::Refused(refusal) = reply {
        return Ok(Reply::Refused(*refusal));
    }
    reply.try_copy(alloc)
}

// The same, where it is wanted.
fn copied_if(alloc: Global, wanted: bool, reply: &Reply) -> Result<Option<Reply>, AllocError>
    ensures copy { IfOk result (λ copy. wanted ≡ true → copy ≡ Some reply.now) }
    ensures refused { (refusal : Refusal) → reply.now ≡ Refused refusal → IsOk result }
{
    if !wanted {
        return Ok(None);
    }
    let copy = copied_reply(alloc, reply)?;
    Ok(Some(copy))
}

/// Commits a change; where nothing changes, no store is called.
pub fn commit_if_changed<K: Keeper>(keeper: &mut K, change: &Change) -> Result<(), KeeperError>
    requires change { IsChange (K.layout keeper.old) (K.site keeper.old) change.now }
    requires no_fault { K.faults_of keeper.old ≡ 0 }
    ensures kept { KeepsChange K.Keeper keeper.old keeper.new change.now result }
    ensures idle { change.now.cells ≡ [] → change.now.session ≡ None → keeper.new ≡ keeper.old }
    ensures honest { K.is_honest keeper.new → K.is_honest keeper.old }
    ensures layout { K.layout keeper.new ≡ K.layout keeper.old }
    ensures site { K.site keeper.new ≡ K.site keeper.old }
{
    if change.is_empty() {
        return Ok(());
    }
    keeper.commit(change)
}

// What is answered where a change was not kept: nothing where no memory was found, else the store's fault.
fn not_kept(error: KeeperError, receipt: bool) -> Option<Served>
    ensures memory { error ≡ Memory → result ≡ None }
    ensures fault { error ≡ StoreFault → IfSome result (λ s. IsCopied receipt s × (s.reply ≡ Refused NoStore)) }
    ensures told { error ≡ StoreFault → IsSome result }
{
    if error == KeeperError::Memory {
        return None;
    }
    let fault = Refusal::StoreFault;
    Some(Served {
        reply: Reply::Refused(fault),
        logged: Reply::Refused(fault),
        receipt: if receipt {
            Some(Reply::Refused(fault))
        } else {
            None
        },
    })
}

/// Answers a call, copies the reply, has the change kept, and only then carries the call out. `None` where no memory
/// was found.
pub(crate) fn step<K: Keeper>(
    alloc: Global,
    core: &mut SiteCore,
    keeper: &mut K,
    call: &Call,
    receipt: bool,
) -> Option<Served>
    requires core { IsCore core.old }
    requires made_for { IsMadeFor K.Keeper keeper.old core.old.layout core.old.site }
    requires no_fault { K.faults_of keeper.old ≡ 0 }
    ensures step { (a : Account) → Stands a core.old → IsStep K.Keeper a core.old core.new keeper.old keeper.new call.now result }
    ensures idle { (a : Account) → Stands a core.old → IsEmpty (change_between a (after a call.now)) → keeper.new ≡ keeper.old }
    ensures made_for { IsMadeFor K.Keeper keeper.new core.old.layout core.old.site }
    ensures honest { K.is_honest keeper.new → K.is_honest keeper.old }
    ensures copied { IfSome result (IsCopied receipt) }
{
    let prepared = core.prepare(call);
    let Ok(logged) = copied_reply(alloc, prepared.reply()) else {
        return None;
    };
    let Ok(copy) = copied_if(alloc, receipt, prepared.reply()) else {
        return None;
    };
    if is_memory(&logged) {
        return None;
    }
    if let Err(error) = commit_if_changed(keeper, prepared.change()) {
        return not_kept(error, receipt);
    }
    let reply = core.apply(prepared);
    Some(Served {
        reply,
        logged,
        receipt: copy,
    })
}
