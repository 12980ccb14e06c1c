//! What an event does at one site.
ghost use Rattle.std.specs.Prelude.{◌≡◌, ◌≤◌, None};
ghost use Rattle.admission_model.specs.declared.ask.Call.TheVariants.{Merge};
ghost use Rattle.admission_model.specs.Account.{Account};
ghost use Rattle.admission_model.specs.Knowledge.{grown};
ghost use Rattle.admission_model.specs.Serving.{reason};
ghost use Rattle.admission_core.specs.Core.{Stands, IsServed, core_view};
ghost use Rattle.admission_core.specs.Restored.{IsOwn};
ghost use Rattle.multi_site_world.specs.World.{place_of};
ghost use Rattle.multi_site_world.specs.Worlds.{reply_of_core};

use crate::{Event, WorldReply};
use admission_core::{RestoreError, SiteCore};
use admission_model::{Refusal, Reply};
use merge_core::{Delta, Layout};
use std::alloc::Global;

/// The site of an event.
pub fn place_of(event: Event) -> u16
    ensures { result ≡ place_of event }
{
    match event {
        Event::Call(i, _) => i,
        Event::Send(i) => i,
        Event::Take(i, _) => i,
        Event::Thin(i, _, _) => i,
        Event::Restart(i) => i,
        Event::Grow(i) => i,
    }
}

/// The reply of a core as the world's.
pub fn told(reply: Reply) -> WorldReply
    ensures { result ≡ reply_of_core reply }
{
    match reply {
        Reply::Refused(Refusal::Memory) => WorldReply::Memory,
        reply => WorldReply::Core(reply),
    }
}

/// The core takes a message, whose caller shows that a core of so many sites refuses it not: such a one need not judge it.
pub fn merged(core: &mut SiteCore, sites: u16, message: &Delta) -> Reply
    requires { core.old.layout.sites ≡ sites → reason (core_view core.old) (Merge message.now) ≡ None }
    ensures { IsServed core.old core.new (Merge message.now) result }
{
    if core.layout().sites() == sites {
        return core.merge_accepted(message);
    }
    core.merge(message)
}

/// The core that goes on under a layout with more sites, from what a stop leaves of it.
pub fn grown_core(alloc: Global, core: &SiteCore, layout: &Layout) -> Result<SiteCore, RestoreError>
    requires records { layout.now.records ≡ core.now.layout.records }
    requires sites { core.now.layout.sites ≤ layout.now.sites }
    ensures { (a : Account) → Stands a core.now → IsOwn (grown layout.now.sites a) result }
{
    let durable = core.durable()?;
    let whole = layout.try_copy(alloc)?;
    SiteCore::restore(alloc, whole, core.site(), durable)
}
