//! The world that runs: the cores of all sites, and the messages that they sent.
ghost use Rattle.std.specs.Prelude.{◌≡◌, IfOk, MatchResult};
ghost use Rattle.multi_site_world.specs.World.{World as ModelWorld, start_world};
ghost use Rattle.multi_site_world.specs.Worlds.{MayBeFirst, IsNoFirst, StandsForWorld, IsRun};
ghost use Rattle.multi_site_world.specs.Safe.{IsSafeWorld, HasEqualBooks, AreSoundSteps, IsSoundRun};

use crate::growth::GrowthError;
use crate::{Event, WorldReply};
use admission_core::SiteCore;
use admission_model::Ask;
use begin::{first_cores, first_layout};
use merge_core::{Delta, Layout};
use sites::{grown_core, merged, place_of, told};
use std::alloc::{AllocError, Global};
use std::marker::Model;

mod begin;
mod sites;

/// Sites under one layout, and every message that they sent. A message stays for ever: it may be taken at any
/// time, again or never.
#[derive(Debug, Drop)]
pub struct World {
    alloc: Global,
    layout: Layout,
    sites: Vec<SiteCore>,
    sent: Vec<Delta>,
}

// Contracts see the layout, the cores and the messages.
impl Model for World {
    ghost use Rattle.multi_site_world.specs.Worlds.{WorldState, IsWorldState};

    ghost Value = { WorldState };

    ghost view = { λ w. record { layout = w.layout; cores = w.sites.items; sent = w.sent.items } };

    ghost invariant = { λ w. IsWorldState (record { layout = w.layout; cores = w.sites.items; sent = w.sent.items }) };
}

impl World {
    ghost use Rattle.std.specs.Prelude.{◌≡◌, ◌<◌, ◌≤◌, length, slice_index_or, IfOk};
    ghost use Rattle.merge_core.specs.Layout.{at_sites};
    ghost use Rattle.multi_site_world.specs.declared.event.Event.TheVariants.{Call, Send, Take, Thin, Restart, Grow};
    ghost use Rattle.multi_site_world.specs.World.{place_of, start_world};
    ghost use Rattle.multi_site_world.specs.Worlds.{StandsForWorld, IsWorldState, IsBegun, IsStep, IsStepHere};
    ghost use Rattle.multi_site_world.specs.Safe.{IsSafeWorld, HasEqualBooks, IsLawfulStep};

    /// The world before any event; all sites know one another.
    pub fn new(alloc: Global, layout: Layout) -> Result<World, AllocError>
        ensures begun { IfOk result (λ w. StandsForWorld (start_world layout.sites layout) w) }
        ensures safe { IfOk result (λ w. IsSafeWorld w) }
        ensures equal_books { IfOk result (λ w. HasEqualBooks w) }
    {
        let whole = layout.try_copy(alloc)?;
        World::begun(alloc, &whole, layout)
    }

    /// The world before any event, where the first sites begin under an earlier layout with as many sites, and
    /// know no other site until they grow. Refused with `BadGrowth` unless `first` is the layout's number of
    /// sites, or fewer under which the same records are a layout; that is judged before memory is taken.
    pub fn grown(alloc: Global, layout: Layout, first: u16) -> Result<World, GrowthError>
        ensures begun { IsBegun first layout result }
        ensures safe { IfOk result (λ w. IsSafeWorld w) }
        ensures equal_books { IfOk result (λ w. HasEqualBooks w) }
    {
        let earlier = first_layout(alloc, &layout, first)?;
        let world = World::begun(alloc, &earlier, layout)?;
        Ok(world)
    }

    // The world before any event, whose first sites begin under this earlier layout.
    fn begun(alloc: Global, earlier: &Layout, layout: Layout) -> Result<World, AllocError>
        requires earlier { earlier.now ≡ at_sites earlier.now.sites layout }
        requires few { earlier.now.sites ≤ layout.sites }
        ensures begun { IfOk result (λ w. StandsForWorld (start_world earlier.now.sites layout) w) }
        ensures safe { IfOk result (λ w. IsSafeWorld w) }
        ensures equal_books { IfOk result (λ w. HasEqualBooks w) }
    {
        let sites = first_cores(alloc, earlier, &layout)?;
        Ok(World {
            alloc,
            layout,
            sites,
            sent: Vec::new(alloc),
        })
    }

    /// The whole layout.
    pub fn layout(&self) -> &Layout
        ensures layout { result.now ≡ self.now.layout }
        ensures world { IsWorldState self.now }
    {
        &self.layout
    }

    /// How many sites there are, which are numbered from 0.
    pub fn sites(&self) -> usize
        ensures { result ≡ length self.now.cores }
    {
        self.sites.len()
    }

    /// How many messages there are, which are numbered from 0.
    pub fn messages(&self) -> u64
        ensures { result ≡ length self.now.sent }
    {
        self.sent.len() as u64
    }

    /// The core of a site.
    pub fn core(&self, i: u16) -> &SiteCore
        requires { i < length self.now.cores }
        ensures { result.now ≡ slice_index_or self.now.cores i result.now }
    {
        &self.sites[usize::from(i)]
    }

    /// A message.
    pub fn message(&self, k: u64) -> &Delta
        requires { k < length self.now.sent }
        ensures { result.now ≡ slice_index_or self.now.sent k result.now }
    {
        &self.sent[k as usize]
    }

    /// One event happens, and is answered as the model of several sites answers it. Refused with `NoSite`; then
    /// with `NoMessage`, where a message is missing, or with `NoGrowth`, where the site knows all sites; and with
    /// the refusals of `SiteCore`, of which `OwnRowAhead` and `BadRow` never come. A reply of `Memory` changed
    /// nothing, and never stands in place of a refusal, but where a thin message could not be made.
    ///
    /// A call costs what it costs at the site (`SiteCore`); a message that is sent is linear in the site's book,
    /// one that is taken in its rows, a thin one in the rows of both messages. A growth is linear in the book and
    /// `n log n` in the sessions.
    pub fn step(&mut self, event: &Event) -> WorldReply
        ensures step { IsStep self.old self.new event.now result }
        ensures layout { self.new.layout ≡ self.old.layout }
        ensures safe { IsSafeWorld self.new }
        ensures equal_books { HasEqualBooks self.new }
        ensures lawful { IsLawfulStep self.old self.new event.now result }
    {
        if usize::from(place_of(*event)) >= self.sites.len() {
            return WorldReply::NoSite;
        }
        self.step_here(event)
    }

    // One event happens at a site that there is.
    fn step_here(&mut self, event: &Event) -> WorldReply
        requires { place_of event.now < length self.old.cores }
        ensures { IsStepHere self.old self.new event.now result }
    {
        match *event {
            Event::Call(i, ask) => self.call(i, ask),
            Event::Send(i) => self.send(i),
            Event::Take(i, k) => self.take(i, k),
            Event::Thin(i, k, l) => self.thin(i, k, l),
            Event::Restart(i) => self.restart(i),
            Event::Grow(i) => self.grow(i),
        }
    }

    // A caller asks a site.
    fn call(&mut self, i: u16, ask: Ask) -> WorldReply
        requires { i < length self.old.cores }
        ensures { IsStepHere self.old self.new (Call i ask) result }
    {
        let core = &mut self.sites[usize::from(i)];
        told(core.ask(ask))
    }

    // A site tells what it knows: its snapshot is the next message.
    fn send(&mut self, i: u16) -> WorldReply
        requires { i < length self.old.cores }
        ensures { IsStepHere self.old self.new (Send i) result }
    {
        let core = &self.sites[usize::from(i)];
        let Ok(message) = core.snapshot() else {
            return WorldReply::Memory;
        };
        let number = self.sent.len() as u64;
        if self.sent.push(message).is_err() {
            return WorldReply::Memory;
        }
        WorldReply::Sent(number)
    }

    // A site takes a message.
    fn take(&mut self, i: u16, k: u64) -> WorldReply
        requires { i < length self.old.cores }
        ensures { IsStepHere self.old self.new (Take i k) result }
    {
        let Some(message) = self.sent.get(k as usize) else {
            return WorldReply::NoMessage;
        };
        let sites = self.layout.sites();
        let core = &mut self.sites[usize::from(i)];
        told(merged(core, sites, message))
    }

    // A site takes a message without the rows that another message has.
    fn thin(&mut self, i: u16, k: u64, l: u64) -> WorldReply
        requires { i < length self.old.cores }
        ensures { IsStepHere self.old self.new (Thin i k l) result }
    {
        let Some(whole) = self.sent.get(k as usize) else {
            return WorldReply::NoMessage;
        };
        let Some(earlier) = self.sent.get(l as usize) else {
            return WorldReply::NoMessage;
        };
        let Ok(thin) = whole.thin(self.alloc, earlier) else {
            return WorldReply::Memory;
        };
        let core = &mut self.sites[usize::from(i)];
        told(core.merge(&thin))
    }

    // A site is started again.
    fn restart(&mut self, i: u16) -> WorldReply
        requires { i < length self.old.cores }
        ensures { IsStepHere self.old self.new (Restart i) result }
    {
        let core = &mut self.sites[usize::from(i)];
        core.restart();
        WorldReply::Restarted
    }

    // A site is started again under the whole layout, if it does not know all sites.
    fn grow(&mut self, i: u16) -> WorldReply
        requires { i < length self.old.cores }
        ensures { IsStepHere self.old self.new (Grow i) result }
    {
        let core = &self.sites[usize::from(i)];
        if core.layout().sites() >= self.layout.sites() {
            return WorldReply::NoGrowth;
        }
        let Ok(grown) = grown_core(self.alloc, core, &self.layout) else {
            return WorldReply::Memory;
        };
        self.sites[usize::from(i)] = grown;
        WorldReply::Grown
    }
}

/// What all events lead to, from sites that all know one another: the world, and a reply for each event.
pub fn run_world(
    alloc: Global,
    layout: Layout,
    events: &[Event],
) -> Result<(World, Vec<WorldReply>), AllocError>
    ensures run { IfOk result (λ p. IsRun (start_world layout.sites layout) events.now p.0 p.1.items) }
    ensures safe { IfOk result (λ p. IsSafeWorld p.0) }
    ensures steps { IfOk result (λ p. IsSoundRun (start_world layout.sites layout) events.now p.1.items p.0) }
{
    let mut world = World::new(alloc, layout)?;
    let replies = run(alloc, &mut world, events)?;
    Ok((world, replies))
}

/// The same, where the first sites begin under an earlier layout with as many sites.
pub fn run_grown(
    alloc: Global,
    layout: Layout,
    first: u16,
    events: &[Event],
) -> Result<(World, Vec<WorldReply>), GrowthError>
    ensures run { MatchResult result
        (λ p. MayBeFirst first layout × IsRun (start_world first layout) events.now p.0 p.1.items)
        (λ e. IsNoFirst first layout e) }
    ensures safe { IfOk result (λ p. IsSafeWorld p.0) }
    ensures steps { IfOk result (λ p. IsSoundRun (start_world first layout) events.now p.1.items p.0) }
{
    let mut world = World::grown(alloc, layout, first)?;
    let replies = run(alloc, &mut world, events)?;
    Ok((world, replies))
}

// The events happen one after the other, each with its reply.
fn run(alloc: Global, world: &mut World, events: &[Event]) -> Result<Vec<WorldReply>, AllocError>
    requires { IsSafeWorld world.old }
    ensures steps { IfOk result (λ replies. AreSoundSteps world.old events.now replies.items world.new) }
    ensures run { IfOk result (λ replies. (m : ModelWorld) → StandsForWorld m world.old → IsRun m events.now world.new replies.items) }
    ensures safe { IsSafeWorld world.new }
{
    let mut replies = Vec::new(alloc);
    for event in events {
        let reply = world.step(event);
        replies.push(reply)?;
    }
    Ok(replies)
}
