use crate::change::Change;
use crate::durable::Durable;
use crate::prepared::Prepared;
use admission_model::{Ask, Call, Operation, Plan, Refusal, Reply};
use merge_core::{Book, Delta, Layout};
use session_list::Sessions;
use std::alloc::{AllocError, Global};
use std::marker::Model;

mod carrying;
mod cells;
mod deciding;
mod lookups;
mod merging;
mod planning;
mod preparing;
mod reasons;

use carrying::{carry_out, record_of};

/// One site: its layout, its number, its book of all records, and its sessions.
///
/// A call is answered at once, from the site's own book and sessions. Readers and writers of a record are admitted
/// by problem 1 or 2 of Courtois, Heymans and Parnas (1971), with a refusal in place of waiting; seats follow the
/// rights of the bounded counter of Balegas et al. (2015): a reader takes one, a writer all. Of a call's refusals the
/// first that applies is answered; `Memory` is answered only where none does, and a call so answered may be made again.
#[derive(Debug, Drop)]
pub struct SiteCore {
    alloc: Global,
    layout: Layout,
    site: u16,
    book: Book,
    sessions: Sessions,
}

// Contracts see what the core shows, and how many more sessions fit.
impl Model for SiteCore {
    ghost use Rattle.admission_core.specs.Core.{Core, IsCore};

    ghost Value = { Core };

    ghost view = { λ c. record { layout = c.layout; site = c.site; book = c.book; sessions = c.sessions.sessions; room = c.sessions.room } };

    ghost invariant = { λ c. IsCore (record { layout = c.layout; site = c.site; book = c.book; sessions = c.sessions.sessions; room = c.sessions.room }) };
}

impl SiteCore {
    ghost use Rattle.std.specs.Prelude.{◌≡◌, ◌≢◌, ◌↔◌, ℕ, ◌<◌, ◌≤◌, ◌⊎◌, length, IfOk, IsTrue, None, Some, false};
    ghost use Rattle.session_list.specs.declared.session.Phase.{Phase};
    ghost use Rattle.session_list.specs.Sessions.{phase_in};
    ghost use Rattle.merge_core.specs.declared.cell.Cell.TheVariants.{Ann, Fin};
    ghost use Rattle.merge_core.specs.Book.{counter_of};
    ghost use Rattle.merge_core.specs.Layout.{shape_of};
    ghost use Rattle.merge_core.specs.Moved.{raised_by};
    ghost use Rattle.admission_model.specs.declared.ask.Ask.{Ask};
    ghost use Rattle.admission_model.specs.declared.ask.Call.{Call};
    ghost use Rattle.admission_model.specs.declared.ask.Ask.TheVariants.{Read, Announce, Quill, Leave, Give, Help};
    ghost use Rattle.admission_model.specs.declared.ask.Call.TheVariants.{Ask as AskCall, Merge};
    ghost use Rattle.admission_model.specs.declared.reply.Refusal.TheVariants.{Memory, WriterAnnounced};
    ghost use Rattle.admission_model.specs.declared.reply.Reply.TheVariants.{Admitted, Left, Merged, Refused};
    ghost use Rattle.admission_model.specs.Account.{Account, begin, start_origin};
    ghost use Rattle.admission_model.specs.Knowledge.{restarted};
    ghost use Rattle.admission_model.specs.View.{view_of, plan_of, problem_in};
    ghost use Rattle.admission_model.specs.Laws.{IsFirstUnfinished, MayAsk};
    ghost use Rattle.admission_model.specs.Durable.{AreRising};
    ghost use Rattle.admission_model.specs.Merging.{snapshot_of};
    ghost use Rattle.admission_model.specs.Serving.{reason, reply_of, after};
    ghost use Rattle.admission_core.specs.Core.{IsCore, core_view, Stands, SameContent, IsServed, is_memory, served};
    ghost use Rattle.admission_core.specs.Kept.{durable_of};
    ghost use Rattle.admission_core.specs.Prepared.{IsReady, IsReadyFor, IsOperationOf, IsAccepted, IsChangeFor, has_room};

    /// The site before any operation: the grants are in the book, and nobody is inside.
    pub fn new(alloc: Global, layout: Layout, site: u16) -> Result<SiteCore, AllocError>
        requires { site < layout.sites }
        ensures { IfOk result (λ c. Stands (begin (start_origin layout site)) c) }
    {
        let book = Book::genesis(alloc, &layout)?;
        Ok(SiteCore {
            alloc,
            layout,
            site,
            book,
            sessions: Sessions::new(alloc),
        })
    }

    /// The core of these parts, which stands for some account.
    pub(crate) fn from_parts(
        alloc: Global,
        layout: Layout,
        site: u16,
        book: Book,
        sessions: Sessions,
    ) -> SiteCore
        requires { IsCore (record { layout = layout; site = site; book = book; sessions = sessions.sessions; room = sessions.room }) }
        ensures { result ≡ record { layout = layout; site = site; book = book; sessions = sessions.sessions; room = sessions.room } }
    {
        SiteCore {
            alloc,
            layout,
            site,
            book,
            sessions,
        }
    }

    /// The site's number.
    pub fn site(&self) -> u16
        ensures { result ≡ self.now.site }
    {
        self.site
    }

    /// The layout.
    pub fn layout(&self) -> &Layout
        ensures { result.now ≡ self.now.layout }
    {
        &self.layout
    }

    /// The book.
    pub fn book(&self) -> &Book
        ensures { result.now ≡ self.now.book }
    {
        &self.book
    }

    /// The session of a reader begins: `Admitted`. Refused, in this order: `NoRecord`; `BadHolder`, above
    /// 10^12; `AlreadyHere`, where the holder has any session at the record; `CounterFull`, where the seats taken would pass
    /// 10^12; under problem 2 `WriterAnnounced`, with the least site whose writer the book shows unfinished;
    /// `NoSeat`. Linear in the sites.
    pub fn enter_read(&mut self, r: u16, h: u64) -> Reply
        ensures served { IsServed self.old self.new (AskCall (Read r h)) result }
        ensures announced_first { (s : ℕ) → problem_in self.old.layout r ≡ 2 → counter_of self.old.book r s Fin < counter_of self.old.book r s Ann → result ≢ Admitted }
        ensures announced { (s : ℕ) → problem_in self.old.layout r ≡ 2 → MayAsk (core_view self.old) r h → IsFirstUnfinished (core_view self.old) r s → result ≡ Refused (WriterAnnounced s) }
    {
        let _ = &self.site; // tells the invariant: the core stands for an account
        self.ask(Ask::Read { r, h })
    }

    /// A writer announces itself: `Announced`, with its number at this site. Refused, in this order:
    /// `NoRecord`; `BadHolder`; `AlreadyHere`; `CounterFull`; `TooManyWriters`, where 64 are unfinished.
    pub fn announce(&mut self, r: u16, h: u64) -> Reply
        ensures { IsServed self.old self.new (AskCall (Announce r h)) result }
    {
        self.ask(Ask::Announce { r, h })
    }

    /// An announced writer enters, in its place in the order: `Admitted`. Refused, in this order: `NoRecord`;
    /// `BadHolder`; `NotAnnounced`, with no session or a reader's; `AlreadyInside`; `CounterFull`;
    /// `MissingSeats`, where the site has not all seats of the record.
    pub fn enter_write(&mut self, r: u16, h: u64) -> Reply
        ensures { IsServed self.old self.new (AskCall (Quill r h)) result }
    {
        self.ask(Ask::Quill { r, h })
    }

    /// A session ends, and its seats are free again: `Left`, with the phase that it had. Refused, in this
    /// order: `NoRecord`; `BadHolder`; `NotHere`. No counter refuses it.
    pub fn leave(&mut self, r: u16, h: u64) -> Reply
        ensures served { IsServed self.old self.new (AskCall (Leave r h)) result }
        ensures there { (p : Phase) → phase_in self.old.sessions r h ≡ Some p → (result ≡ Left p) ⊎ (result ≡ Refused Memory) }
    {
        let _ = &self.site; // tells the invariant: a session is of a record and a holder that can be
        self.ask(Ask::Leave { r, h })
    }

    /// Seats of a record go to the site `to`: `Given`. Refused, in this order: `NoRecord`; `NoSite`; `ToSelf`;
    /// `ZeroSeats`; `CounterFull`; `TooFewRights`.
    pub fn transfer(&mut self, r: u16, to: u16, seats: u64) -> Reply
        ensures { IsServed self.old self.new (AskCall (Give r to seats)) result }
    {
        self.ask(Ask::Give { r, to, seats })
    }

    /// Carries out the plan for a record: `Gave`. Refused, in this order: `NoRecord`; `NoPlan`; `CounterFull`.
    /// Linear in the sites.
    pub fn help(&mut self, r: u16) -> Reply
        ensures { IsServed self.old self.new (AskCall (Help r)) result }
    {
        self.ask(Ask::Help { r })
    }

    /// All rows of a delta join the book, or none: `Merged`, with how many counters rose. Refused, in this
    /// order: `OtherLayout`, with the least row that has not the layout's form; `BadRow`, with the least row
    /// that no site can have; `OwnRowAhead`, with the least record of which a row tells more of this site than
    /// it did. Linear in the delta.
    pub fn merge(&mut self, delta: &Delta) -> Reply
        ensures { IsServed self.old self.new (Merge delta.now) result }
    {
        if let Some(refusal) = self.merge_reason(delta) {
            return Reply::Refused(refusal);
        }
        self.merge_accepted(delta)
    }

    /// Merges a delta as [`SiteCore::merge`] does, of which the caller shows that nothing refuses it, so that it is not judged
    /// again: `Merged`, with how many counters rose. Linear in the delta.
    pub fn merge_accepted(&mut self, delta: &Delta) -> Reply
        requires { reason (core_view self.old) (Merge delta.now) ≡ None }
        ensures served { IsServed self.old self.new (Merge delta.now) result }
        ensures merged { result ≡ Merged (raised_by (shape_of self.old.layout) (counter_of self.old.book) delta.now.rows) }
    {
        Reply::Merged(self.join(delta))
    }

    /// Serves what a caller asks, as the calls above do. Nothing is made for a store. Linear in the sites.
    pub fn ask(&mut self, ask: Ask) -> Reply
        ensures { IsServed self.old self.new (AskCall ask) result }
    {
        let decision = match self.decide(ask) {
            Ok(decision) => decision,
            Err(refusal) => return Reply::Refused(refusal),
        };
        let operation = decision.operation;
        let Ok(()) = self.reserve_for(operation) else {
            return Reply::Refused(Refusal::Memory);
        };
        self.carry_out(operation);
        decision.answer
    }

    /// What this site tells others: all rows that have left their start. Linear in the book.
    pub fn snapshot(&self) -> Result<Delta, AllocError>
        ensures { IfOk result (λ d. (a : Account) → Stands a self.now → d ≡ snapshot_of (view_of a)) }
    {
        self.book.snapshot(self.alloc, self.site)
    }

    /// Whether a delta is the one that [`SiteCore::snapshot`] makes. Takes no memory. Linear in the book, up to the first
    /// difference.
    pub fn is_snapshot(&self, delta: &Delta) -> bool
        ensures { (a : Account) → Stands a self.now → IsTrue result ↔ (delta.now ≡ snapshot_of (view_of a)) }
    {
        self.book.is_snapshot(self.site, delta)
    }

    /// What a stop leaves of the site. Linear in the book, and `n log n` in the sessions.
    pub fn durable(&self) -> Result<Durable, AllocError>
        ensures { IfOk result (λ d. (a : Account) → Stands a self.now → d ≡ durable_of a) }
    {
        let cells = self.durable_cells()?;
        let sessions = self.sessions.list(self.alloc)?;
        Ok(Durable::new(cells, sessions))
    }

    /// Starts the site again from what it keeps: sessions, its own row, the seats that were sent to it, and all
    /// notices of writers stay; what else it knew of the others starts again. Linear in the book.
    pub fn restart(&mut self)
        ensures { (a : Account) → Stands a self.old → Stands (restarted a) self.new }
    {
        self.book.keep(self.site);
    }

    /// Where seats of record `r` would help, if anywhere: all rights go to the least site whose writer the
    /// book shows unfinished, if that is another one; where none is shown, those above an even share, which is
    /// rounded up, go to the next site. Linear in the sites.
    pub fn plan(&self, r: u16) -> Option<Plan>
        requires { r < length self.now.layout.records }
        ensures { (a : Account) → Stands a self.now → result ≡ plan_of (view_of a) r }
    {
        self.plan_for(r)
    }

    /// Why a call would be refused, want of memory aside. Linear in the sites, at a merge in the delta.
    pub fn reason(&self, call: &Call) -> Option<Refusal>
        ensures { (a : Account) → Stands a self.now → result ≡ reason (view_of a) call.now }
    {
        self.shown_reason(call)
    }

    /// Answers a call and makes all room that carrying it out needs; nothing else changes.
    pub fn prepare<'c>(&mut self, call: &'c Call) -> Prepared<'c>
        ensures content { SameContent self.old self.new }
        ensures room { self.old.room ≤ self.new.room }
        ensures ready { IsReadyFor self.new call.now result }
        ensures reply { is_memory result.reply ≡ false → (a : Account) → Stands a self.old → result.reply ≡ reply_of (view_of a) call.now }
        ensures change { IsChangeFor self.old call.now result }
        ensures rising { AreRising result.change.cells }
    {
        let _ = &self.site; // tells the invariant: the core stands for an account
        match call {
            Call::Ask(ask) => self.prepare_ask(*ask),
            Call::Merge(delta) => self.prepare_merge(delta),
            Call::Snapshot => self.prepare_snapshot(),
        }
    }

    /// Carries out what was prepared, and takes no memory for it. Nothing may have happened to the site since
    /// `prepare` answered, which the caller shows.
    pub fn apply(&mut self, prepared: Prepared<'_>) -> Reply
        requires { IsReady self.old prepared }
        ensures reply { result ≡ prepared.entry.reply }
        ensures account { (call : Call) → IsReadyFor self.old call prepared.entry → (a : Account) → Stands a self.old → Stands (served a call prepared.entry.reply) self.new }
        ensures unchanged { prepared.entry.operation ≡ None → prepared.entry.heard ≡ None → self.new ≡ self.old }
    {
        let (reply, operation, heard) = prepared.into_steps();
        if let Some(operation) = operation {
            self.carry_out(operation);
            return reply;
        }
        if let Some(delta) = heard {
            self.join(delta);
            return reply;
        }
        reply
    }

    // Joins a delta that nothing refuses, and answers how many counters rose.
    fn join(&mut self, delta: &Delta) -> u64
        requires { reason (core_view self.old) (Merge delta.now) ≡ None }
        ensures account { (a : Account) → Stands a self.old → Stands (after a (Merge delta.now)) self.new }
        ensures risen { result ≡ raised_by (shape_of self.old.layout) (counter_of self.old.book) delta.now.rows }
    {
        self.book.join(delta)
    }

    // Why a call would be refused, by what the core shows.
    fn shown_reason(&self, call: &Call) -> Option<Refusal>
        ensures { result ≡ reason (core_view self.now) call.now }
    {
        match call {
            Call::Ask(ask) => self.decide(*ask).err(),
            Call::Merge(delta) => self.merge_reason(delta),
            Call::Snapshot => None,
        }
    }

    // Carries out an operation that nothing refuses.
    fn carry_out(&mut self, operation: Operation)
        requires accepted { IsAccepted self.old operation }
        requires place { has_room (Some operation) self.old.room }
        ensures { (ask : Ask) → IsOperationOf self.old ask operation → (a : Account) → Stands a self.old → Stands (after a (AskCall ask)) self.new }
    {
        let seats = u64::from(self.seats(record_of(operation)));
        let site = self.site;
        carry_out(&mut self.book, &mut self.sessions, site, seats, operation);
    }
}
