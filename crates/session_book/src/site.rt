ghost use Rattle.std.specs.Prelude.{◌≡◌, ◌+◌, ◌≤◌, IfOk, OnOk};
ghost use Rattle.session_book.specs.Sites.{new_passes};

use crate::closing::{are_all, checked, transcript_of};
use crate::error::CloseError;
use crate::locked::Locked;
use crate::opening::Opening;
use crate::pass::{Pass, Receipt};
use admission_core::{Call, Durable, Refusal, Reply};
use desk_log::{Desk, OpenError, Transcript};
use durable_keeper::Keeper;
use merge_core::Layout;
use std::alloc::{AllocError, Global};
use std::marker::Model;
use std::sync::ledger::{Blank, Ledger, Share};
use std::sync::{Mutex, Wait};

/// The most passes that a site may give out.
pub const MOST_PASSES: u16 = 64;

/// One site that callers on any number of threads share, where its keeper may go to another thread. `L` names this
/// opening of it.
pub struct Site<K: Keeper, L: Opening> {
    alloc: Global,
    layout: Layout,
    site: u16,
    first: Durable,
    limit: usize,
    passes: u16,
    locked: Mutex<Locked<K, L>>,
}

// Contracts see what the site was opened with.
impl<K: Keeper, L: Opening> Model for Site<K, L> {
    ghost use Rattle.session_book.specs.Sites.{SiteState, IsSite};

    ghost Value = { SiteState };

    ghost view = { λ s. record { layout = s.layout; site = s.site; first = s.first; limit = s.limit; passes = s.passes } };

    ghost invariant = { λ s. IsSite L.parts (record { layout = s.layout; site = s.site; first = s.first; limit = s.limit; passes = s.passes }) };
}

impl<K: Keeper + Drop, L: Opening> Drop for Site<K, L> {
    fn drop(self) {
        let Site {
            alloc: _,
            layout: _,
            site: _,
            first: _,
            limit: _,
            passes: _,
            locked: _,
        } = self;
    }
}

impl<K: Keeper, L: Opening> Site<K, L> {
    ghost use Rattle.std.specs.Prelude.{◌≡◌, ◌<◌, ◌≤◌, length};
    ghost use Rattle.admission_core.specs.Kept.{DurableState};
    ghost use Rattle.desk_log.specs.Desk.{IsMadeFor};
    ghost use Rattle.desk_log.specs.Following.{CanFollow};
    ghost use Rattle.session_book.specs.Passes.{pass_after};
    ghost use Rattle.session_book.specs.Sites.{IsSiteOpened, IsClosing};

    /// Opens a site of a layout with 1 to 64 passes and a log of 16 to 65,536 entries, from what the keeper gives back.
    /// The passes are numbered from 0 in the list's order. The caller shows that the blank is that of `L`, with a part
    /// for each pass, that the keeper keeps what `L` says, and where there is such a site, that it was made for it with
    /// an equal layout. Refused, in this order: `BadSite`; `BadPasses`; `BadLimit`; `StoreFault`; `WrongCounters`;
    /// `WrongSessions`; `Memory`. With each refusal the keeper is handed back. Linear in the layout's slots and in what
    /// was kept.
    pub fn open(
        alloc: Global,
        blank: Blank,
        keeper: K,
        layout: Layout,
        site: u16,
        passes: u16,
        limit: usize,
    ) -> Result<(Site<K, L>, Vec<Pass<L>>), (OpenError, K)>
        requires name { blank.name ≡ L.name }
        requires parts { blank.parts ≡ L.parts }
        requires one_each { blank.parts ≡ passes }
        requires made_for { site < layout.sites → IsMadeFor K.Keeper keeper layout site }
        requires kept { (d : DurableState) → L.kept d → K.keeps keeper d }
        ensures { IsSiteOpened K.Keeper keeper layout site passes limit result }
    {
        if site >= layout.sites() {
            return Err((OpenError::BadSite, keeper));
        }
        if passes == 0 || passes > MOST_PASSES {
            return Err((OpenError::BadPasses, keeper));
        }
        let desk = Desk::open(alloc, keeper, layout, site, limit)?;
        let Ok((layout, first)) = copies(alloc, &desk) else {
            return Err((OpenError::Memory, desk.into_keeper()));
        };
        let (counted, mut rest) = blank.open::<L>();
        let Ok(all) = passes_of(alloc, &mut rest, passes) else {
            return Err((OpenError::Memory, desk.into_keeper()));
        };
        let locked = Mutex::new(Locked::new(desk, counted, rest));
        let site = Site {
            alloc,
            layout,
            site,
            first,
            limit,
            passes,
            locked,
        };
        Ok((site, all))
    }

    /// The site's number. Takes no lock.
    pub fn site(&self) -> u16
        ensures { result ≡ self.now.site }
    {
        self.site
    }

    /// The number of records, of which there is at least one. Takes no lock.
    pub fn records(&self) -> u16
        ensures records { result ≡ length self.now.layout.records }
        ensures some { 1 ≤ result }
    {
        self.layout.records().len() as u16
    }

    /// The layout. Takes no lock.
    pub fn layout(&self) -> &Layout
        ensures { result.now ≡ self.now.layout }
    {
        &self.layout
    }

    /// Serves a call of a pass: makes room for its receipt, takes the lock, and answers as [`Desk::serve`] does.
    /// `Memory` may come first, for that room. A reply that is logged leaves a receipt in the pass, `Frozen` and
    /// `LogFull` a mark. May wait for the lock.
    pub fn call<R: Wait>(&self, rt: &R, pass: &mut Pass<L>, call: Call) -> Reply
        ensures pass { pass.new ≡ pass_after pass.old call result }
        ensures follows { CanFollow call result }
    {
        if pass.receipts.reserve(1).is_err() {
            return Reply::Refused(Refusal::Memory);
        }
        let (reply, receipt) = self
            .locked
            .lock(rt)
            .serve(pass.number, &mut pass.share, &call);
        if let Some(copy) = receipt {
            pass.receipts.push_reserved(Receipt { call, reply: copy });
            return reply;
        }
        match reply {
            Reply::Refused(Refusal::Frozen) => pass.frozen = true,
            Reply::Refused(Refusal::LogFull) => pass.log_full = true,
            _ => {}
        }
        reply
    }

    /// Ends the opening: the transcript of its one run, and the keeper as it is. All passes that `open` gave out are
    /// handed in, in any order. Refused, in this order: `PassMissing`, where a number is missing or stands twice;
    /// `Mismatch`, where the log does not have a pass's receipts in their order, or does not bear out a mark, with the
    /// first such pass and place; `Memory`.
    /// With each refusal the site and the passes are handed back. Linear in the log for each pass.
    pub fn close<R: Wait>(
        self,
        _rt: &R,
        passes: Vec<Pass<L>>,
    ) -> Result<(Transcript, K), (CloseError, Site<K, L>, Vec<Pass<L>>)>
        ensures { IsClosing K.Keeper L.kept self passes result }
    {
        if !are_all(passes.as_slice(), self.passes) {
            return Err((CloseError::PassMissing, self, passes));
        }
        let Site {
            alloc,
            layout,
            site,
            first,
            limit,
            passes: count,
            locked,
        } = self;
        let mut locked = locked.into_inner();
        let passes = locked.audit(passes);
        let runs = match checked(
            alloc,
            locked.desk(),
            &layout,
            site,
            &first,
            limit,
            passes.as_slice(),
        ) {
            Ok(runs) => runs,
            Err(error) => {
                let site = Site {
                    alloc,
                    layout,
                    site,
                    first,
                    limit,
                    passes: count,
                    locked: Mutex::new(locked),
                };
                return Err((error, site, passes));
            }
        };
        let (run, keeper) = locked.into_run(passes);
        Ok((transcript_of(site, runs, run), keeper))
    }
}

// Copies of what a desk was opened with.
fn copies<K: Keeper>(alloc: Global, desk: &Desk<K>) -> Result<(Layout, Durable), AllocError>
    ensures layout { IfOk result (λ p. p.0 ≡ desk.now.core.layout) }
    ensures first { IfOk result (λ p. p.1 ≡ desk.now.log.first) }
{
    let layout = desk.core().layout().try_copy(alloc)?;
    let first = desk.first().try_copy(alloc)?;
    Ok((layout, first))
}

// So many passes, numbered from 0, each with one part of a share that has counted nothing.
fn passes_of<L: Ledger>(
    alloc: Global,
    rest: &mut Share<L>,
    passes: u16,
) -> Result<Vec<Pass<L>>, AllocError>
    requires parts { rest.old.parts ≡ passes }
    requires amount { rest.old.amount ≡ 0 }
    ensures passes { IfOk result (λ all. all.items ≡ new_passes passes) }
    ensures parts { OnOk result (rest.new.parts ≡ 0) }
    ensures amount { rest.new.amount ≡ 0 }
{
    let mut all = Vec::with_capacity(alloc, usize::from(passes))?;
    'passes: for number in 0..passes {
        let share = rest.split_off(1, 0);
        all.push(Pass::new(alloc, number, share))?;
    }
    Ok(all)
}
