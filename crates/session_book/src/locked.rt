use crate::closing::{audit_all, gathered};
use crate::opening::Opening;
use crate::pass::Pass;
use admission_core::{Call, Reply};
use desk_log::{Desk, Run};
use durable_keeper::Keeper;
use std::marker::Model;
use std::sync::ledger::{Book, Share};

/// What a site's lock guards: the desk, and the total of the entries that all passes counted.
#[derive(Drop)]
pub(crate) struct Locked<K: Keeper, L: Opening> {
    desk: Desk<K>,
    counted: Book<L>,
    // What no pass has of the ledger: no part.
    rest: Share<L>,
}

// Contracts see the desk. Its entries are as many as the passes counted, and its keeper is that of the opening.
impl<K: Keeper, L: Opening> Model for Locked<K, L> {
    ghost use Rattle.desk_log.specs.Desk.{DeskState};
    ghost use Rattle.session_book.specs.Sites.{IsLocked};

    ghost Value = { DeskState K };

    ghost view = { λ l. l.desk };

    ghost invariant = { λ l. IsLocked K.Keeper L.kept l.desk l.counted.total l.rest.parts l.rest.amount };
}

impl<K: Keeper, L: Opening> Locked<K, L> {
    ghost use Rattle.std.specs.Prelude.{◌≡◌, ◌+◌, ◌<◌, if◌then◌else◌, length};
    ghost use Rattle.desk_log.specs.Log.{is_logged};
    ghost use Rattle.desk_log.specs.Desk.{IsServing, IsMadeFor, receipt_of};
    ghost use Rattle.desk_log.specs.Following.{CanFollow};
    ghost use Rattle.session_book.specs.Passes.{receipts_in};
    ghost use Rattle.session_book.specs.Sites.{IsLocked, IsRunOf, KeepsOf};

    /// A desk that was opened goes under the lock, with a ledger that has counted nothing.
    pub(crate) fn new(desk: Desk<K>, counted: Book<L>, rest: Share<L>) -> Locked<K, L>
        requires { IsLocked K.Keeper L.kept desk counted.total rest.parts rest.amount }
        ensures { result ≡ desk }
    {
        Locked {
            desk,
            counted,
            rest,
        }
    }

    /// The desk.
    pub(crate) fn desk(&self) -> &Desk<K>
        ensures { result.now ≡ self.now }
    {
        &self.desk
    }

    /// Serves a call of a pass, whose share counts it where the reply is logged, and copies such a reply.
    pub(crate) fn serve(
        &mut self,
        pass: u16,
        share: &mut Share<L>,
        call: &Call,
    ) -> (Reply, Option<Reply>)
        requires { 0 < share.old.parts }
        ensures served { IsServing K.Keeper self.old self.new pass call.now result.0 }
        ensures follows { CanFollow call.now result.0 }
        ensures receipt { result.1 ≡ receipt_of result.0 }
        ensures parts { share.new.parts ≡ share.old.parts }
        ensures amount { share.new.amount ≡ share.old.amount + (if is_logged result.0 then 1 else 0) }
    {
        let Locked { desk, counted, .. } = self;
        let (reply, receipt) = desk.serve_with_receipt(pass, call);
        if receipt.is_some() {
            counted.add(share, 1);
        }
        (reply, receipt)
    }

    /// Learns that the log has as many entries as the passes have receipts, and changes nothing. The caller shows that these
    /// are all passes. Linear in the passes.
    pub(crate) fn audit(&mut self, passes: Vec<Pass<L>>) -> Vec<Pass<L>>
        requires { length passes.items ≡ L.parts }
        ensures same { self.new ≡ self.old }
        ensures passes { result ≡ passes }
        ensures count { length self.old.log.entries ≡ receipts_in passes.items }
    {
        let Locked { counted, rest, .. } = self;
        let mut passes = passes;
        audit_all(counted, rest, passes.as_mut_slice());
        passes
    }

    /// The run that the desk leaves, which has as many entries as the passes have receipts, and the keeper. The caller
    /// shows that these are all passes.
    pub(crate) fn into_run(self, passes: Vec<Pass<L>>) -> (Run, K)
        requires { length passes.items ≡ L.parts }
        ensures run { IsRunOf self passes.items result.0 }
        ensures made_for { IsMadeFor K.Keeper result.1 self.core.layout self.core.site }
        ensures keeps { KeepsOf K.Keeper L.kept self result.1 }
    {
        let Locked {
            desk,
            mut counted,
            rest,
        } = self;
        let mut all = gathered(rest, passes);
        counted.audit(&mut all);
        let sites = desk.core().layout().sites();
        let (first, entries, keeper) = desk.into_parts();
        let run = Run {
            sites,
            first,
            entries,
        };
        (run, keeper)
    }
}
