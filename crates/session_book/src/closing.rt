//! Closing a site: what its passes hold is compared with the log, and the log is given away.
ghost use Rattle.std.specs.Prelude.{◌≡◌, ◌≢◌, ℕ, List, ◌+◌, ◌<◌, ◌≤◌, ◌++◌, ◌↔◌, [], ◌∷◌, All, IsTrue, IfOk, IfErr, IfSome, None, false, length, take, vec_capacity};
ghost use Rattle.desk_log.specs.Log.{ends_in_fault};
ghost use Rattle.desk_log.specs.declared.entry.Entry.{Entry as EntryThere};
ghost use Rattle.session_book.specs.declared.error.CloseError.TheVariants.{PassMissing, Mismatch, Memory as OutOfMemory};
ghost use Rattle.session_book.specs.Passes.{receipts_of, receipts_in, IsFirstOther};
ghost use Rattle.session_book.specs.Sites.{AreAll, BearsOut, has_number, IsSameOpening, IsDeskAstray};

use crate::error::CloseError;
use crate::pass::{Pass, Receipt};
use admission_core::Durable;
use desk_log::same::{same_call, same_durable, same_layout, same_reply};
use desk_log::{Desk, Entry, Run, Runs, Transcript};
use durable_keeper::Keeper;
use merge_core::Layout;
use std::alloc::Global;
use std::sync::ledger::{Book, Ledger, Share};

// Whether each number below the count stands at one of as many passes.
pub(crate) fn are_all<L: Ledger>(passes: &[Pass<L>], count: u16) -> bool
    ensures { IsTrue result ↔ AreAll count passes.now }
{
    if passes.len() != usize::from(count) {
        return false;
    }
    'numbers: for n in 0..count {
        if !has_number(passes, n) {
            return false;
        }
    }
    true
}

// Whether a pass has this number.
fn has_number<L: Ledger>(passes: &[Pass<L>], n: u16) -> bool
    ensures { result ≡ has_number n passes.now }
{
    passes.iter().any(|pass| pass.number() == n)
}

// Room for the one run, where the desk is that of the opening and its log bears each pass out.
pub(crate) fn checked<K: Keeper, L: Ledger>(
    alloc: Global,
    desk: &Desk<K>,
    layout: &Layout,
    site: u16,
    first: &Durable,
    limit: usize,
    passes: &[Pass<L>],
) -> Result<Vec<Run>, CloseError>
    ensures opening { IfOk result (λ _. IsSameOpening desk.now layout.now site first.now limit) }
    ensures each { IfOk result (λ _. All (BearsOut limit desk.now.log.entries) passes.now) }
    ensures room { IfOk result (λ runs. (runs.items ≡ []) × (1 ≤ vec_capacity runs)) }
    ensures all_there { IfErr result (λ e. e ≢ PassMissing) }
    ensures lacks { IfErr result (λ e. e ≡ OutOfMemory → IsSameOpening desk.now layout.now site first.now limit → All (BearsOut limit desk.now.log.entries) passes.now) }
    ensures astray { IfErr result (λ e. (pass at : ℕ) → e ≡ Mismatch pass at → IsDeskAstray desk.now layout.now site first.now limit passes.now pass at) }
{
    if !is_same_opening(desk, layout, site, first, limit) {
        // This never happens, but no clause can say so: no pass is at fault.
        return Err(CloseError::Memory);
    }
    let entries = desk.entries();
    let frozen = desk.is_frozen();
    'passes: for i in 0..passes.len() {
        if let Some(at) = astray(entries, frozen, limit, &passes[i]) {
            return Err(CloseError::Mismatch {
                pass: passes[i].number(),
                at,
            });
        }
    }
    Vec::with_capacity(alloc, 1).map_err(|_| CloseError::Memory)
}

// Whether a desk is that of an opening.
fn is_same_opening<K: Keeper>(
    desk: &Desk<K>,
    layout: &Layout,
    site: u16,
    first: &Durable,
    limit: usize,
) -> bool
    ensures same { IsTrue result ↔ IsSameOpening desk.now layout.now site first.now limit }
    ensures within { IsTrue result → length desk.now.log.entries ≤ limit }
{
    let core = desk.core();
    core.site() == site
        && desk.limit() == limit
        && same_layout(core.layout(), layout)
        && same_durable(desk.first(), first)
}

// The first receipt of a pass that a log does not bear out, or the number of its receipts, where that is a mark.
fn astray<L: Ledger>(entries: &[Entry], frozen: bool, limit: usize, pass: &Pass<L>) -> Option<usize>
    requires { frozen ≡ ends_in_fault false entries.now }
    ensures none { (result ≡ None) ↔ BearsOut limit entries.now pass.now }
    ensures first { IfSome result (λ at. IsFirstOther (receipts_of pass.now.number entries.now) pass.now.receipts at) }
{
    if let Some(at) = first_other(entries, pass.number(), pass.receipts()) {
        return Some(at);
    }
    if pass.was_frozen() && !frozen {
        return Some(pass.receipts().len());
    }
    if pass.was_full() && entries.len() != limit {
        return Some(pass.receipts().len());
    }
    None
}

// The first receipt that is not the log's, of the pass with this number.
fn first_other(entries: &[Entry], number: u16, receipts: &[Receipt]) -> Option<usize>
    ensures none { (result ≡ None) ↔ (receipts_of number entries.now ≡ receipts.now) }
    ensures first { IfSome result (λ at. IsFirstOther (receipts_of number entries.now) receipts.now at) }
{
    let mut next = 0;
    'entries: for i in 0..entries.len() {
        let Some(after) = followed(&entries[i], number, receipts, next) else {
            return Some(next);
        };
        next = after;
    }
    if next != receipts.len() {
        return Some(next);
    }
    None
}

// How many receipts are borne out with one more entry, if it is no other than the next of them.
fn followed(entry: &Entry, number: u16, receipts: &[Receipt], next: usize) -> Option<usize>
    requires { next ≤ length receipts.now }
    ensures followed { IfSome result (λ after. (after ≤ length receipts.now)
        × (take after receipts.now ≡ take next receipts.now ++ receipts_of number (entry.now ∷ []))) }
    ensures other { result ≡ None → (rest : List EntryThere) → take next receipts.now ++ receipts_of number (entry.now ∷ rest) ≢ receipts.now }
    ensures first { result ≡ None → (rest : List EntryThere) → IsFirstOther (take next receipts.now ++ receipts_of number (entry.now ∷ rest)) receipts.now next }
{
    if entry.pass != number {
        return Some(next);
    }
    if next >= receipts.len() {
        return None;
    }
    if is_receipt(entry, &receipts[next]) {
        return Some(next + 1);
    }
    None
}

// Whether a receipt is that of an entry.
fn is_receipt(entry: &Entry, receipt: &Receipt) -> bool
    ensures { IsTrue result ↔ (receipt.now ≡ record { call = entry.now.call; reply = entry.now.reply }) }
{
    same_call(&receipt.call, &entry.call) && same_reply(&receipt.reply, &entry.reply)
}

// Learns that a book's total is what passes and the rest of its shares have counted, and changes nothing. The caller shows
// that these are all shares, or else nothing is learned.
pub(crate) fn audit_all<L: Ledger>(
    counted: &mut Book<L>,
    all: &mut Share<L>,
    passes: &mut [Pass<L>],
)
    requires backed { all.old.parts ≡ 0 → all.old.amount ≡ 0 }
    ensures total { counted.new.total ≡ counted.old.total }
    ensures parts { all.new.parts ≡ all.old.parts }
    ensures amount { all.new.amount ≡ all.old.amount }
    ensures passes { passes.new ≡ passes.old }
    ensures whole { all.old.parts + length passes.old ≡ L.parts → all.old.amount + receipts_in passes.old ≡ counted.old.total }
{
    if passes.is_empty() {
        counted.audit(all);
        return;
    }
    let (front, back) = passes.split_at_mut(1);
    let Some(first) = front.first_mut() else {
        return;
    };
    let amount = first.count();
    first.share.give(all, 1, amount);
    audit_all(counted, all, back);
    all.give(&mut first.share, 1, amount);
}

// The shares of all passes as one, which has counted all receipts.
pub(crate) fn gathered<L: Ledger>(rest: Share<L>, passes: Vec<Pass<L>>) -> Share<L>
    requires parts { rest.parts ≡ 0 }
    requires amount { rest.amount ≡ 0 }
    ensures parts { result.parts ≡ length passes.items }
    ensures amount { result.amount ≡ receipts_in passes.items }
{
    let mut all = rest;
    let mut passes = passes;
    'passes: while let Some(pass) = passes.pop() {
        all.merge(pass.into_share());
    }
    all
}

// The transcript of a run, for which there is room.
pub(crate) fn transcript_of(site: u16, runs: Vec<Run>, run: Run) -> Transcript
    requires none { runs.items ≡ [] }
    requires room { 1 ≤ vec_capacity runs }
    ensures { result ≡ record { site = site; runs = run ∷ [] } }
{
    let mut runs = runs;
    runs.push_reserved(run);
    Transcript {
        site,
        runs: Runs::from_vec(runs),
    }
}
