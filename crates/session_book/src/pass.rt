use admission_core::{Call, Reply};
use std::alloc::Global;
use std::marker::Model;
use std::sync::ledger::{Ledger, Share};

/// What a caller keeps of a call that was logged.
#[derive(Debug, Drop)]
pub struct Receipt {
    pub call: Call,
    pub reply: Reply,
}

/// The right to call one site, and what came of it: a receipt for each call that was logged, and a mark where the site
/// had stopped or its log was full. Each pass has its own number. `L` names the opening of the site.
#[derive(Drop)]
pub struct Pass<L: Ledger> {
    pub(crate) number: u16,
    pub(crate) share: Share<L>,
    pub(crate) receipts: Vec<Receipt>,
    pub(crate) frozen: bool,
    pub(crate) log_full: bool,
}

// Contracts see the number, the receipts and the marks. The share counts the receipts.
impl<L: Ledger> Model for Pass<L> {
    ghost use Rattle.std.specs.Prelude.{◌≡◌, length};
    ghost use Rattle.session_book.specs.Passes.{PassState};

    ghost Value = { PassState };

    ghost view = { λ p. record { number = p.number; receipts = p.receipts.items; frozen = p.frozen; log_full = p.log_full } };

    ghost invariant = { λ p. (p.share.parts ≡ 1) × (p.share.amount ≡ length p.receipts.items) };
}

impl<L: Ledger> Pass<L> {
    ghost use Rattle.std.specs.Prelude.{◌≡◌, length};
    ghost use Rattle.session_book.specs.Passes.{new_pass};

    /// A pass without receipts. Takes no memory.
    pub(crate) fn new(alloc: Global, number: u16, share: Share<L>) -> Pass<L>
        requires part { share.parts ≡ 1 }
        requires amount { share.amount ≡ 0 }
        ensures { result ≡ new_pass number }
    {
        Pass {
            number,
            share,
            receipts: Vec::new(alloc),
            frozen: false,
            log_full: false,
        }
    }

    /// The pass's number, from 0.
    pub fn number(&self) -> u16
        ensures { result ≡ self.now.number }
    {
        self.number
    }

    /// How many receipts there are.
    pub fn count(&self) -> u64
        ensures { result ≡ length self.now.receipts }
    {
        self.receipts.len() as u64
    }

    /// The receipts, oldest first.
    pub fn receipts(&self) -> &[Receipt]
        ensures { result.now ≡ self.now.receipts }
    {
        self.receipts.as_slice()
    }

    /// Whether some call was answered that the site had stopped.
    pub fn was_frozen(&self) -> bool
        ensures { result ≡ self.now.frozen }
    {
        self.frozen
    }

    /// Whether some call was answered that the log was full.
    pub fn was_full(&self) -> bool
        ensures { result ≡ self.now.log_full }
    {
        self.log_full
    }

    /// The share, which has counted the receipts. Takes no memory.
    pub(crate) fn into_share(self) -> Share<L>
        ensures parts { result.parts ≡ 1 }
        ensures amount { result.amount ≡ length self.receipts }
    {
        let Pass {
            number: _,
            share,
            receipts: _,
            frozen: _,
            log_full: _,
        } = self;
        share
    }
}
