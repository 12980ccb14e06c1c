// The sending end of a direction, and its report.
ghost use Rattle.std.specs.Prelude.{◌≡◌};

use exchange_threads::{Outlet, PutError};
use ordered_link::Putter;
use std::alloc::{AllocError, Global};
use std::sync::Wait;

/// The end of a link at which texts are put, what was put, and where in the pass the receipt of each text's snapshot
/// stands. `first` is how many receipts the pass had before.
#[derive(Drop)]
pub struct RuledOutlet {
    pub putter: Putter,
    pub first: u64,
    pub put: Vec<String>,
    pub sent_at: Vec<u64>,
}

impl RuledOutlet {
    ghost use Rattle.std.specs.Prelude.{◌≡◌, ◌<◌, [], string_bytes, vec_len, vec_capacity, IfOk, OnOk};

    /// Nothing was put. Takes no memory.
    pub fn new(alloc: Global, putter: Putter, first: u64) -> RuledOutlet
        ensures putter { result.putter ≡ putter }
        ensures first { result.first ≡ first }
        ensures put { result.put.items ≡ [] }
        ensures sent_at { result.sent_at.items ≡ [] }
    {
        RuledOutlet {
            putter,
            first,
            put: Vec::new(alloc),
            sent_at: Vec::new(alloc),
        }
    }

    // A copy of a text that is to be put, once there is room for it in the report.
    fn room_for(&mut self, text: &String) -> Result<String, AllocError>
        ensures copy { IfOk result (λ copy. string_bytes copy ≡ string_bytes text.now) }
        ensures putter { self.new.putter ≡ self.old.putter }
        ensures first { self.new.first ≡ self.old.first }
        ensures put { self.new.put.items ≡ self.old.put.items }
        ensures sent_at { self.new.sent_at.items ≡ self.old.sent_at.items }
        ensures room { OnOk result (vec_len self.new.put < vec_capacity self.new.put) }
        ensures places { OnOk result (vec_len self.new.sent_at < vec_capacity self.new.sent_at) }
    {
        self.put.reserve(1)?;
        self.sent_at.reserve(1)?;
        text.clone()
    }
}

impl Outlet for RuledOutlet {
    ghost use Rattle.std.specs.Prelude.{◌≡◌, true, false, [], map, string_bytes};
    ghost use Rattle.ruled_pair.specs.Sent.{AreSent};
    ghost use Rattle.std.proofs.Common.{refl, ◌∙◌};
    ghost use Rattle.ruled_pair.specs.Growing.{sent_grows};

    ghost accounts = { λ e rs n last. AreSent rs e.first e.sent_at.items (map string_bytes e.put.items) n last × (e.putter.put ≡ map string_bytes e.put.items)
        × (e.putter.finished ≡ false) × (e.putter.late ≡ []) };

    ghost closed = { λ e. e.putter.closed ≡ true };

    ghost rests = { λ a b. b.putter ≡ a.putter };

    ghost same = { λ a b. (b.first ≡ a.first) × (b.putter.link ≡ a.putter.link) };

    fn put<R: Wait>(&mut self, rt: &R, place: u64, text: String) -> Result<(), PutError> {
        let Ok(copy) = self.room_for(&text) else {
            return Err(PutError::Memory);
        };
        if !self.putter.put(rt, text) {
            return Err(PutError::Closed);
        }
        self.put.push_reserved(copy);
        self.sent_at.push_reserved(place);
        Ok(())
    }

    ghost same_as_itself = { λ e. (refl, refl) };

    ghost same_later = { λ a b c first then. (then.0 ∙ first.0, then.1 ∙ first.1) };

    ghost grows = { λ e rs more n last right. (sent_grows rs more right.0, right.1, right.2, right.3) };
}
