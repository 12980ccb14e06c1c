//! Laws of the definitions in specs/: functions that do nothing, whose contracts are the laws.
ghost use Rattle.std.specs.Prelude.{◌≡◌, ◌+◌, ◌<◌, ℕ, length, slice_get, None, Some};
ghost use Rattle.merge_core.specs.Delta.{DeltaState};
ghost use Rattle.admission_model.specs.declared.ask.Call.TheVariants.{Merge};
ghost use Rattle.admission_model.specs.Account.{Account};
ghost use Rattle.admission_model.specs.Reached.{IsReached};
ghost use Rattle.admission_model.specs.Serving.{after, reason};
ghost use Rattle.admission_model.specs.View.{rights_of, view_of};
ghost use Rattle.multi_site_world.specs.World.{World, account_at, thin_message};
ghost use Rattle.rebuild_laws.specs.Groups.{IsRebuiltWorld};
ghost use Rattle.live_site.specs.Overfull.{Fits, given};

/// A delta that is merged adds to the site's rights what it is said to give.
pub fn given_law()
    ensures { (a : Account) → IsReached a → (delta : DeltaState) → reason (view_of a) (Merge delta) ≡ None → (r : ℕ) → r < length a.origin.layout.records
        → rights_of (view_of (after a (Merge delta))) r ≡ rights_of (view_of a) r + given (view_of a) delta.rows r }
{}

/// In a world of sites that tell what they did, no message gives a site more rights to a record than the record has
/// seats, whole or thin, also where sites were lost and built again: there a delta is never refused for that.
pub fn fitting_law()
    ensures message { (w : World) → IsRebuiltWorld w → (i k : ℕ) → i < w.layout.sites → (delta : DeltaState)
        → slice_get w.sent k ≡ Some delta → Fits (account_at w i) (Merge delta) }
    ensures thin { (w : World) → IsRebuiltWorld w → (i k l : ℕ) → i < w.layout.sites → (delta : DeltaState)
        → thin_message (slice_get w.sent k) (slice_get w.sent l) ≡ Some delta → Fits (account_at w i) (Merge delta) }
{}
