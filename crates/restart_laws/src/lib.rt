//! What a crash left of a site's store, and the core that is made of it: laws of the store and of the model of one site.
#![tactic(auto)]

ghost use Rattle.std.specs.Prelude.{◌≡◌, ◌⊎◌, ℕ, ◌<◌, List, Result};
ghost use Rattle.sqlite.specs.Held.{Held};
ghost use Rattle.merge_core.specs.Layout.{IsLayout, LayoutState};
ghost use Rattle.admission_model.specs.declared.ask.Call.{Call};
ghost use Rattle.admission_model.specs.Account.{Account, begin, start_origin};
ghost use Rattle.admission_model.specs.Knowledge.{grown};
ghost use Rattle.admission_model.specs.Serving.{after};
ghost use Rattle.admission_core.specs.declared.restoring.RestoreError.{RestoreError};
ghost use Rattle.admission_core.specs.Core.{Core};
ghost use Rattle.admission_core.specs.Kept.{durable_of};
ghost use Rattle.admission_core.specs.Restored.{IsOwn};
ghost use Rattle.durable_keeper.specs.Keeping.{nothing_kept};
ghost use Rattle.store_rows.specs.Rows.{Stored};
ghost use Rattle.store_rows.specs.Holding.{Keeps, KeepsNothingOr};
ghost use Rattle.store_content.specs.Content.{durable_in};
ghost use Rattle.restart_laws.specs.Starting.{LeavesPart, MayStart, Starts};

use sqlite::Alter;

/// What a crash left of a site's store stands for the restart of the site's account. Three calls start the site from a
/// connection: they open the store, load what it keeps, and make a core of that, under the account's layout or a later one.
/// Where the durable part that the store has is an account's, the core stands for that account started again (`kept`). Where a
/// call was in doubt, it stands for the account before the call started again, or for the one after it (`doubt`); where it is
/// open which of two accounts of the site is kept, as before a round of calls that are committed together and behind it, for one
/// of these two (`either`). Where the creation of the store was in doubt, it stands for a site before any operation (`begun`).
/// Want of memory is the only refusal of that core.
pub fn start_law<S: Alter>()
    ensures kept { (c : Held S) → (layout : LayoutState) → (a : Account) → (it : Stored) → (restored : Result Core RestoreError) → MayStart layout a
        → Starts S.Store layout a.origin.site c restored → Keeps S.Store c it → durable_in it ≡ durable_of a → IsOwn (grown layout.sites a) restored }
    ensures doubt { (c : Held S) → (old layout : LayoutState) → (site : List ℕ) → (a : Account) → (call : Call) → (restored : Result Core RestoreError) → MayStart layout a
        → Starts S.Store layout a.origin.site c restored → LeavesPart S.Store old site (durable_of a) (durable_of (after a call)) c
        → ∥ IsOwn (grown layout.sites a) restored ⊎ IsOwn (grown layout.sites (after a call)) restored ∥₁ }
    ensures either { (c : Held S) → (old layout : LayoutState) → (site : List ℕ) → (a b : Account) → (restored : Result Core RestoreError) → MayStart layout a → MayStart layout b
        → b.origin.site ≡ a.origin.site → Starts S.Store layout a.origin.site c restored → LeavesPart S.Store old site (durable_of a) (durable_of b) c
        → ∥ IsOwn (grown layout.sites a) restored ⊎ IsOwn (grown layout.sites b) restored ∥₁ }
    ensures begun { (c : Held S) → (layout : LayoutState) → (i : ℕ) → (it : Stored) → (restored : Result Core RestoreError) → IsLayout layout → i < layout.sites
        → Starts S.Store layout i c restored → durable_in it ≡ nothing_kept → KeepsNothingOr S.Store c it → IsOwn (grown layout.sites (begin (start_origin layout i))) restored }
{}
