//! Laws of the definitions in specs/: functions that do nothing, whose contracts are the laws.
ghost use Rattle.std.specs.Prelude.{true, false, ◌≡◌, ℕ, ◌≢◌, ◌+◌, ◌<◌, ◌≤◌, ◌⊎◌, ◌++◌, [], ◌∷◌, List, Some};
ghost use Rattle.std.specs.List.{AllByRecursion};
ghost use Rattle.merge_core.specs.Counts.{counter_limit};
ghost use Rattle.merge_core.specs.declared.cell.Cell.TheVariants.{Taken};
ghost use Rattle.session_list.specs.declared.session.Phase.TheVariants.{Reader, Writer};
ghost use Rattle.admission_model.specs.declared.ask.Ask.TheVariants.{Leave, Quill};
ghost use Rattle.admission_model.specs.declared.reply.Reply.TheVariants.{Admitted};
ghost use Rattle.admission_model.specs.Account.{own, phase_of, seats_in};
ghost use Rattle.multi_site_world.specs.declared.event.Event.{Event};
ghost use Rattle.multi_site_world.specs.declared.event.Event.TheVariants.{Call, Take, Thin};
ghost use Rattle.multi_site_world.specs.declared.event.WorldReply.TheVariants.{Core};
ghost use Rattle.multi_site_world.specs.World.{World, account_at, happens, world_reply, run};
ghost use Rattle.multi_site_world.specs.Laws.{IsReachedWorld, IsInside, IsMergedReply};
ghost use Rattle.rebuild_laws.specs.Groups.{IsRebuiltWorld};
ghost use Rattle.fencing_laws.specs.Fences.{fence, number_of, IsWellTold, AreWellTold, IsSameStay};
ghost use Rattle.fencing_laws.specs.Resource.{Token, allows, all_allow, seen_of, lets_in, phase_for, IsTokenOf, WasTaken, IsTakenBeside};
ghost use Rattle.fencing_laws.specs.Entering.{AreFair, IsAsBeforeOrGone, WaitsToEnter, CanEnter};
ghost use Rattle.fencing_laws.specs.Examples.{IsFilled, first_writer, taken_whole, taken_thin, both_taken, two_readers, writers_wait, after_events, reader_with, writer_with};

/// Where messages are well told, a writer's number at any moment is less than that of each other session that is inside the
/// record at any later moment, at any site, and no less than that of each session that was inside at any earlier one. Once
/// the writer has left, its own holder's next session has a greater number too. A site counts its number over the sites that
/// it knows, and no event lowers it.
pub fn fence_law()
    ensures later { (u : World) → IsRebuiltWorld u → (i r h : ℕ) → i < u.layout.sites → phase_of (account_at u i) r h ≡ Some Writer
        → (events : List Event) → AreWellTold events u → (j k : ℕ) → j < u.layout.sites → IsInside (phase_of (account_at (run events u) j) r k)
        → IsSameStay r i h j k events (run events u) ⊎ (fence u i r < fence (run events u) j r) }
    ensures after_leaving { (u : World) → IsRebuiltWorld u → (i r h : ℕ) → i < u.layout.sites → phase_of (account_at u i) r h ≡ Some Writer
        → (events : List Event) → AreWellTold events (happens u (Call i (Leave r h)))
        → let v = run events (happens u (Call i (Leave r h))) in (j k : ℕ) → j < u.layout.sites → IsInside (phase_of (account_at v j) r k)
        → fence u i r < fence v j r }
    ensures earlier { (u : World) → IsRebuiltWorld u → (i r h : ℕ) → i < u.layout.sites → IsInside (phase_of (account_at u i) r h)
        → (events : List Event) → AreWellTold events u → let v = run events u in (j k : ℕ) → j < u.layout.sites → phase_of (account_at v j) r k ≡ Some Writer
        → fence u i r ≤ fence v j r }
    ensures counted { (w : World) → IsRebuiltWorld w → (i r : ℕ) → i < w.layout.sites → fence w i r ≡ number_of (account_at w i) r }
    ensures rises { (w : World) → (event : Event) → (i r : ℕ) → fence w i r ≤ fence (happens w event) i r }
{}

/// A message that a site once merged, whole or well told, is one against which any thin message is well told there ever
/// after, whatever the site forgot by restarts since.
pub fn well_told_law()
    ensures whole { (w : World) → IsRebuiltWorld w → (i k l : ℕ) → i < w.layout.sites → IsMergedReply (world_reply w (Take i l))
        → (events : List Event) → IsWellTold (run events (happens w (Take i l))) (Thin i k l) }
    ensures thin { (w : World) → IsRebuiltWorld w → (i k l m : ℕ) → i < w.layout.sites → IsWellTold w (Thin i l m) → IsMergedReply (world_reply w (Thin i l m))
        → (events : List Event) → IsWellTold (run events (happens w (Thin i l m))) (Thin i k l) }
{}

/// What a resource can do with the numbers, where each session takes its token once. To remember two numbers is to remember
/// all tokens. Whoever is inside is let in after all tokens that were taken before its own, and after those that others take
/// while it is inside. Whoever has left is refused after the token of a session that excludes it and came later.
pub fn resource_law()
    ensures two_numbers { (olds : List Token) → (new : Token) → lets_in (seen_of olds) new ≡ all_allow olds new }
    ensures remembered { (older newer : List Token) → (old new : Token) → allows old new ≡ false → lets_in (seen_of (newer ++ old ∷ older)) new ≡ false }
    ensures let_in { (u : World) → (r j k : ℕ) → (new : Token) → IsTokenOf u r j k new → (olds : List Token)
        → AllByRecursion (λ old. WasTaken u r old ⊎ IsTakenBeside r j k new old) olds → lets_in (seen_of olds) new ≡ true }
    ensures in_order { (u : World) → IsRebuiltWorld u → (r i h j k : ℕ) → (old new : Token) → IsTokenOf u r i h old
        → (events : List Event) → AreWellTold events u → IsTokenOf (run events u) r j k new → allows old new ≡ true }
    ensures meanwhile { (v : World) → IsRebuiltWorld v → (r i h j k : ℕ) → (old new : Token) → IsTokenOf v r i h old
        → j < v.layout.sites → phase_of (account_at v j) r k ≡ Some (phase_for new.writes) → ¬ ((i ≡ j) × (h ≡ k)) → allows old new ≡ true }
    ensures writer_left { (u : World) → IsRebuiltWorld u → (r i h j k : ℕ) → (old new : Token) → IsTokenOf u r i h new → new.writes ≡ true
        → (stay : List Event) → let v = run stay u in phase_of (account_at v i) r h ≡ Some Writer
        → (events : List Event) → AreWellTold events (happens v (Call i (Leave r h))) → IsTokenOf (run events (happens v (Call i (Leave r h)))) r j k old → allows old new ≡ false }
    ensures reader_left { (u : World) → IsRebuiltWorld u → (r i h j k : ℕ) → (old new : Token) → IsTokenOf u r i h new → new.writes ≡ false
        → (events : List Event) → AreWellTold events u → IsTokenOf (run events u) r j k old → old.writes ≡ true → allows old new ≡ false }
{}

/// No reached world is stuck. Where a writer waits at a site and no counter is too full, fair events lead to its admission:
/// sessions that are inside its record leave, writers that wait for it at sites of smaller numbers withdraw, and sites come
/// to know all sites, help, send and take messages. Fair events leave every other session as it was. Where the site's
/// counter of seats taken is too full, no events at all lead there.
pub fn not_stuck_law()
    ensures enters { (u : World) → IsRebuiltWorld u → (r w h : ℕ) → WaitsToEnter u r w h → CanEnter u r w h }
    ensures others_stay { (u : World) → (r w : ℕ) → (events : List Event) → AreFair r w events u → (i q k : ℕ)
        → IsAsBeforeOrGone r w i q (phase_of (account_at u i) q k) (phase_of (account_at (run events u) i) q k) }
    ensures full { (u : World) → IsRebuiltWorld u → (r w h : ℕ) → w < u.layout.sites → counter_limit < own (account_at u w) r Taken + seats_in u.layout r
        → (events : List Event) → world_reply (run events u) (Call w (Quill r h)) ≢ Core Admitted }
{}

/// Numbers by computation. A writer has 0; a second one, at another site, has 1 where the message that brought its seats was
/// taken whole, or thin after the earlier message; and 0 where it was taken thin against one that the site never took, which
/// is not well told. Two readers that are inside together have 1 and 0.
pub fn fence_examples()
    ensures reached { (events : List Event) → IsReachedWorld (after_events events) }
    ensures first { fence (after_events first_writer) 0 0 ≡ 0 }
    ensures first_inside { phase_of (account_at (after_events first_writer) 0) 0 5 ≡ Some Writer }
    ensures whole { fence (after_events (first_writer ++ taken_whole)) 2 0 ≡ 1 }
    ensures whole_inside { phase_of (account_at (after_events (first_writer ++ taken_whole)) 2) 0 6 ≡ Some Writer }
    ensures whole_well { AreWellTold taken_whole (after_events first_writer) }
    ensures both { fence (after_events (first_writer ++ both_taken)) 2 0 ≡ 1 }
    ensures both_inside { phase_of (account_at (after_events (first_writer ++ both_taken)) 2) 0 6 ≡ Some Writer }
    ensures both_well { AreWellTold both_taken (after_events first_writer) }
    ensures thin { fence (after_events (first_writer ++ taken_thin)) 2 0 ≡ 0 }
    ensures thin_inside { phase_of (account_at (after_events (first_writer ++ taken_thin)) 2) 0 6 ≡ Some Writer }
    ensures thin_not_well { ¬ AreWellTold taken_thin (after_events first_writer) }
    ensures readers { (fence (after_events two_readers) 0 0 ≡ 1) × (fence (after_events two_readers) 1 0 ≡ 0) }
    ensures readers_inside { (phase_of (account_at (after_events two_readers) 0) 0 7 ≡ Some Reader) × (phase_of (account_at (after_events two_readers) 1) 0 8 ≡ Some Reader) }
{}

/// What a resource does, by computation, and that the premises of its law and of entering are met. A reader with a smaller number is let
/// in after a reader, and not after a writer with the same number; a writer is let in with the same number.
pub fn resource_examples()
    ensures reader_after_reader { lets_in (seen_of (reader_with 1 ∷ [])) (reader_with 0) ≡ true }
    ensures reader_after_writer { lets_in (seen_of (writer_with 0 ∷ [])) (reader_with 0) ≡ false }
    ensures writer_after_reader { lets_in (seen_of (reader_with 0 ∷ [])) (writer_with 0) ≡ true }
    ensures late_writer { lets_in (seen_of (reader_with 1 ∷ [])) (writer_with 0) ≡ false }
    ensures next_reader { lets_in (seen_of (writer_with 0 ∷ [])) (reader_with 1) ≡ true }
    ensures token { IsTokenOf (after_events two_readers) 0 1 8 (reader_with 0) }
    ensures beside { IsTakenBeside 0 1 8 (reader_with 0) (reader_with 1) }
    ensures taken { WasTaken (after_events two_readers) 0 (reader_with 1) }
    ensures waits { WaitsToEnter (after_events writers_wait) 0 2 6 }
    ensures filled { IsFilled }
{}
