//! Laws of the definitions in specs/: functions that do nothing, whose contracts are the laws.
ghost use Rattle.std.specs.Prelude.{◌≡◌, ◌∷◌, [], ℕ, ◌<◌, ◌≤◌, Bool, true, false, List, Some, length};
ghost use Rattle.merge_core.specs.Delta.{DeltaState};
ghost use Rattle.merge_core.specs.Counts.{counter_limit};
ghost use Rattle.merge_core.specs.declared.cell.Cell.{Cell};
ghost use Rattle.merge_core.specs.Layout.{LayoutState, Shape, shape_of, at_sites};
ghost use Rattle.admission_model.specs.Account.{begin, phase_of};
ghost use Rattle.admission_model.specs.View.{view_of, rights_of};
ghost use Rattle.admission_model.specs.Laws.{SourcesAgree, SameCounters};
ghost use Rattle.admission_model.specs.Reached.{IsReached};
ghost use Rattle.admission_model.specs.Sound.{IsOrigin};
ghost use Rattle.session_list.specs.declared.session.Phase.TheVariants.{Writer};
ghost use Rattle.multi_site_world.specs.declared.event.Event.{Event};
ghost use Rattle.multi_site_world.specs.declared.event.Event.TheVariants.{Take};
ghost use Rattle.multi_site_world.specs.World.{World, account_at, replies, run, world_reply};
ghost use Rattle.multi_site_world.specs.Laws.{IsConserved, IsInside, IsWriterAlone, IsMergedReply, KnowsAllSites};
ghost use Rattle.multi_site_world.specs.Instances.{three_sites, writer_there};
ghost use Rattle.rebuild_laws.specs.Groups.{Losing, Stage, Loss, IsSettled, IsUnbegun, told_most, lost_alone, CanSpare, MayRebuild, MayMove, MayLose, IsRebuiltWorld, new_group, still_silent, world_settled, rebuilt_origin};
ghost use Rattle.rebuild_laws.specs.Moving.{AreOfMoved, IsSameAt, IsSameFor};
ghost use Rattle.rebuild_laws.specs.Settling.{lacking, settlement, settling, IsToldOf, AreMoved};
ghost use Rattle.rebuild_laws.specs.Instances.{site_1_lost, site_1_replies, seats_handed_on, nothing_settled, seats_settled, told_by_2};

/// Sites that lost their stores, and with them their sessions, are built again in a new group, one after the other, each
/// from a delta of each site that is left: each may begin so, in any world that events and earlier losses lead to. A site
/// that is lost alone can always spare what it gave. In the new group seats are conserved and a writer is alone, before all
/// are built again and after, whatever the sites do; deltas are merged, and sites that know the same units have the same
/// counters.
pub fn rebuild_law()
    ensures begins { (w : World) → IsRebuiltWorld w → (loss : Loss) → MayLose w loss → (stage : Stage)
        → MayRebuild loss.lost.gone loss.sites (still_silent loss.lost.gone loss.stages) (world_settled w loss) stage
        → IsOrigin (rebuilt_origin (at_sites loss.sites w.layout) loss.lost.settled stage.lost stage.told) }
    ensures lost_alone { (w : World) → IsRebuiltWorld w → (d : ℕ) → d < w.layout.sites → IsSettled w.layout (lost_alone d) × CanSpare w (lost_alone d) d }
    ensures conserved { (w : World) → IsRebuiltWorld w → (r : ℕ) → IsConserved w r }
    ensures writer_alone { (w : World) → IsRebuiltWorld w → (r : ℕ) → IsWriterAlone (account_at w) w.layout.sites r }
    ensures merged { (w : World) → IsRebuiltWorld w → (i k : ℕ) → KnowsAllSites w i → k < length w.sent → IsMergedReply (world_reply w (Take i k)) }
    ensures equal_books { (w : World) → IsRebuiltWorld w → (i j : ℕ) → i < w.layout.sites → j < w.layout.sites
        → SourcesAgree (account_at w i) (account_at w j) → SameCounters (account_at w i) (account_at w j) }
    ensures accounts { (w : World) → IsRebuiltWorld w → (i : ℕ) → i < w.layout.sites → IsReached (account_at w i) }
{}

/// Where several sites are lost at once, the deltas that the sites that are left made as they were moved settle so much
/// between the lost ones that each can spare what it gave, and a new group may begin, where none lacks more seats than a
/// counter holds. One lost site settles nothing.
pub fn settling_law()
    ensures moved { (w : World) → IsRebuiltWorld w → (gone : ℕ → Bool) → (n : ℕ) → n ≤ w.layout.sites → ((i : ℕ) → gone i ≡ true → i < n)
        → ((i : ℕ) → n ≤ i → i < w.layout.sites → IsUnbegun w i) → (ds : List DeltaState) → AreMoved w gone n ds
        → ((r d : ℕ) → gone d ≡ true → lacking (shape_of w.layout) gone n (told_most (shape_of w.layout) ds) r d ≤ counter_limit)
        → MayMove w (settling (shape_of w.layout) gone n (told_most (shape_of w.layout) ds)) n }
    ensures enough { (w : World) → IsRebuiltWorld w → (gone : ℕ → Bool) → (n : ℕ) → n ≤ w.layout.sites → ((i : ℕ) → gone i ≡ true → i < n)
        → ((i : ℕ) → n ≤ i → i < w.layout.sites → IsUnbegun w i) → (told : ℕ → ℕ → Cell → ℕ)
        → IsToldOf w gone n told → (d : ℕ) → gone d ≡ true → CanSpare w (settling (shape_of w.layout) gone n told) d }
    ensures alone { (shape : Shape) → (gone : ℕ → Bool) → (n : ℕ) → (told : ℕ → ℕ → Cell → ℕ) → (d : ℕ) → ((i : ℕ) → gone i ≡ true → i ≡ d)
        → (r e j : ℕ) → settlement shape gone n told r e j ≡ 0 }
{}

/// Sites join a new group at different times. What those that have moved do there depends on none that has not, nor on what
/// is lost or settled in the end. While a site that is left and has not moved has a writer inside, nobody is inside that record
/// at a moved site; and while a moved site has a writer inside, nobody is inside at one that is left and has not moved. Both hold
/// of whatever the sites that have not moved do before they move: so no session is inside in both groups beside a writer.
pub fn move_law()
    ensures independent { (u w : World) → (moved : ℕ → Bool) → IsSameAt moved u w → (l m : Losing)
        → ((i : ℕ) → moved i ≡ true → (i < u.layout.sites) × ((l.gone i ≡ false) × (m.gone i ≡ false))) → (events : List Event) → AreOfMoved moved events
        → IsSameFor moved (run events (new_group u l)) (run events (new_group w m)) }
    ensures left_behind { (w : World) → IsRebuiltWorld w → (l : Losing) → (n : ℕ) → MayMove w l n → (moved : ℕ → Bool) → (events : List Event) → AreOfMoved moved events
        → (k i r h j : ℕ) → k < w.layout.sites → l.gone k ≡ false → moved k ≡ false → i < w.layout.sites → moved i ≡ true
        → phase_of (account_at w k) r h ≡ Some Writer → ¬ IsInside (phase_of (account_at (run events (new_group w l)) i) r j) }
    ensures moved_on { (w : World) → IsRebuiltWorld w → (l : Losing) → (n : ℕ) → MayMove w l n → (moved : ℕ → Bool) → (events : List Event) → AreOfMoved moved events
        → (k i r h j : ℕ) → k < w.layout.sites → l.gone k ≡ false → moved k ≡ false → i < w.layout.sites → moved i ≡ true
        → phase_of (account_at (run events (new_group w l)) i) r h ≡ Some Writer → ¬ IsInside (phase_of (account_at w k) r j) }
{}

/// The premises of the law are met, by computation; and two lost sites that are judged one by one would get seats twice.
pub fn instances()
    ensures may_lose { MayLose writer_there site_1_lost }
    ensures rebuilt { replies site_1_lost.events (world_settled writer_there site_1_lost) ≡ site_1_replies }
    ensures cannot_spare { ¬ CanSpare seats_handed_on nothing_settled 1 }
    ensures seats_of_2 { rights_of (view_of (account_at (new_group seats_handed_on nothing_settled) 2)) 0 ≡ 3 }
    ensures seats_again { rights_of (view_of (begin (rebuilt_origin three_sites nothing_settled.settled 0 (told_by_2 ∷ [])))) 0 ≡ 3 }
    ensures may_settle { MayMove seats_handed_on seats_settled 3 }
    ensures no_seats_at_0 { rights_of (view_of (begin (rebuilt_origin three_sites seats_settled.settled 0 (told_by_2 ∷ [])))) 0 ≡ 0 }
    ensures no_seats_at_1 { rights_of (view_of (begin (rebuilt_origin three_sites seats_settled.settled 1 (told_by_2 ∷ [])))) 0 ≡ 0 }
{}
