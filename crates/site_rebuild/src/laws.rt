//! What is built again of deltas that were sent: a function that does nothing, whose contract is the law.
ghost use Rattle.std.specs.Prelude.{◌≡◌, ℕ, List, Result, [], ◌∷◌};
ghost use Rattle.merge_core.specs.Delta.{DeltaState};
ghost use Rattle.merge_core.specs.Layout.{LayoutState, at_sites, shape_of};
ghost use Rattle.rebuild_laws.specs.Settling.{settling};
ghost use Rattle.admission_core.specs.Core.{Core};
ghost use Rattle.multi_site_world.specs.World.{World};
ghost use Rattle.rebuild_laws.specs.Groups.{Stage, Loss, MayRebuild, MayLose, IsRebuiltWorld, lost_alone, still_silent, told_most, world_settled};
ghost use Rattle.site_rebuild.specs.declared.rebuilding.RebuildError.{RebuildError};
ghost use Rattle.site_rebuild.specs.Rebuilt.{gone_of, IsRebuilt, IsBuiltAgain, IsWithin, AreSettledBy};

/// Where a lost site may be built again, and what its deltas tell settles what was settled, the answer to them is a core
/// that stands for its account in the world in which it was built, once it is started; or there is not memory enough, or
/// the lost sites lack more seats than a counter holds. Where it is lost alone nothing is settled, and it lacks none; where
/// several are, all are to be built of deltas that settle the same.
pub fn genuine_law()
    ensures built { (w : World) → IsRebuiltWorld w → (loss : Loss) → MayLose w loss → (stage : Stage)
        → MayRebuild loss.lost.gone loss.sites (still_silent loss.lost.gone loss.stages) (world_settled w loss) stage
        → (lost : List ℕ) → AreSettledBy (at_sites loss.sites w.layout) loss.lost lost stage.told
        → (answer : Result Core RebuildError) → IsRebuilt (at_sites loss.sites w.layout) lost stage.lost stage.told answer
        → IsBuiltAgain (at_sites loss.sites w.layout) loss.lost.settled (world_settled w loss) stage lost answer }
    ensures alone { (w : World) → IsRebuiltWorld w → (loss : Loss) → MayLose w loss → (stage : Stage)
        → MayRebuild loss.lost.gone loss.sites (still_silent loss.lost.gone loss.stages) (world_settled w loss) stage
        → loss.lost ≡ lost_alone stage.lost
        → AreSettledBy (at_sites loss.sites w.layout) loss.lost (stage.lost ∷ []) stage.told
        × IsWithin (at_sites loss.sites w.layout) (gone_of (stage.lost ∷ [])) (told_most (shape_of (at_sites loss.sites w.layout)) stage.told) }
    ensures together { (layout : LayoutState) → (n : ℕ) → (lost : List ℕ) → (ds : List DeltaState)
        → AreSettledBy (at_sites n layout) (settling (shape_of layout) (gone_of lost) n (told_most (shape_of layout) ds)) lost ds }
{}
