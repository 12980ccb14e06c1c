//! Laws of the definitions in specs/: functions that do nothing, whose contracts are the laws.
ghost use Rattle.std.specs.Prelude.{ℕ, ◌≤◌, length};
ghost use Rattle.admission_model.specs.Restoring.{AreCells};
ghost use Rattle.merge_core.specs.Layout.{LayoutState};
ghost use Rattle.admission_core.specs.Kept.{ChangeState};
ghost use Rattle.durable_keeper.specs.Keeping.{IsChange};
ghost use Rattle.store_rows.specs.Rows.{Stored};
ghost use Rattle.store_content.specs.Content.{HasMisplaced, IsContent, durable_cells};
ghost use Rattle.store_content.specs.Plan.{IsTellable};

/// Each change that a keeper may be told at a site of a layout is one that rows of a store can tell. A layout has at most
/// 16 sites and 256 records.
pub fn change_law()
    ensures { (layout : LayoutState) → (i : ℕ) → (c : ChangeState) → layout.sites ≤ 16 → length layout.records ≤ 256 → IsChange layout i c → IsTellable c }
{}

/// No site begins from a content whose table of counters has a slot from 300 on, whatever it holds besides: the counters
/// of its durable part are none that a site can have.
pub fn misplaced_law()
    ensures { (layout : LayoutState) → (i : ℕ) → (it : Stored) → layout.sites ≤ 16 → IsContent it → HasMisplaced it → ¬ AreCells layout i (durable_cells it) }
{}
