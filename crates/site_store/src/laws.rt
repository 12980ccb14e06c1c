//! Laws of the definitions in specs/: functions that do nothing, whose contracts are the laws.
ghost use Rattle.std.specs.Prelude.{◌≡◌, ℕ, ◌<◌, List, Option};
ghost use Rattle.merge_core.specs.Layout.{IsEarlier, LayoutState};
ghost use Rattle.layout_line.specs.Line.{line_of};
ghost use Rattle.admission_core.specs.Kept.{DurableState};
ghost use Rattle.durable_keeper.specs.Keeping.{nothing_kept};
ghost use Rattle.store_rows.specs.Rows.{Stored};
ghost use Rattle.store_rows.specs.Changes.{renewed};
ghost use Rattle.store_tables.specs.Reads.{IsInRange};
ghost use Rattle.store_tables.specs.Transacts.{made};
ghost use Rattle.store_content.specs.Content.{IsContent, durable_in};
ghost use Rattle.site_store.specs.SiteText.{site_text};
ghost use Rattle.site_store.specs.Sql.{IsOf, IsOneOf};
ghost use Rattle.site_store.specs.Opened.{IsOwn};

/// What a creation, a commit or an opening leaves, acknowledged or in doubt, is a content of the site's own, and its numbers
/// are such as the tables take. So the next opening for this site, group and layout is refused by the device alone, as `own`
/// and `own_or` of [`SqlKeeper::open`](crate::SqlKeeper::open) say, and never with `BadStore`. What a creation leaves stands
/// for a durable part with nothing in it.
pub fn own_law()
    ensures made { (layout : LayoutState) → (i : ℕ) → (group : Option (List ℕ)) → IsOwn layout i group (made (site_text i group) (line_of layout)) }
    ensures kept { (layout : LayoutState) → (i : ℕ) → (group : Option (List ℕ)) → (it : Stored) → IsOf layout (site_text i group) it → IsOwn layout i group it }
    ensures doubt { (layout : LayoutState) → (i : ℕ) → (group : Option (List ℕ)) → (d e : DurableState) → (it : Stored) → IsOneOf layout (site_text i group) d e it → IsOwn layout i group it }
    ensures renewed { (layout : LayoutState) → (i : ℕ) → (group : Option (List ℕ)) → (it : Stored) → IsOwn layout i group it → IsOwn layout i group (renewed (line_of layout) it) }
    ensures nothing { (site line : List ℕ) → durable_in (made site line) ≡ nothing_kept }
    ensures range { (it : Stored) → IsContent it → IsInRange it }
{}

/// A content of a site's own is also its own for each layout that its layout grows into, so that an opening after the
/// growth is refused by the device alone.
pub fn grown_law()
    ensures { (old layout : LayoutState) → (i : ℕ) → (group : Option (List ℕ)) → (it : Stored) → IsEarlier old layout → i < old.sites → IsOwn old i group it → IsOwn layout i group it }
{}
