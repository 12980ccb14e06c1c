//! The number of whoever is inside a record.
ghost use Rattle.std.specs.Prelude.{◌≡◌, ℕ, ◌<◌, ◌≤◌, ◌*◌, length};
ghost use Rattle.merge_core.specs.Counts.{counter_limit};
ghost use Rattle.admission_model.specs.Account.{Account};
ghost use Rattle.admission_core.specs.Core.{IsCore, Stands};
ghost use Rattle.multi_site_world.specs.World.{World, account_at};
ghost use Rattle.rebuild_laws.specs.Groups.{IsRebuiltWorld};
ghost use Rattle.fencing_laws.specs.Fences.{fence, number_of};

use admission_core::SiteCore;
use merge_core::Cell;

/// How many finished writers of a record the site knows of, at all sites: the fencing number of whoever is inside the
/// record here. A resource that remembers the greatest number of anyone, and the greatest of a writer, can refuse sessions
/// that have left (`resource_law`). At most 16 * 10^12. Linear in the sites.
pub fn fence_number(core: &SiteCore, r: u16) -> u64
    requires core { IsCore core.now }
    requires there { r < length core.now.layout.records }
    ensures number { (a : Account) → Stands a core.now → result ≡ number_of a r }
    ensures world { (w : World) → IsRebuiltWorld w → (i : ℕ) → i < w.layout.sites → Stands (account_at w i) core.now → result ≡ fence w i r }
    ensures few { result ≤ 16 * counter_limit }
{
    let mut number = 0;
    for s in 0..core.layout().sites() {
        number += core.book().counter(r, s, Cell::Fin);
    }
    number
}
