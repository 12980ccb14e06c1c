//! Where a site's seats would help.
ghost use Rattle.std.specs.Prelude.{◌≡◌, ◌<◌, ◌≤◌};
ghost use Rattle.admission_model.specs.View.{next_site};

use super::SiteCore;
use admission_model::Plan;

impl SiteCore {
    ghost use Rattle.std.specs.Prelude.{◌≡◌, ◌<◌, length, Some, None};
    ghost use Rattle.admission_model.specs.View.{plan_of, plan_for};
    ghost use Rattle.admission_core.specs.Core.{core_view};

    /// The plan for a record, by what the core shows.
    pub(super) fn plan_for(&self, r: u16) -> Option<Plan>
        requires { r < length self.now.layout.records }
        ensures { result ≡ plan_of (core_view self.now) r }
    {
        match self.first_unfinished(r) {
            Some(writer) => self.plan_to_writer(r, writer),
            None => self.plan_to_next(r),
        }
    }

    // All rights go to the site of a writer.
    fn plan_to_writer(&self, r: u16, writer: u16) -> Option<Plan>
        requires { r < length self.now.layout.records }
        ensures { result ≡ plan_for (core_view self.now) r (Some writer) }
    {
        let rights = self.rights(r);
        if writer == self.site || rights == 0 {
            return None;
        }
        Some(Plan {
            to: writer,
            seats: rights,
        })
    }

    // What is above an even share goes to the next site.
    fn plan_to_next(&self, r: u16) -> Option<Plan>
        requires { r < length self.now.layout.records }
        ensures { result ≡ plan_for (core_view self.now) r None }
    {
        let sites = self.layout.sites();
        let rights = self.rights(r);
        let share = self.seats(r).div_ceil(u32::from(sites));
        if sites < 2 || rights <= u64::from(share) {
            return None;
        }
        Some(Plan {
            to: next_site(sites, self.site),
            seats: rights - u64::from(share),
        })
    }
}

// The site after this one, and site 0 after the last.
fn next_site(sites: u16, site: u16) -> u16
    requires site { site < sites }
    requires few { sites ≤ 16 }
    ensures { result ≡ next_site sites site }
{
    if site + 1 < sites { site + 1 } else { 0 }
}
