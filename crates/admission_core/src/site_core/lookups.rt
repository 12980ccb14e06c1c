//! What a site decides by, read off its layout, book and sessions.
use super::SiteCore;
use merge_core::Cell;

impl SiteCore {
    ghost use Rattle.std.specs.Prelude.{◌≡◌, ◌↔◌, ◌<◌, ◌≤◌, length, IsTrue};
    ghost use Rattle.merge_core.specs.Book.{HasCell, counter_of};
    ghost use Rattle.admission_model.specs.Account.{seats_in};
    ghost use Rattle.admission_model.specs.View.{problem_in, rights_of, first_unfinished};
    ghost use Rattle.admission_core.specs.Core.{core_view};

    /// Whether there is such a record.
    pub(super) fn has_record(&self, r: u16) -> bool
        ensures { IsTrue result ↔ (r < length self.now.layout.records) }
    {
        usize::from(r) < self.layout.records().len()
    }

    /// A counter of the site's own row.
    pub(super) fn own(&self, r: u16, cell: Cell) -> u64
        requires record { r < length self.now.layout.records }
        requires cell { HasCell self.now.layout.sites cell }
        ensures counter { result ≡ counter_of self.now.book r self.now.site cell }
        ensures few { result ≤ 1000000065535 }
    {
        self.book.counter(r, self.site, cell)
    }

    /// The number of seats.
    pub(super) fn seats(&self, r: u16) -> u32
        requires { r < length self.now.layout.records }
        ensures { result ≡ seats_in self.now.layout r }
    {
        self.layout.records()[usize::from(r)].seats
    }

    /// The rule of admission, problem 1 or 2.
    pub(super) fn problem(&self, r: u16) -> u16
        requires { r < length self.now.layout.records }
        ensures { result ≡ problem_in self.now.layout r }
    {
        self.layout.records()[usize::from(r)].problem
    }

    #[tactic(auto, using(crate::proofs::CoreLemmas::rights_shown))]
    /// How many seats the site may take or give away.
    pub(super) fn rights(&self, r: u16) -> u64
        requires { r < length self.now.layout.records }
        ensures { result ≡ rights_of (core_view self.now) r }
    {
        self.book.rights(r, self.site)
    }

    #[tactic(auto, using(crate::proofs::CoreLemmas::writer_shown, crate::proofs::CoreLemmas::no_writer_shown))]
    /// The least site whose writer the book shows unfinished.
    pub(super) fn first_unfinished(&self, r: u16) -> Option<u16>
        requires { r < length self.now.layout.records }
        ensures { result ≡ first_unfinished (core_view self.now) r }
    {
        self.book.unfinished(r)
    }
}
