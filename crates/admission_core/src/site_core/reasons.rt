//! Why a site refuses: for each call its refusals, of which the first that applies is answered.
ghost use Rattle.std.specs.Prelude.{◌≡◌, ◌+◌, nat_lt};
ghost use Rattle.grow_counters.specs.Counts.{counter_limit};

use super::SiteCore;
use admission_model::{HOLDER_LIMIT, Phase, Plan, Refusal};
use grow_counters::COUNTER_LIMIT;
use merge_core::Cell;
use writer_notices::MOST_WRITERS;

impl SiteCore {
    ghost use Rattle.std.specs.Prelude.{◌≡◌, ◌+◌, MatchResult, None, Some};
    ghost use Rattle.merge_core.specs.Book.{counter_of};
    ghost use Rattle.merge_core.specs.declared.cell.Cell.TheVariants.{Ann};
    ghost use Rattle.session_list.specs.Sessions.{phase_in};
    ghost use Rattle.admission_model.specs.View.{plan_of};
    ghost use Rattle.admission_model.specs.Replies.{read_lines, announce_lines, write_lines, leave_lines, give_lines, help_lines, first_reason};
    ghost use Rattle.admission_core.specs.Core.{core_view};

    pub(super) fn read_reason(&self, r: u16, h: u64) -> Option<Refusal>
        ensures { result ≡ first_reason (read_lines (core_view self.now) r h) }
    {
        if !self.has_record(r) {
            return Some(Refusal::NoRecord);
        }
        if h > HOLDER_LIMIT {
            return Some(Refusal::BadHolder);
        }
        if self.sessions.phase(r, h).is_some() {
            return Some(Refusal::AlreadyHere);
        }
        if passes_limit(self.own(r, Cell::Taken), 1) {
            return Some(Refusal::CounterFull);
        }
        if let Some(site) = self.writer_before_readers(r) {
            return Some(Refusal::WriterAnnounced { site });
        }
        let rights = self.rights(r);
        if rights == 0 {
            return Some(Refusal::NoSeat { rights });
        }
        None
    }

    // The number of a writer that may announce itself.
    pub(super) fn number_to_announce(&self, r: u16, h: u64) -> Result<u64, Refusal>
        ensures { MatchResult result
            (λ number. (first_reason (announce_lines (core_view self.now) r h) ≡ None) × (number ≡ counter_of self.now.book r self.now.site Ann + 1))
            (λ refusal. first_reason (announce_lines (core_view self.now) r h) ≡ Some refusal) }
    {
        if !self.has_record(r) {
            return Err(Refusal::NoRecord);
        }
        if h > HOLDER_LIMIT {
            return Err(Refusal::BadHolder);
        }
        if self.sessions.phase(r, h).is_some() {
            return Err(Refusal::AlreadyHere);
        }
        let announced = self.own(r, Cell::Ann);
        if passes_limit(announced, 1) {
            return Err(Refusal::CounterFull);
        }
        if announced.saturating_sub(self.own(r, Cell::Fin)) >= MOST_WRITERS {
            return Err(Refusal::TooManyWriters);
        }
        Ok(announced + 1)
    }

    pub(super) fn write_reason(&self, r: u16, h: u64) -> Option<Refusal>
        ensures { result ≡ first_reason (write_lines (core_view self.now) r h) }
    {
        if !self.has_record(r) {
            return Some(Refusal::NoRecord);
        }
        if h > HOLDER_LIMIT {
            return Some(Refusal::BadHolder);
        }
        match self.sessions.phase(r, h) {
            None | Some(Phase::Reader) => return Some(Refusal::NotAnnounced),
            Some(Phase::Writer) => return Some(Refusal::AlreadyInside),
            Some(Phase::Waiting) => {}
        }
        let seats = self.seats(r);
        if passes_limit(self.own(r, Cell::Taken), u64::from(seats)) {
            return Some(Refusal::CounterFull);
        }
        let rights = self.rights(r);
        if rights < u64::from(seats) {
            return Some(Refusal::MissingSeats { rights, seats });
        }
        None
    }

    // The phase of a session that may leave.
    pub(super) fn phase_to_leave(&self, r: u16, h: u64) -> Result<Phase, Refusal>
        ensures { MatchResult result
            (λ phase. (first_reason (leave_lines (core_view self.now) r h) ≡ None) × (phase_in self.now.sessions r h ≡ Some phase))
            (λ refusal. first_reason (leave_lines (core_view self.now) r h) ≡ Some refusal) }
    {
        if !self.has_record(r) {
            return Err(Refusal::NoRecord);
        }
        if h > HOLDER_LIMIT {
            return Err(Refusal::BadHolder);
        }
        let Some(phase) = self.sessions.phase(r, h) else {
            return Err(Refusal::NotHere);
        };
        Ok(phase)
    }

    pub(super) fn give_reason(&self, r: u16, to: u16, seats: u64) -> Option<Refusal>
        ensures { result ≡ first_reason (give_lines (core_view self.now) r to seats) }
    {
        if !self.has_record(r) {
            return Some(Refusal::NoRecord);
        }
        if to >= self.layout.sites() {
            return Some(Refusal::NoSite);
        }
        if to == self.site {
            return Some(Refusal::ToSelf);
        }
        if seats == 0 {
            return Some(Refusal::ZeroSeats);
        }
        if passes_limit(self.own(r, Cell::Out(to)), seats) {
            return Some(Refusal::CounterFull);
        }
        let rights = self.rights(r);
        if rights < seats {
            return Some(Refusal::TooFewRights { rights });
        }
        None
    }

    // The plan that may be carried out.
    pub(super) fn plan_to_help(&self, r: u16) -> Result<Plan, Refusal>
        ensures { MatchResult result
            (λ plan. (first_reason (help_lines (core_view self.now) r) ≡ None) × (plan_of (core_view self.now) r ≡ Some plan))
            (λ refusal. first_reason (help_lines (core_view self.now) r) ≡ Some refusal) }
    {
        if !self.has_record(r) {
            return Err(Refusal::NoRecord);
        }
        let _ = &self.site; // tells the invariant: it is one of the layout's
        let Some(plan) = self.plan_for(r) else {
            return Err(Refusal::NoPlan);
        };
        if passes_limit(self.own(r, Cell::Out(plan.to)), plan.seats) {
            return Err(Refusal::CounterFull);
        }
        Ok(plan)
    }

    ghost use Rattle.std.specs.Prelude.{◌<◌, length, MatchOption, false};
    ghost use Rattle.admission_model.specs.Replies.{must_wait};
    ghost use Rattle.admission_model.specs.View.{first_unfinished};
    ghost use Rattle.std.specs.Prelude.{true};

    // The site whose writer goes before new readers.
    fn writer_before_readers(&self, r: u16) -> Option<u16>
        requires { r < length self.now.layout.records }
        ensures { MatchOption result
            (must_wait (core_view self.now) r ≡ false)
            (λ s. (must_wait (core_view self.now) r ≡ true) × (first_unfinished (core_view self.now) r ≡ Some s)) }
    {
        if self.problem(r) != 2 {
            return None;
        }
        self.first_unfinished(r)
    }
}

// Whether a counter that rises by so much would pass its limit.
fn passes_limit(counter: u64, by: u64) -> bool
    ensures { result ≡ nat_lt counter_limit (counter + by) }
{
    by > COUNTER_LIMIT || counter > COUNTER_LIMIT - by
}
