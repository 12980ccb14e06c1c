//! Laws of the definitions in specs/: functions that do nothing, whose contracts are the laws.
ghost use Rattle.std.specs.Prelude.{◌≡◌, ◌≢◌, ◌↔◌, ℕ, ◌+◌, ◌<◌, ◌≤◌, ◌++◌, List, length, map, Some, None};
ghost use Rattle.merge_core.specs.declared.cell.Cell.{Cell};
ghost use Rattle.merge_core.specs.declared.cell.Cell.TheVariants.{Out, Ann, Fin};
ghost use Rattle.merge_core.specs.declared.delta.Row.{Row};
ghost use Rattle.merge_core.specs.Layout.{LayoutState, shape_of, at_sites};
ghost use Rattle.merge_core.specs.Rows.{start_counter};
ghost use Rattle.merge_core.specs.Naming.{shown_by};
ghost use Rattle.admission_model.specs.declared.ask.Ask.{Ask};
ghost use Rattle.admission_model.specs.declared.ask.Ask.TheVariants.{Read};
ghost use Rattle.admission_model.specs.declared.ask.Call.{Call};
ghost use Rattle.session_list.specs.declared.session.Phase.{Phase};
ghost use Rattle.admission_model.specs.declared.ask.Call.TheVariants.{Ask as AskCall};
ghost use Rattle.admission_model.specs.declared.reply.Refusal.{Refusal};
ghost use Rattle.admission_model.specs.declared.reply.Refusal.TheVariants.{WriterAnnounced};
ghost use Rattle.admission_model.specs.declared.reply.Reply.TheVariants.{Admitted, Refused};
ghost use Rattle.admission_model.specs.declared.reply.Plan.{Plan};
ghost use Rattle.admission_model.specs.Account.{Account, Origin, begin, start_origin, layout_of, key_of, phase_of, present, sessions_of, inside, writers, writers_here};
ghost use Rattle.session_list.specs.declared.session.Session.{Session};
ghost use Rattle.admission_model.specs.Knowledge.{known, hears, hears_all, durable_part, resumed, restarted, grown};
ghost use Rattle.admission_model.specs.View.{View, view_of, rights_of, first_unfinished, plan_of, problem_in};
ghost use Rattle.admission_model.specs.Merging.{snapshot_of};
ghost use Rattle.admission_model.specs.Serving.{Step, after, after_step, replay, reason, operation_of, reply_of};
ghost use Rattle.admission_model.specs.Sound.{IsOrigin};
ghost use Rattle.admission_model.specs.Reached.{IsReached};
ghost use Rattle.admission_model.specs.Books.{ShowsBook, HasBook};
ghost use Rattle.merge_core.specs.Book.{BookState, HasCell, seats_at, notices_at, IsBook};
ghost use Rattle.merge_core.specs.Seats.{seat_rights, inside_of, HasSeatRights};
ghost use Rattle.merge_core.specs.Notices.{open_count, IsOpen, IsLeastOpen};
ghost use Rattle.admission_model.specs.Laws.{SameCounters, KnowsUnfinished, raised_to, CountsUnits, CountsSessions, SourcesAgree, DeltasAgree, IsFirstUnfinished, MayAsk, DifferInNotices, IsFeasible, ShowTheSame, KeepTheSame, StandsFor};
ghost use Rattle.admission_model.specs.Durable.{durable_cells, AreRising, put_cells, change_between, IsEmpty, KeepsSessions};
ghost use Rattle.admission_model.specs.Asked.{operation_change};
ghost use Rattle.admission_model.specs.declared.durable.DurableCell.{DurableCell};
ghost use Rattle.admission_model.specs.Restoring.{origin_from, AreCells, AreSessions};
ghost use Rattle.admission_model.specs.Order.{sessions_next, arrived, last_of_each, unnamed};
ghost use Rattle.admission_model.specs.Examples.{answers, wanted, read_cases, announce_cases, write_cases, leave_cases, give_cases, help_cases, merge_cases, snapshot_cases, slots_asked, slots_wanted, begun, asks, comings, comings_order, told_rows, well_informed, known_rows, known_before, known_after, two_sessions};

/// An account may begin at the start of each site, and wherever a stop leaves a reached account, under its
/// layout or a later one.
pub fn origin_law()
    ensures start { (layout : LayoutState) → (i : ℕ) → i < layout.sites → IsOrigin (start_origin layout i) }
    ensures again { (a : Account) → IsReached a → (n : ℕ) → a.sites ≤ n → IsOrigin (resumed n a) }
{}

/// A known counter is the number of its units that some source names.
pub fn units_law()
    ensures { (a : Account) → IsReached a → CountsUnits a }
{}

/// The sessions and the counters tell the same rights, seats inside and writers.
pub fn sessions_law()
    ensures { (a : Account) → IsReached a → (r : ℕ) → CountsSessions a r }
{}

/// A step never lessens the number of sites, and all counters of sites that are not known are at their start.
pub fn sites_law()
    ensures grow { (a : Account) → (step : Step) → a.sites ≤ (after_step a step).sites }
    ensures rows { (a : Account) → IsReached a → (r s : ℕ) → (cell : Cell) → a.sites ≤ s → known a r s cell ≡ start_counter (shape_of a.origin.layout) r s cell }
    ensures sent { (a : Account) → IsReached a → (r s j : ℕ) → a.sites ≤ j → known a r s (Out j) ≡ start_counter (shape_of a.origin.layout) r s (Out j) }
{}

/// No step takes a known announced or finished writer from a site, a restart or a growth neither.
pub fn notices_law()
    ensures announced { (a : Account) → (step : Step) → (r s : ℕ) → known a r s Ann ≤ known (after_step a step) r s Ann }
    ensures finished { (a : Account) → (step : Step) → (r s : ℕ) → known a r s Fin ≤ known (after_step a step) r s Fin }
{}

/// What a site tells shows each counter of the layout as the site knows it.
pub fn snapshot_law()
    ensures { (v : View) → (r s : ℕ) → (cell : Cell) → r < length v.layout.records → s < v.layout.sites
        → HasCell v.layout.sites cell → shown_by (shape_of v.layout) (snapshot_of v).rows r s cell ≡ v.counter r s cell }
{}

/// Sites that know the same units have equal counters, however many sites each knows; and deltas that name
/// the same units, in whatever order, grouping and repetition they are merged, leave equal counters.
pub fn equal_books_law()
    ensures counters { (a b : Account) → IsReached a → IsReached b → SourcesAgree a b → SameCounters a b }
    ensures merges { (a : Account) → (first second : List (List Row)) → DeltasAgree (shape_of a.origin.layout) first second → SameCounters (hears_all a first) (hears_all a second) }
{}

/// Under problem 2 no reader is admitted where some site shows an unfinished writer, and one whom nothing else
/// refuses is told of the least such site; under problem 1 notices change nothing for a reader.
pub fn announced_writer_law()
    ensures none_admitted { (a : Account) → IsReached a → (r h s : ℕ) → problem_in a.origin.layout r ≡ 2 → KnowsUnfinished a r s → reply_of (view_of a) (AskCall (Read r h)) ≢ Admitted }
    ensures held { (v : View) → (r h s : ℕ) → problem_in v.layout r ≡ 2 → MayAsk v r h → IsFirstUnfinished v r s → reply_of v (AskCall (Read r h)) ≡ Refused (WriterAnnounced s) }
    ensures not_held { (v w : View) → (r h : ℕ) → problem_in v.layout r ≡ 1 → DifferInNotices v w → reply_of w (AskCall (Read r h)) ≡ reply_of v (AskCall (Read r h)) }
{}

/// A plan sends seats to another site of the layout, and no more than the site has rights to.
pub fn plan_law()
    ensures { (v : View) → (r : ℕ) → (plan : Plan) → v.site < v.layout.sites → plan_of v r ≡ Some plan → IsFeasible v r plan }
{}

/// What a restart and a growth keep is the durable part, and the account that begins from it, under the same
/// layout or a later one, shows what the restarted or grown account shows.
pub fn durable_law()
    ensures kept { (a : Account) → KeepTheSame (durable_part (restarted a)) (durable_part a) }
    ensures kept_grown { (a : Account) → (n : ℕ) → KeepTheSame (durable_part (grown n a)) (durable_part a) }
    ensures resumed { (a : Account) → IsReached a → ShowTheSame (begin (resumed a.sites a)) (restarted a) }
    ensures resumed_grown { (a : Account) → IsReached a → (n : ℕ) → a.sites ≤ n → ShowTheSame (begin (resumed n a)) (grown n a) }
{}

/// Cells and sessions that agree are where an account may begin. A reached account's are such cells and
/// sessions, under its layout or a later one, of at most 16 sites; and the account that begins from them shows
/// what the account shows that was started again.
pub fn restoring_law()
    ensures origin { (layout : LayoutState) → (i : ℕ) → (cells : List DurableCell) → (sessions : List Session) → i < layout.sites
        → AreCells layout i cells → AreSessions layout i cells sessions → IsOrigin (origin_from layout i cells sessions) }
    ensures cells { (a : Account) → IsReached a → (n : ℕ) → a.sites ≤ n → n ≤ 16 → AreCells (at_sites n a.origin.layout) a.origin.site (durable_cells a) }
    ensures sessions { (a : Account) → IsReached a → (n : ℕ) → a.sites ≤ n → n ≤ 16
        → AreSessions (at_sites n a.origin.layout) a.origin.site (durable_cells a) (sessions_of a) }
    ensures restored { (a : Account) → IsReached a → (n : ℕ) → a.sites ≤ n → n ≤ 16
        → ShowTheSame (begin (origin_from (at_sites n a.origin.layout) a.origin.site (durable_cells a) (sessions_of a))) (grown n a) }
{}

/// A refusal is answered only where it is the reason.
pub fn reason_law()
    ensures { (v : View) → (call : Call) → (refusal : Refusal) → reply_of v call ≡ Refused refusal → reason v call ≡ Some refusal }
{}

/// What stands for an account answers as the account does, and two accounts that show the same show the same
/// after each step.
pub fn stands_law()
    ensures reply { (v : View) → (order : List Session) → (a : Account) → StandsFor v order a → (call : Call) → reply_of v call ≡ reply_of (view_of a) call }
    ensures step { (a b : Account) → ShowTheSame a b → (step : Step) → ShowTheSame (after_step a step) (after_step b step) }
{}

/// What an ask that nothing refuses leaves: the sessions in order, and the counters of the site's own row. A
/// site begins with the sessions of its base, in their order.
pub fn asked_law()
    ensures base { (o : Origin) → IsOrigin o → sessions_of (begin o) ≡ o.base.sessions }
    ensures sessions { (a : Account) → (ask : Ask) → reason (view_of a) (AskCall ask) ≡ None → sessions_of (after a (AskCall ask)) ≡ sessions_next (operation_of (view_of a) ask) (sessions_of a) }
    ensures counters { (a : Account) → (ask : Ask) → reason (view_of a) (AskCall ask) ≡ None → (r s : ℕ) → (cell : Cell)
        → known (after a (AskCall ask)) r s cell ≡ known a r s cell + raised_to a (operation_of (view_of a) ask) r s cell }
{}

/// The sessions of a site stand in order of arrival: first, as in the base, those whose holder never arrived since, and
/// then the others by their last arrival.
pub fn order_law()
    ensures { (a : Account) → sessions_of a ≡ present (phase_of a) (unnamed (arrived a.done) (map key_of a.origin.base.sessions) ++ last_of_each (arrived a.done)) }
{}

/// The cells of a durable part rise, and so do those of a change; those of a call's change, put at their places,
/// make the old cells the new ones; and a change is empty where the durable part stays the same.
pub fn change_law()
    ensures rising { (a : Account) → AreRising (durable_cells a) }
    ensures change_rising { (a b : Account) → AreRising (change_between a b).cells }
    ensures put { (a : Account) → IsReached a → (call : Call) → put_cells (change_between a (after a call)).cells (durable_cells a) ≡ durable_cells (after a call) }
    ensures empty { (a : Account) → IsReached a → (call : Call) → KeepTheSame (durable_part (after a call)) (durable_part a) → IsEmpty (change_between a (after a call)) }
{}

/// An ask that nothing refuses changes of the durable part what its operation tells: at most two counters and one
/// session. A refused call changes nothing, and a merge no session.
pub fn asked_change_law()
    ensures asked { (a : Account) → IsReached a → a.sites ≤ 16 → (ask : Ask) → reason (view_of a) (AskCall ask) ≡ None
        → change_between a (after a (AskCall ask)) ≡ operation_change (view_of a) (operation_of (view_of a) ask) }
    ensures refused { (a : Account) → IsReached a → (call : Call) → (refusal : Refusal) → reason (view_of a) call ≡ Some refusal → IsEmpty (change_between a (after a call)) }
    ensures nothing { (a : Account) → IsReached a → IsEmpty (change_between a a) }
    ensures merged { (a : Account) → IsReached a → (rows : List Row) → KeepsSessions (change_between a (hears a rows)) }
{}

/// Where a view shows a book, the model says of it what the book's own crates say.
pub fn book_law()
    ensures rights { (b : BookState) → (v : View) → (r : ℕ) → IsBook b → ShowsBook b v → r < length b.records → v.site < b.sites → rights_of v r ≡ seat_rights (seats_at b r) v.site }
    ensures writers { (b : BookState) → (v : View) → (r s : ℕ) → IsBook b → ShowsBook b v → r < length b.records → ((first_unfinished v r ≡ Some s) ↔ IsLeastOpen (notices_at b r) s) }
    ensures has_rights { (a : Account) → (b : BookState) → HasBook a b → (r : ℕ) → r < length b.records → HasSeatRights (seats_at b r) a.origin.site }
    ensures inside { (a : Account) → (b : BookState) → HasBook a b → (r : ℕ) → r < length b.records → inside_of (seats_at b r) a.origin.site ≡ inside a r }
    ensures open { (a : Account) → (b : BookState) → HasBook a b → (r : ℕ) → r < length b.records → open_count (notices_at b r) a.origin.site ≡ writers_here a r }
    ensures open_session { (a : Account) → (b : BookState) → HasBook a b → (r h : ℕ) → (p : Phase) → r < length b.records
        → phase_of a r h ≡ Some p → 1 ≤ writers p → IsOpen (notices_at b r) a.origin.site }
    ensures no_writer { (b : BookState) → (v : View) → (r : ℕ) → IsBook b → ShowsBook b v → r < length b.records → ((first_unfinished v r ≡ None) ↔ ((s : ℕ) → ¬ IsOpen (notices_at b r) s)) }
{}

/// The reply table by computation: each two refusals that can both apply, and both sides of each limit.
pub fn reply_examples()
    ensures read { answers read_cases ≡ wanted read_cases }
    ensures announce { answers announce_cases ≡ wanted announce_cases }
    ensures write { answers write_cases ≡ wanted write_cases }
    ensures leave { answers leave_cases ≡ wanted leave_cases }
    ensures give { answers give_cases ≡ wanted give_cases }
    ensures help { answers help_cases ≡ wanted help_cases }
    ensures merge { answers merge_cases ≡ wanted merge_cases }
    ensures snapshot { answers snapshot_cases ≡ wanted snapshot_cases }
    ensures slots { slots_asked ≡ slots_wanted }
    ensures order { sessions_of (replay begun (asks comings)) ≡ comings_order }
{}

/// What a site knows before a restart or a growth and after it, by computation, on two records: the rights and seats
/// of another site are forgotten until it is heard again; what it sent here, its writers, the own rows and the
/// sessions stay.
pub fn restart_examples()
    ensures before { known_rows well_informed ≡ known_before }
    ensures restart { known_rows (restarted well_informed) ≡ known_after }
    ensures growth { known_rows (grown 3 well_informed) ≡ known_after }
    ensures grown_sites { (layout_of (grown 3 well_informed)).sites ≡ 3 }
    ensures sessions { sessions_of (restarted well_informed) ≡ two_sessions }
    ensures grown_sessions { sessions_of (grown 3 well_informed) ≡ two_sessions }
    ensures heard_again { known_rows (hears (restarted well_informed) told_rows) ≡ known_before }
{}
