//! Laws of the definitions in specs/: functions that do nothing, whose contracts are the laws.
ghost use Rattle.std.specs.Prelude.{◌≡◌, ◌≢◌, ◌⊎◌, ◌++◌, ◌∷◌, [], ℕ, ◌<◌, ◌≤◌, List, length};
ghost use Rattle.std.specs.List.{AllByRecursion};
ghost use Rattle.merge_core.specs.declared.cell.Cell.{Cell};
ghost use Rattle.merge_core.specs.declared.cell.Cell.TheVariants.{Ann, Fin};
ghost use Rattle.merge_core.specs.Delta.{DeltaState};
ghost use Rattle.merge_core.specs.Layout.{LayoutState, IsLayout};
ghost use Rattle.admission_model.specs.declared.ask.Ask.TheVariants.{Read, Announce};
ghost use Rattle.admission_model.specs.declared.ask.Call.TheVariants.{Ask as AskCall, Merge, Snapshot as SnapshotCall};
ghost use Rattle.session_list.specs.declared.session.Phase.TheVariants.{Writer};
ghost use Rattle.admission_model.specs.declared.reply.Refusal.TheVariants.{CounterFull, WriterAnnounced, OtherLayout, BadRow, OwnRowAhead};
ghost use Rattle.admission_model.specs.declared.reply.Reply.TheVariants.{Admitted, Announced, Refused, Snapshot as SnapshotReply};
ghost use Rattle.admission_model.specs.Account.{Account, begin, seats_in, sessions_of, start_origin};
ghost use Rattle.admission_model.specs.Knowledge.{known};
ghost use Rattle.admission_model.specs.View.{problem_in, view_of, rights_of};
ghost use Rattle.admission_model.specs.Serving.{after, reply_of};
ghost use Rattle.admission_model.specs.Reached.{IsReached};
ghost use Rattle.admission_model.specs.Laws.{SameCounters, KnowsUnfinished, SourcesAgree, MayAsk, IsFirstUnfinished};
ghost use Rattle.multi_site_world.specs.declared.event.Event.{Event};
ghost use Rattle.multi_site_world.specs.declared.event.Event.TheVariants.{Call, Take, Thin};
ghost use Rattle.multi_site_world.specs.declared.event.WorldReply.TheVariants.{Core};
ghost use Rattle.multi_site_world.specs.World.{World, account_at, happens, replies, run, start_world, world_reply};
ghost use Rattle.multi_site_world.specs.Laws.{IsReachedWorld, HasTaken, IsConserved, IsWriterAlone, AreLogged, IsConsistentCut, WasSent, all_inside, IsMergedReply, IsMergedOrOther, KnowsAllSites, gathering, CanGather, AreGathered};
ghost use Rattle.admission_model.specs.Examples.{three_records};
ghost use Rattle.multi_site_world.specs.Instances.{three_sites, writer_heard, others_of_1, gathered_replies, writer_there, log_of_0, accounts_of, records_used, records_used_replies};
ghost use Rattle.multi_site_world.specs.Examples.{small_layout, seats_at_home, seats_at_home_replies, message_again, message_again_replies, seat_grows, seat_grows_replies, grows_whole, grows_whole_replies, seats_shown, seat_moves, seat_moves_replies, writer_announced, writer_announced_replies, reader_not_held, writer_helped, writer_helped_replies, writer_done, writer_done_replies, seat_kept, seat_kept_replies, writer_remembered, writer_remembered_replies, layout_grows, layout_grows_replies, thin_taken, thin_taken_replies, withdrawal_thin, withdrawal_thin_replies, writer_helped_messages, writer_withdraws, writer_withdraws_replies, stale_book, stale_book_replies, refusals, refusals_replies, writers_announced, writers_announced_replies, writers_limit, writers_limit_replies, seats_shared, seats_shared_replies, refusals_in_order, refusals_in_order_replies, used_site, seat_moves_message, other_layout_message, bad_row_message};

/// Seats are conserved: in every reached world a record's seats are the rights of all sites, the weights inside
/// and the seats in flight, and no site has spent more than it gained.
pub fn conservation_law()
    ensures { (w : World) → IsReachedWorld w → (r : ℕ) → IsConserved w r }
{}

/// Each account of a reached world is one that steps lead to: the laws of one site hold of it.
pub fn account_law()
    ensures { (w : World) → IsReachedWorld w → (i : ℕ) → i < w.layout.sites → IsReached (account_at w i) }
{}

/// A site that knows all sites merges every message that was sent, whole or thin, and every delta of rows that
/// were sent: all rows of a message or some, of one message or of several. A site that has yet to grow merges
/// it, or names a row of another layout; nothing else is ever answered.
pub fn message_law()
    ensures message { (w : World) → IsReachedWorld w → (i k : ℕ) → KnowsAllSites w i → k < length w.sent → IsMergedReply (world_reply w (Take i k)) }
    ensures thin { (w : World) → IsReachedWorld w → (i k l : ℕ) → KnowsAllSites w i → k < length w.sent → l < length w.sent → IsMergedReply (world_reply w (Thin i k l)) }
    ensures rows { (w : World) → IsReachedWorld w → (i : ℕ) → (delta : DeltaState) → KnowsAllSites w i
        → AllByRecursion (WasSent w.sent) delta.rows → IsMergedReply (Core (reply_of (view_of (account_at w i)) (Merge delta))) }
    ensures message_answered { (w : World) → IsReachedWorld w → (i k : ℕ) → i < w.layout.sites → k < length w.sent → IsMergedOrOther (world_reply w (Take i k)) }
    ensures thin_answered { (w : World) → IsReachedWorld w → (i k l : ℕ) → i < w.layout.sites → k < length w.sent → l < length w.sent → IsMergedOrOther (world_reply w (Thin i k l)) }
    ensures rows_answered { (w : World) → IsReachedWorld w → (i : ℕ) → (delta : DeltaState) → i < w.layout.sites
        → AllByRecursion (WasSent w.sent) delta.rows → IsMergedOrOther (Core (reply_of (view_of (account_at w i)) (Merge delta))) }
{}

/// Where a site knows each row of an earlier message, a thin message leaves the counters that the whole one
/// leaves.
pub fn thin_law()
    ensures { (w : World) → IsReachedWorld w → (i k l : ℕ) → HasTaken w i l → SameCounters (account_at (happens w (Thin i k l)) i) (account_at (happens w (Take i k)) i) }
{}

/// No event takes a known announced or finished writer from a site.
pub fn notices_law()
    ensures announced { (w : World) → (event : Event) → (i r s : ℕ) → known (account_at w i) r s Ann ≤ known (account_at (happens w event) i) r s Ann }
    ensures finished { (w : World) → (event : Event) → (i r s : ℕ) → known (account_at w i) r s Fin ≤ known (account_at (happens w event) i) r s Fin }
{}

/// Each site has a log of its own, and nothing is known of an order between them. Where the logs' ends are a
/// consistent cut, the weights inside are at most the seats, and a writer is alone.
pub fn separate_logs_law()
    ensures seats { (layout : LayoutState) → IsLayout layout → (accounts : ℕ → Account) → AreLogged layout accounts
        → IsConsistentCut layout accounts → (r : ℕ) → all_inside accounts layout.sites r ≤ seats_in layout r }
    ensures writer { (layout : LayoutState) → IsLayout layout → (accounts : ℕ → Account) → AreLogged layout accounts
        → IsConsistentCut layout accounts → (r : ℕ) → IsWriterAlone accounts layout.sites r }
{}

/// From a reached world in which w knows all sites, nobody is inside a record, none of its seats is in flight
/// and every other site shows w as the least site with an unfinished writer: when each other site helps, sends,
/// and w takes the message, in any order of the sites and each at least once, w has the rights to all seats. No
/// help may meet a full counter.
pub fn gather_law()
    ensures rights { (u : World) → IsReachedWorld u → (r w : ℕ) → (others : List ℕ) → CanGather u r w others
        → rights_of (view_of (account_at (run (gathering r w (length u.sent) others) u) w)) r ≡ seats_in u.layout r }
    ensures answered { (u : World) → IsReachedWorld u → (r w : ℕ) → (others : List ℕ) → CanGather u r w others → AreGathered (replies (gathering r w (length u.sent) others) u) }
{}

/// What the whole design is for, in every reached world: two sites that know the same units have the same
/// counters; a writer who is inside has the record alone, in the whole world; and under problem 2 a site whose
/// own book shows an unfinished writer admits no reader, and tells one whom nothing else refuses of the least
/// site with such a writer.
pub fn headline_law()
    ensures equal_books { (w : World) → IsReachedWorld w → (i j : ℕ) → i < w.layout.sites → j < w.layout.sites
        → SourcesAgree (account_at w i) (account_at w j) → SameCounters (account_at w i) (account_at w j) }
    ensures writer_alone { (w : World) → IsReachedWorld w → (r : ℕ) → IsWriterAlone (account_at w) w.layout.sites r }
    ensures no_reader_admitted { (w : World) → IsReachedWorld w → (i r h s : ℕ) → i < w.layout.sites → problem_in w.layout r ≡ 2
        → KnowsUnfinished (account_at w i) r s → world_reply w (Call i (Read r h)) ≢ Core Admitted }
    ensures announced_writer_first { (w : World) → IsReachedWorld w → (i r h s : ℕ) → i < w.layout.sites → problem_in w.layout r ≡ 2
        → let v = view_of (account_at w i) in MayAsk v r h → IsFirstUnfinished v r s
        → world_reply w (Call i (Read r h)) ≡ Core (Refused (WriterAnnounced s)) }
{}

/// Short scripts and their replies, by computation alone.
pub fn examples()
    ensures seats_at_home { replies seats_at_home (start_world 2 (small_layout 2 2 1)) ≡ seats_at_home_replies }
    ensures message_again { replies (seat_moves ++ message_again) (start_world 2 (small_layout 2 2 1)) ≡ seat_moves_replies ++ message_again_replies }
    ensures seat_grown { replies seat_grows (start_world 2 (small_layout 3 2 1)) ≡ seat_grows_replies }
    ensures grown_whole { replies grows_whole (start_world 1 (small_layout 3 2 1)) ≡ grows_whole_replies }
    ensures helper_shows { seats_shown writer_there 0 ≡ 0 ∷ (0 ∷ (0 ∷ [])) }
    ensures writer_shows { seats_shown writer_there 1 ≡ 0 ∷ (3 ∷ (1 ∷ [])) }
    ensures other_shows { seats_shown writer_there 2 ≡ 0 ∷ (0 ∷ (0 ∷ [])) }
    ensures helper_sessions { sessions_of (account_at writer_there 0) ≡ [] }
    ensures writer_sessions { sessions_of (account_at writer_there 1) ≡ record { r = 0; h = 5; phase = Writer } ∷ [] }
    ensures seat_moves { replies seat_moves (start_world 2 (small_layout 2 2 1)) ≡ seat_moves_replies }
    ensures writer_announced { replies writer_announced (start_world 3 (small_layout 3 3 2)) ≡ writer_announced_replies }
    ensures reader_not_held { replies writer_announced (start_world 3 (small_layout 3 3 1)) ≡ reader_not_held }
    ensures writer_helped { replies (writer_announced ++ writer_helped) (start_world 3 (small_layout 3 3 2)) ≡ writer_announced_replies ++ writer_helped_replies }
    ensures writer_done { replies (writer_announced ++ (writer_helped ++ writer_done)) (start_world 3 (small_layout 3 3 2))
        ≡ writer_announced_replies ++ (writer_helped_replies ++ writer_done_replies) }
    ensures seat_kept { replies (seat_moves ++ seat_kept) (start_world 2 (small_layout 2 2 1)) ≡ seat_moves_replies ++ seat_kept_replies }
    ensures writer_remembered { replies writer_remembered (start_world 3 (small_layout 3 3 2)) ≡ writer_remembered_replies }
    ensures layout_grown { replies layout_grows (start_world 1 (small_layout 2 2 1)) ≡ layout_grows_replies }
    ensures thin_merged { replies (writer_announced ++ (writer_helped ++ thin_taken)) (start_world 3 (small_layout 3 3 2)) ≡ writer_announced_replies ++ (writer_helped_replies ++ thin_taken_replies) }
    ensures withdrawal_thin { replies withdrawal_thin (start_world 2 (small_layout 2 2 1)) ≡ withdrawal_thin_replies }
    ensures records_used { replies records_used (start_world 3 three_records) ≡ records_used_replies }
    ensures messages { (run (writer_announced ++ writer_helped) (start_world 3 (small_layout 3 3 2))).sent ≡ writer_helped_messages }
    ensures writer_withdraws { replies writer_withdraws (start_world 1 (small_layout 1 1 1)) ≡ writer_withdraws_replies }
    ensures stale_book { replies stale_book (start_world 3 (small_layout 3 3 2)) ≡ stale_book_replies }
    ensures refusals { replies refusals (start_world 2 (small_layout 2 2 1)) ≡ refusals_replies }
    ensures writers_limit { replies (writers_announced 64 ++ writers_limit) (start_world 2 (small_layout 2 2 1)) ≡ writers_announced_replies 64 ++ writers_limit_replies }
    ensures seats_shared { replies seats_shared (start_world 2 (small_layout 2 3 1)) ≡ seats_shared_replies }
    ensures refusals_in_order { replies refusals_in_order (start_world 2 (small_layout 2 2 2)) ≡ refusals_in_order_replies }
    ensures last_seat_taken { reply_of (used_site 999999999999) (AskCall (Read 0 1)) ≡ Admitted }
    ensures taken_full { reply_of (used_site 1000000000000) (AskCall (Read 0 1)) ≡ Refused CounterFull }
    ensures last_announced { reply_of (used_site 999999999999) (AskCall (Announce 0 1)) ≡ Announced 1000000000000 }
    ensures announced_full { reply_of (used_site 1000000000000) (AskCall (Announce 0 1)) ≡ Refused CounterFull }
    ensures message { (run seat_moves (start_world 2 (small_layout 2 2 1))).sent ≡ seat_moves_message ∷ [] }
    ensures other_layout { reply_of (view_of (begin (start_origin (small_layout 2 2 1) 1))) (Merge other_layout_message) ≡ Refused (OtherLayout 1) }
    ensures bad_row { reply_of (view_of (begin (start_origin (small_layout 2 2 1) 1))) (Merge bad_row_message) ≡ Refused (BadRow 1) }
    ensures nothing_taken { reply_of (view_of (after (begin (start_origin (small_layout 2 2 1) 0)) (Merge seat_moves_message))) SnapshotCall ≡ SnapshotReply (record { from = 0; rows = [] }) }
    ensures own_row_ahead { reply_of (view_of (begin (start_origin (small_layout 2 2 1) 0))) (Merge seat_moves_message) ≡ Refused (OwnRowAhead 0) }
{}

/// The premises of the laws are met: three sites of which one may gather all seats and does, a site that knows
/// an earlier message, logs whose ends are a consistent cut, and the same logs with one cut shorter, whose ends
/// are none.
pub fn instances()
    ensures can_gather { CanGather writer_heard 0 1 others_of_1 }
    ensures gathered { replies (gathering 0 1 (length writer_heard.sent) others_of_1) writer_heard ≡ gathered_replies }
    ensures all_seats { rights_of (view_of (account_at (run (gathering 0 1 (length writer_heard.sent) others_of_1) writer_heard) 1)) 0 ≡ 3 }
    ensures has_taken { HasTaken writer_there 1 1 }
    ensures logged { AreLogged three_sites (accounts_of log_of_0) }
    ensures cut { IsConsistentCut three_sites (accounts_of log_of_0) }
    ensures logged_short { AreLogged three_sites (accounts_of []) }
    ensures no_cut { ¬ IsConsistentCut three_sites (accounts_of []) }
{}
