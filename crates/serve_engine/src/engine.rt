//! The engine of `serve`.
ghost use Rattle.std.specs.Prelude.{◌≡◌, ◌<◌, false};
ghost use Rattle.std.specs.Option.{option_copied};
ghost use Rattle.admission_model.specs.Account.{Account};
ghost use Rattle.admission_core.specs.Core.{Stands};
ghost use Rattle.admission_core.specs.Kept.{durable_of};
ghost use Rattle.desk_log.specs.Desk.{IsMadeFor};
ghost use Rattle.serve_engine.specs.Requests.{Terms, line_limit};
ghost use Rattle.serve_engine.specs.Ending.{EndsServing, EndsSite};
ghost use Rattle.serve_engine.specs.Steps.{AreTerms, ended};

use crate::marks::{Marker, Marking, group_word, marker_of};
use crate::turns::{Turned, take_turn};
use exit_status::Status;
use line_conversation::Conversation;
use live_keeper::LiveKeeper;
use live_site::{CallLog, LiveSite, StorePlace};
use merge_core::Layout;
use site_engine::opening_status;
use std::alloc::Global;

/// The most bytes of a line without a mark: those of a delta's text, and the word before it.
pub const LINE_LIMIT: usize = 2_097_157;

// How many bytes a mark has beside the group's word: three blanks, and 24 digits.
const DIGITS_AND_BLANKS: usize = 27;

/// The most bytes of a line of a service: [`LINE_LIMIT`], and those of a mark where deltas are marked.
pub fn line_limit(group: Option<&str>, marking: Marking) -> usize
    ensures { result ≡ line_limit (option_copied group.entry) marking }
{
    match marking {
        Marking::Plain => LINE_LIMIT,
        Marking::Marked => LINE_LIMIT + (group_word(group).len() + DIGITS_AND_BLANKS),
    }
}

/// Serves a site from what its keeper kept: reads a line, answers it, reads the next one, up to the end of the
/// conversation. Each call is handed to the log and kept before it is answered. Hands the keeper back. The caller shows,
/// where there is such a site, that the keeper was made for it.
///
/// Where deltas are marked, the answer to `send` is a mark and the delta's text behind it, and a delta is taken by `take`
/// and the same. A mark has three words, each with a blank behind it: the name of the group of sites that the site belongs
/// to, or `-` where it is in none; the first 16 digits of the SHA-256 digest of the layout's records; and the first 8 of
/// that of the text. Any other line that begins with `take ` is answered by the first that applies, and doesn't reach the
/// site: `refused NoMark` where no such words stand there, `refused WrongGroup` and `refused OtherRecords` where they are not
/// the site's own, and `refused Damaged` where the last is not that of the text. So a delta of a site with another group or
/// other records is never merged, unless those 16 digits are the same for both records. A group's name is 1 to 32 bytes without a
/// blank, and not `-`; plain deltas are sent and taken without a mark, whatever the group. The conversation's limit is
/// `line_limit`.
///
/// A line that asks for nothing is answered `refused BadWord K`, where word K is its first that can't stand there, is missing,
/// or is one too many, and a last line without its end `refused BadWord`. One beyond the conversation's limit is answered
/// `refused TooLong`, and want of memory `refused Memory`; the service goes on. Before each other line it is looked whether the store is still at
/// its place; where it is not, the answer is `refused StoreFault`. Behind that, behind a fault of the store, and behind a delta
/// that shows that the store is older than what others have seen, each line that reaches the site is answered `refused Frozen`,
/// and the end is `Fault`. Where the conversation or the log fails the end is `Io`.
pub fn serve_engine<K: LiveKeeper, C: Conversation, L: CallLog, P: StorePlace>(
    alloc: Global,
    keeper: K,
    layout: Layout,
    site: u16,
    group: Option<&str>,
    marking: Marking,
    conversation: &mut C,
    log: &mut L,
    place: &P,
) -> (Status, K)
    requires { site < layout.sites → IsMadeFor K.Keeper keeper layout site }
    ensures made_for { site < layout.sites → IsMadeFor K.Keeper result.1 layout site }
    ensures ended { EndsServing K.Keeper K.is_outdated C.Conversation L.CallLog layout site (option_copied group.entry) marking keeper result.1
        conversation.old conversation.new log.old log.new result.0 }
{
    let mut live = match LiveSite::open(alloc, keeper, layout, site) {
        Ok(live) => live,
        Err((error, keeper)) => return (opening_status(error), keeper),
    };
    let Ok(marker) = marker_of(alloc, live.core().layout(), group, marking) else {
        return (Status::Memory, live.into_keeper());
    };
    let ended = serve_lines(alloc, &mut live, &marker, conversation, log, place);
    (ended, live.into_keeper())
}

// Serves the lines of a conversation.
fn serve_lines<K: LiveKeeper, C: Conversation, L: CallLog, P: StorePlace>(
    alloc: Global,
    live: &mut LiveSite<K>,
    marker: &Marker,
    conversation: &mut C,
    log: &mut L,
    place: &P,
) -> Status
    requires { live.old.frozen ≡ false }
    ensures ended { (terms : Terms) (a : Account) → AreTerms terms live.old.core.layout marker.now → Stands a live.old.core
        → EndsSite K.Keeper K.is_outdated C.Conversation L.CallLog terms a (durable_of a) live.old.keeper live.new.keeper conversation.old conversation.new log.old log.new result }
    ensures layout { live.new.core.layout ≡ live.old.core.layout }
    ensures site { live.new.core.site ≡ live.old.core.site }
    ensures honest { K.is_honest live.new.keeper → K.is_honest live.old.keeper }
{
    let mut text = String::new(alloc);
    let mut count = 0u64;
    while count < u64::MAX {
        match take_turn(alloc, live, marker, conversation, log, place, &mut text) {
            Turned::Next => count += 1,
            Turned::End => return ended(live),
            Turned::Failed => return Status::Io,
        }
    }
    Status::Io
}

/// How the service ends with the conversation.
pub(crate) fn ended<K: LiveKeeper>(live: &LiveSite<K>) -> Status
    ensures { result ≡ ended live.now.frozen }
{
    if live.is_frozen() {
        return Status::Fault;
    }
    Status::Done
}
