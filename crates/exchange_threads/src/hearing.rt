// What an inbox notes of a text. Nothing here waits.
use crate::counts::Refusals;
use crate::names::RefusalName;
use crate::report::InReport;
use crate::turn::{Turn, turn_after};
use crate::words::{merge_name, unread_name};
use admission_core::Reply;
use delta_codec::DecodeError;
use std::alloc::Global;

impl InReport {
    ghost use Rattle.std.specs.Prelude.{◌≡◌, ◌+◌, ◌^◌, ◌<◌, ◌≤◌, []};
    ghost use Rattle.session_book.specs.Following.{most_raised};
    ghost use Rattle.exchange_threads.specs.Counts.{count_names, count_total};
    ghost use Rattle.exchange_threads.specs.Turns.{turn_after};
    ghost use Rattle.exchange_threads.specs.Inbox.{CanNote, TellsMerge, TellsUnread, name_list, raise_of};

    /// Nothing was heard. Takes no memory.
    pub(crate) fn new(alloc: Global) -> InReport
        ensures taken { result.taken ≡ 0 }
        ensures raised { result.raised ≡ 0 }
        ensures refused { result.refused.names ≡ [] }
        ensures memory { result.memory ≡ 0 }
    {
        InReport {
            taken: 0,
            raised: 0,
            refused: Refusals::new(alloc),
            memory: 0,
        }
    }

    // Counts a name, if there is one. Takes no memory.
    fn note_name(&mut self, name: Option<RefusalName>)
        requires room { 0 < self.old.refused.room }
        requires few { count_total self.old.refused.names + 1 < 2 ^ 64 }
        ensures taken { self.new.taken ≡ self.old.taken }
        ensures raised { self.new.raised ≡ self.old.raised }
        ensures refused { self.new.refused.names ≡ count_names self.old.refused.names (name_list name) }
        ensures memory { self.new.memory ≡ self.old.memory }
    {
        if let Some(name) = name {
            self.refused.add(name);
        }
    }

    /// Notes what the site answered to a merge. Takes no memory.
    pub(crate) fn note_merge(&mut self, reply: &Reply) -> Turn
        requires room { 0 < self.old.refused.room }
        requires fits { CanNote self.old }
        requires few { raise_of reply.now ≤ most_raised }
        ensures tells { TellsMerge self.old self.new reply.now }
        ensures turn { result ≡ turn_after reply.now }
    {
        if let Reply::Merged(raised) = reply {
            self.raised += *raised;
        }
        self.note_name(merge_name(reply));
        let turn = turn_after(reply);
        if let Turn::IsOver = turn {
            self.memory += 1;
        }
        turn
    }

    /// Notes what is wrong with a text that is no delta's. Takes no memory.
    pub(crate) fn note_unread(&mut self, error: DecodeError)
        requires room { 0 < self.old.refused.room }
        requires fits { CanNote self.old }
        ensures tells { TellsUnread self.old self.new error }
    {
        let name = unread_name(error);
        if name.is_none() {
            self.memory += 1;
        }
        self.note_name(name);
    }
}
