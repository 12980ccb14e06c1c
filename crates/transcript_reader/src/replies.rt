//! Replies from their texts: each letter in front tells what follows, so that no byte is read twice.
ghost use Rattle.std.specs.Prelude.{◌≡◌, ◌≢◌, ◌∷◌, ℕ, List, MatchOption};
ghost use Rattle.text_parts.specs.Readers.{Gives};
ghost use Rattle.script_text.specs.Replies.{reply_text};
ghost use Rattle.transcript_reader.specs.Fits.{FitsReply};
ghost use Rattle.transcript_reader.specs.Quoted.{ReadsQuoted};
ghost use Rattle.transcript_reader.specs.Words.{told};
ghost use Rattle.transcript_reader.specs.ReplyReaders.{seat_refusal, not_refusal, no_refusal, already_refusal, too_refusal, to_refusal, m_refusal, o_refusal, bad_refusal, rare_refusal, refusal_at, a_reply, left_reply, g_reply, worded_reply};

use crate::deltas::told_at;
use crate::numbers::{gift_at, last_number, last_short, shortage_at};
use admission_core::{Phase, Refusal, Reply};
use std::alloc::Global;
use text_parts::{Unread, after};

// A refusal, where the rest of its name and the closing quote stand in front, and the bytes behind them.
#[inline(always)]
fn told<'a>(
    literal: &[u8],
    refusal: Refusal,
    bytes: &'a [u8],
) -> Result<(Refusal, &'a [u8]), Unread>
    ensures { Gives (λ x. (x.0, x.1.now)) result (told literal.now refusal bytes.now) }
{
    let rest = after(literal, bytes)?;
    Ok((refusal, rest))
}

// A refusal whose name begins with `NoS`, from behind that on.
#[tactic(auto, unfolding(crate::specs::ReplyReaders::seat_refusal))]
fn seat_refusal(bytes: &[u8]) -> Result<(Refusal, &[u8]), Unread>
    ensures { Gives (λ x. (x.0, x.1.now)) result (seat_refusal bytes.now) }
{
    match bytes {
        [b'e', rest @ ..] => {
            let rest = after(b"at ", rest)?;
            let (rights, rest) = last_number(rest)?;
            Ok((Refusal::NoSeat { rights }, rest))
        }
        [b'i', rest @ ..] => told(b"te\"", Refusal::NoSite, rest),
        _ => Err(Unread::Refused),
    }
}

// A refusal whose name begins with `Not`, from behind that on.
#[tactic(auto, unfolding(crate::specs::ReplyReaders::not_refusal))]
fn not_refusal(bytes: &[u8]) -> Result<(Refusal, &[u8]), Unread>
    ensures { Gives (λ x. (x.0, x.1.now)) result (not_refusal bytes.now) }
{
    match bytes {
        [b'H', rest @ ..] => told(b"ere\"", Refusal::NotHere, rest),
        [b'A', rest @ ..] => told(b"nnounced\"", Refusal::NotAnnounced, rest),
        _ => Err(Unread::Refused),
    }
}

// A refusal whose name begins with `N`, from behind that on.
#[tactic(auto, unfolding(crate::specs::ReplyReaders::no_refusal))]
fn no_refusal(bytes: &[u8]) -> Result<(Refusal, &[u8]), Unread>
    ensures { Gives (λ x. (x.0, x.1.now)) result (no_refusal bytes.now) }
{
    let rest = after(b"o", bytes)?;
    match rest {
        [b'S', rest @ ..] => seat_refusal(rest),
        [b't', rest @ ..] => not_refusal(rest),
        [b'R', rest @ ..] => told(b"ecord\"", Refusal::NoRecord, rest),
        [b'P', rest @ ..] => told(b"lan\"", Refusal::NoPlan, rest),
        _ => Err(Unread::Refused),
    }
}

// A refusal whose name begins with `A`, from behind that on.
#[tactic(auto, unfolding(crate::specs::ReplyReaders::already_refusal))]
fn already_refusal(bytes: &[u8]) -> Result<(Refusal, &[u8]), Unread>
    ensures { Gives (λ x. (x.0, x.1.now)) result (already_refusal bytes.now) }
{
    let rest = after(b"lready", bytes)?;
    match rest {
        [b'H', rest @ ..] => told(b"ere\"", Refusal::AlreadyHere, rest),
        [b'I', rest @ ..] => told(b"nside\"", Refusal::AlreadyInside, rest),
        _ => Err(Unread::Refused),
    }
}

// A refusal whose name begins with `Too`, from behind that on.
#[tactic(auto, unfolding(crate::specs::ReplyReaders::too_refusal))]
fn too_refusal(bytes: &[u8]) -> Result<(Refusal, &[u8]), Unread>
    ensures { Gives (λ x. (x.0, x.1.now)) result (too_refusal bytes.now) }
{
    match bytes {
        [b'F', rest @ ..] => {
            let rest = after(b"ewRights ", rest)?;
            let (rights, rest) = last_number(rest)?;
            Ok((Refusal::TooFewRights { rights }, rest))
        }
        [b'M', rest @ ..] => told(b"anyWriters\"", Refusal::TooManyWriters, rest),
        _ => Err(Unread::Refused),
    }
}

// A refusal whose name begins with `T`, from behind that on.
#[tactic(auto, unfolding(crate::specs::ReplyReaders::to_refusal))]
fn to_refusal(bytes: &[u8]) -> Result<(Refusal, &[u8]), Unread>
    ensures { Gives (λ x. (x.0, x.1.now)) result (to_refusal bytes.now) }
{
    let rest = after(b"o", bytes)?;
    match rest {
        [b'o', rest @ ..] => too_refusal(rest),
        [b'S', rest @ ..] => told(b"elf\"", Refusal::ToSelf, rest),
        _ => Err(Unread::Refused),
    }
}

// A refusal whose name begins with `M`, from behind that on.
#[tactic(auto, unfolding(crate::specs::ReplyReaders::m_refusal))]
fn m_refusal(bytes: &[u8]) -> Result<(Refusal, &[u8]), Unread>
    ensures { Gives (λ x. (x.0, x.1.now)) result (m_refusal bytes.now) }
{
    match bytes {
        [b'i', rest @ ..] => {
            let rest = after(b"ssingSeats ", rest)?;
            let (rights, seats, rest) = shortage_at(rest)?;
            Ok((Refusal::MissingSeats { rights, seats }, rest))
        }
        [b'e', rest @ ..] => told(b"mory\"", Refusal::Memory, rest),
        _ => Err(Unread::Refused),
    }
}

// A refusal whose name begins with `O`, from behind that on.
#[tactic(auto, unfolding(crate::specs::ReplyReaders::o_refusal))]
fn o_refusal(bytes: &[u8]) -> Result<(Refusal, &[u8]), Unread>
    ensures { Gives (λ x. (x.0, x.1.now)) result (o_refusal bytes.now) }
{
    match bytes {
        [b't', rest @ ..] => {
            let rest = after(b"herLayout ", rest)?;
            let (row, rest) = last_number(rest)?;
            Ok((Refusal::OtherLayout { row: row as usize }, rest))
        }
        [b'w', rest @ ..] => {
            let rest = after(b"nRowAhead ", rest)?;
            let (rec, rest) = last_short(rest)?;
            Ok((Refusal::OwnRowAhead { rec }, rest))
        }
        _ => Err(Unread::Refused),
    }
}

// A refusal whose name begins with `B`, from behind that on.
#[tactic(auto, unfolding(crate::specs::ReplyReaders::bad_refusal))]
fn bad_refusal(bytes: &[u8]) -> Result<(Refusal, &[u8]), Unread>
    ensures { Gives (λ x. (x.0, x.1.now)) result (bad_refusal bytes.now) }
{
    let rest = after(b"ad", bytes)?;
    match rest {
        [b'R', rest @ ..] => {
            let rest = after(b"ow ", rest)?;
            let (row, rest) = last_number(rest)?;
            Ok((Refusal::BadRow { row: row as usize }, rest))
        }
        [b'H', rest @ ..] => told(b"older\"", Refusal::BadHolder, rest),
        _ => Err(Unread::Refused),
    }
}

// A refusal that seldom comes.
#[tactic(auto, unfolding(crate::specs::ReplyReaders::rare_refusal))]
fn rare_refusal(bytes: &[u8]) -> Result<(Refusal, &[u8]), Unread>
    ensures { Gives (λ x. (x.0, x.1.now)) result (rare_refusal bytes.now) }
{
    match bytes {
        [b'B', rest @ ..] => bad_refusal(rest),
        [b'O', rest @ ..] => o_refusal(rest),
        [b'Z', rest @ ..] => told(b"eroSeats\"", Refusal::ZeroSeats, rest),
        [b'L', rest @ ..] => told(b"ogFull\"", Refusal::LogFull, rest),
        [b'F', rest @ ..] => told(b"rozen\"", Refusal::Frozen, rest),
        [b'S', rest @ ..] => told(b"toreFault\"", Refusal::StoreFault, rest),
        _ => Err(Unread::Refused),
    }
}

// A refusal by its name and numbers.
#[tactic(auto, unfolding(crate::specs::ReplyReaders::refusal_at))]
fn refusal_at(bytes: &[u8]) -> Result<(Refusal, &[u8]), Unread>
    ensures { Gives (λ x. (x.0, x.1.now)) result (refusal_at bytes.now) }
{
    match bytes {
        [b'N', rest @ ..] => no_refusal(rest),
        [b'A', rest @ ..] => already_refusal(rest),
        [b'W', rest @ ..] => {
            let rest = after(b"riterAnnounced ", rest)?;
            let (site, rest) = last_short(rest)?;
            Ok((Refusal::WriterAnnounced { site }, rest))
        }
        [b'T', rest @ ..] => to_refusal(rest),
        [b'C', rest @ ..] => told(b"ounterFull\"", Refusal::CounterFull, rest),
        [b'M', rest @ ..] => m_refusal(rest),
        _ => rare_refusal(bytes),
    }
}

// A reply that begins with `a`, from behind that on.
#[tactic(auto, unfolding(crate::specs::ReplyReaders::a_reply))]
fn a_reply(bytes: &[u8]) -> Result<(Reply, &[u8]), Unread>
    ensures { Gives (λ x. (x.0, x.1.now)) result (a_reply bytes.now) }
{
    match bytes {
        [b'd', rest @ ..] => {
            let rest = after(b"mitted\"", rest)?;
            Ok((Reply::Admitted, rest))
        }
        [b'n', rest @ ..] => {
            let rest = after(b"nounced ", rest)?;
            let (number, rest) = last_number(rest)?;
            Ok((Reply::Announced(number), rest))
        }
        _ => Err(Unread::Refused),
    }
}

// A reply that begins with `l`, from behind that on.
#[tactic(auto, unfolding(crate::specs::ReplyReaders::left_reply))]
fn left_reply(bytes: &[u8]) -> Result<(Reply, &[u8]), Unread>
    ensures { Gives (λ x. (x.0, x.1.now)) result (left_reply bytes.now) }
{
    let rest = after(b"eft ", bytes)?;
    match rest {
        [b'r', rest @ ..] => {
            let rest = after(b"eader\"", rest)?;
            Ok((Reply::Left(Phase::Reader), rest))
        }
        [b'w', rest @ ..] => {
            let rest = after(b"riter\"", rest)?;
            Ok((Reply::Left(Phase::Writer), rest))
        }
        _ => Err(Unread::Refused),
    }
}

// A reply that begins with `g`, from behind that on.
#[tactic(auto, unfolding(crate::specs::ReplyReaders::g_reply))]
fn g_reply(bytes: &[u8]) -> Result<(Reply, &[u8]), Unread>
    ensures { Gives (λ x. (x.0, x.1.now)) result (g_reply bytes.now) }
{
    match bytes {
        [b'i', rest @ ..] => {
            let rest = after(b"ven\"", rest)?;
            Ok((Reply::Given, rest))
        }
        [b'a', rest @ ..] => {
            let rest = after(b"ve ", rest)?;
            let (to, seats, rest) = gift_at(rest)?;
            Ok((Reply::Gave { to, seats }, rest))
        }
        _ => Err(Unread::Refused),
    }
}

// Any reply but a snapshot.
#[tactic(auto, unfolding(crate::specs::ReplyReaders::worded_reply))]
fn worded_reply(bytes: &[u8]) -> Result<(Reply, &[u8]), Unread>
    ensures { Gives (λ x. (x.0, x.1.now)) result (worded_reply bytes.now) }
{
    match bytes {
        [b'r', rest @ ..] => {
            let rest = after(b"efused ", rest)?;
            let (refusal, rest) = refusal_at(rest)?;
            Ok((Reply::Refused(refusal), rest))
        }
        [b'a', rest @ ..] => a_reply(rest),
        [b'l', rest @ ..] => left_reply(rest),
        [b'w', rest @ ..] => {
            let rest = after(b"ithdrawn\"", rest)?;
            Ok((Reply::Left(Phase::Waiting), rest))
        }
        [b'g', rest @ ..] => g_reply(rest),
        [b'm', rest @ ..] => {
            let rest = after(b"erged ", rest)?;
            let (risen, rest) = last_number(rest)?;
            Ok((Reply::Merged(risen), rest))
        }
        _ => Err(Unread::Refused),
    }
}

// The bytes behind the brace with which the text of a delta begins, and that of no other reply.
fn behind_brace(bytes: &[u8]) -> Option<&[u8]>
    ensures { MatchOption result
        ((behind : List ℕ) → bytes.now ≢ 123 ∷ behind)
        (λ behind. bytes.now ≡ 123 ∷ behind.now) }
{
    bytes.strip_prefix(b"{")
}

// A snapshot, by the text of its delta up to the closing quote, and the bytes behind it.
fn snapshot_at(alloc: Global, bytes: &[u8]) -> Result<(Reply, &[u8]), Unread>
    ensures { (behind : List ℕ) → bytes.now ≡ 123 ∷ behind → ReadsQuoted (λ x. (x.0, x.1.now)) FitsReply reply_text bytes.now result }
{
    match told_at(alloc, bytes) {
        Ok((delta, rest)) => Ok((Reply::Snapshot(delta), rest)),
        Err(e) => Err(e),
    }
}

/// The reply whose text stands up to the closing quote, and the bytes behind it. Linear in the text. Just one text is read as
/// a reply.
pub(crate) fn reply_at(alloc: Global, bytes: &[u8]) -> Result<(Reply, &[u8]), Unread>
    ensures { ReadsQuoted (λ x. (x.0, x.1.now)) FitsReply reply_text bytes.now result }
{
    if let Some(_) = behind_brace(bytes) {
        return snapshot_at(alloc, bytes);
    }
    worded_reply(bytes)
}
