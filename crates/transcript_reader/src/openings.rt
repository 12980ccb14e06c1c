//! The line that begins a run.
ghost use Rattle.std.specs.Prelude.{◌≡◌, ◌++◌, ◌⊎◌, ◌↔◌, ℕ, List, IsTrue, Ok, Err, codes, unwrap_or, IfOk, MatchResult};
ghost use Rattle.merge_core.specs.Delta.{DeltaState, IsDelta};
ghost use Rattle.delta_codec.specs.DeltaText.{delta_text};
ghost use Rattle.text_parts.specs.Readers.{Gives};
ghost use Rattle.transcript_text.specs.Texts.{front_text, sites_text, book_told, MayBegin};
ghost use Rattle.transcript_reader.specs.Quoted.{quoted};
ghost use Rattle.transcript_reader.specs.Readers.{sites_at, opening_parts};
ghost use Rattle.transcript_reader.specs.declared.openings.Opening.{Opening as OpeningThere};
ghost use Rattle.transcript_reader.specs.Reading.{BeginsRun};

use crate::deltas::told_at;
use crate::sessions::sessions_at;
use crate::told::part_told;
use admission_core::{Durable, Session};
use merge_core::{Delta, Layout};
use std::alloc::{AllocError, Global};
use text_parts::{Unread, after, short_at};
use transcript_text::{book_told, push_front, push_sites};

/// How a run begins: the site, the number of sites that it knows, and what it begins with.
#[derive(Debug, Drop)]
pub struct Opening {
    pub site: u16,
    pub sites: u16,
    pub first: Durable,
}

// What stands in such a line behind what the site tells.
#[derive(Debug, Drop)]
struct Parts {
    sessions: Vec<Session>,
    site: u16,
    sites: Option<u16>,
}

// The number of sites at the end of a line, if it is there.
#[tactic(auto, unfolding(crate::specs::Readers::sites_at))]
fn sites_at(bytes: &[u8]) -> Result<(Option<u16>, &[u8]), Unread>
    ensures { Gives (λ x. (x.0, x.1.now)) result (sites_at bytes.now) }
{
    match bytes {
        [b',', ..] => {
            let rest = after(b",\"sites\":", bytes)?;
            let (sites, rest) = short_at(rest)?;
            Ok((Some(sites), rest))
        }
        _ => Ok((None, bytes)),
    }
}

// What stands in the line behind what the site tells.
#[tactic(auto, unfolding(crate::specs::Readers::opening_parts))]
fn opening_parts(alloc: Global, layout: &Layout, bytes: &[u8]) -> Result<Parts, Unread>
    ensures { Gives (λ p. record { sessions = p.sessions.items; site = p.site; sites = p.sites }) result (opening_parts layout.now.records bytes.now) }
{
    let rest = after(b",\"sessions\":[", bytes)?;
    let (sessions, rest) = sessions_at(alloc, layout, rest)?;
    let rest = after(b"],\"site\":", rest)?;
    let (site, rest) = short_at(rest)?;
    let (sites, rest) = sites_at(rest)?;
    let rest = after(b"}", rest)?;
    if !rest.is_empty() {
        return Err(Unread::Refused);
    }
    Ok(Parts {
        sessions,
        site,
        sites,
    })
}

// What the site tells, between the first quotes of a line, and the bytes behind it.
fn book_at(alloc: Global, line: &[u8]) -> Result<(Delta, &[u8]), Unread>
    ensures { (d : DeltaState) → (rest : List ℕ) → IsDelta d → line.now ≡ codes "{\"book\":\"" ++ quoted (delta_text d) rest
        → MatchResult result (λ x. (x.0 ≡ d) × (x.1.now ≡ rest)) (λ e. e ≡ Unread.Memory) }
{
    let bytes = after(b"{\"book\":\"", line)?;
    told_at(alloc, bytes)
}

// Whether the line is the one that begins a run so, in this spelling.
fn begins_run(
    alloc: Global,
    layout: &Layout,
    line: &[u8],
    it: &Opening,
    spelled: Option<u16>,
) -> Result<bool, AllocError>
    ensures { IfOk result (λ b. IsTrue b ↔ (MayBegin layout.now it.now.site it.now.sites it.now.first
        × (line.now ≡ front_text layout.now.records it.now.site (book_told layout.now it.now.site it.now.sites it.now.first) it.now.first.sessions ++ sites_text spelled))) }
{
    let Some(told) = book_told(alloc, layout, it.site, it.sites, &it.first)? else {
        return Ok(false);
    };
    let mut text = String::new(alloc);
    push_front(
        alloc,
        &mut text,
        layout,
        it.site,
        &told,
        it.first.sessions(),
    )?;
    push_sites(&mut text, spelled)?;
    Ok(text.as_bytes() == line)
}

/// How the run begins that a line begins, in either spelling. Linear in the line, in the layout's slots, and for each session
/// in the records, among which its name is looked up.
pub(crate) fn opening_in(alloc: Global, layout: &Layout, line: &[u8]) -> Result<Opening, Unread>
    ensures sound { IfOk result (BeginsRun layout.now line.now) }
    ensures only { (it : OpeningThere) → BeginsRun layout.now line.now it → (result ≡ Ok it) ⊎ (result ≡ Err Unread.Memory) }
{
    let _ = layout.sites(); // tells the invariant: the records are a layout
    let (told, rest) = book_at(alloc, line)?;
    let Parts {
        sessions,
        site,
        sites: spelled,
    } = opening_parts(alloc, layout, rest)?;
    let sites = sites_of(layout, spelled);
    let first = part_told(alloc, layout, site, sites, &told, sessions)?;
    let it = Opening { site, sites, first };
    if begins_run(alloc, layout, line, &it, spelled)? {
        return Ok(it);
    }
    Err(Unread::Refused)
}

// The number of sites that a line has, or that it stands for without one.
fn sites_of(layout: &Layout, spelled: Option<u16>) -> u16
    ensures { result ≡ unwrap_or spelled layout.now.sites }
{
    match spelled {
        Some(sites) => sites,
        None => layout.sites(),
    }
}
