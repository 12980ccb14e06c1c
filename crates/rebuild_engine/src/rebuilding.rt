//! A site that is built again of an input.
ghost use Rattle.std.specs.Prelude.{◌≡◌, string_bytes, IfOk, MatchResult};
ghost use Rattle.merge_core.specs.Layout.{IsLayout};
ghost use Rattle.admission_core.specs.Core.{Stands};
ghost use Rattle.admission_core.specs.Kept.{durable_of};
ghost use Rattle.admission_model.specs.Account.{Account};
ghost use Rattle.rebuild_engine.specs.Stops.{stop_of};
ghost use Rattle.rebuild_engine.specs.Parts.{IsBuiltOf, IsCoreOf, IsUnbuilt, IsUnbuiltIn, is_alone, is_moved_name};

use crate::lines::{LineRefusal, LineStop, read_deltas};
use crate::shown::shown_text;
use admission_core::{DurableCell, SiteCore};
use group_names::{generation_of, is_group_name};
use merge_core::{Delta, Layout};
use site_rebuild::{RebuildError, rebuilt_core};
use std::alloc::{AllocError, Global};

/// A site that is built again. It has no session.
#[derive(Drop)]
pub struct Rebuilt {
    /// What it begins with.
    pub core: SiteCore,
    /// Its counters that have left their start, by record and slot.
    pub cells: Vec<DurableCell>,
    /// What is printed of it: a line for each record, as `a rights 2 inside 0 unfinished 0`; and, where other sites are lost
    /// too, a line with the digest of all texts, as `texts 0123456789abcdef`.
    pub shown: String,
}

/// Why a site is not built again.
#[derive(Clone, Copy, Debug, PartialEq, Eq)]
pub enum RebuildStop {
    /// Memory ran out.
    NoRoom,
    /// No group of this name was moved: its name is that of a first generation, or none that a group may have.
    NotMoved,
    /// This line of the input is refused.
    Line(LineRefusal),
    /// The deltas of the lines are refused.
    Site(RebuildError),
}

/// A site of the moved group of this name that lost its store, built again of the bytes of an input. Its lines are the texts that the
/// moves of all other sites to that group printed, one for each; where no other site is lost, a text that such a site sends
/// serves too. Linear in the bytes, and cubic in the number of sites.
pub fn rebuilt_site(
    alloc: Global,
    layout: Layout,
    site: u16,
    lost: &[u16],
    name: &str,
    bytes: &[u8],
) -> Result<Rebuilt, RebuildStop>
    ensures { MatchResult result
        (λ it. IsBuiltOf layout site lost.now name.now bytes.now it.core it.cells.items (string_bytes it.shown))
        (λ stop. IsUnbuilt layout site lost.now name.now bytes.now stop) }
{
    if !is_moved_name(name) {
        return Err(RebuildStop::NotMoved);
    }
    let (core, deltas) = core_of(alloc, layout, site, lost, name, bytes)?;
    let Ok(cells) = cells_of(&core) else {
        return Err(RebuildStop::NoRoom);
    };
    match shown_text(alloc, &core, lost.len() == 1, &deltas) {
        Ok(shown) => Ok(Rebuilt { core, cells, shown }),
        Err(AllocError) => Err(RebuildStop::NoRoom),
    }
}

// Whether a group of this name was moved.
fn is_moved_name(name: &str) -> bool
    ensures { result ≡ is_moved_name name.now }
{
    is_group_name(name) && 2 <= generation_of(Some(name))
}

// Its core, and the deltas of the lines.
fn core_of(
    alloc: Global,
    layout: Layout,
    site: u16,
    lost: &[u16],
    name: &str,
    bytes: &[u8],
) -> Result<(SiteCore, Vec<Delta>), RebuildStop>
    ensures answer { MatchResult result
        (λ it. IsCoreOf layout site lost.now name.now bytes.now it.0 it.1.items)
        (λ stop. IsUnbuiltIn layout site lost.now name.now bytes.now stop) }
    ensures layout { IsLayout layout }
{
    let _ = layout.sites(); // tells that the layout is one
    let alone = lost.len() == 1;
    let deltas = match read_deltas(alloc, &layout, name, alone, bytes) {
        Ok(deltas) => deltas,
        Err(LineStop::NoRoom) => return Err(RebuildStop::NoRoom),
        Err(LineStop::Refused(refusal)) => return Err(RebuildStop::Line(refusal)),
    };
    match rebuilt_core(alloc, layout, site, lost, &deltas) {
        Ok(core) => Ok((core, deltas)),
        Err(error) => Err(stop_of(error)),
    }
}

// What stops a rebuild whose deltas are refused: that, or that memory ran out.
fn stop_of(error: RebuildError) -> RebuildStop
    ensures { result ≡ stop_of error }
{
    match error {
        RebuildError::Memory => RebuildStop::NoRoom,
        error => RebuildStop::Site(error),
    }
}

// The counters of a core that have left their start.
fn cells_of(core: &SiteCore) -> Result<Vec<DurableCell>, AllocError>
    ensures { IfOk result (λ cells. (a : Account) → Stands a core.now → cells.items ≡ (durable_of a).cells) }
{
    let (cells, _) = core.durable()?.into_parts();
    Ok(cells)
}
