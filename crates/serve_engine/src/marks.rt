//! The marks of the deltas that a site sends and takes.
ghost use Rattle.std.specs.Prelude.{◌≡◌, ◌++◌, string_bytes, IfOk};
ghost use Rattle.std.specs.Option.{option_copied};
ghost use Rattle.serve_engine.specs.Marks.{group_word};
ghost use Rattle.serve_engine.specs.Requests.{terms_of};
ghost use Rattle.serve_engine.specs.Steps.{AreTerms, zero_mark};

use crate::digests::record_digits;
use merge_core::Layout;
use std::alloc::{AllocError, Global};

/// Whether deltas travel with a mark.
#[derive(Clone, Copy, Debug, PartialEq, Eq)]
pub enum Marking {
    /// Each delta that is sent is behind a mark, and one that is taken has to be.
    Marked,
    /// Deltas are sent and taken as they are.
    Plain,
}

/// The first fault of a text that is taken where deltas are marked.
#[derive(Clone, Copy, Debug, PartialEq, Eq)]
pub enum MarkFault {
    /// No mark is in front of it.
    NoMark,
    /// The mark is that of another group of sites.
    WrongGroup,
    /// The mark is that of other records.
    OtherRecords,
    /// The mark is that of another text.
    Damaged,
}

/// What a site knows of its marks: whether it wants and writes them, the group's word, and the digits of its records'
/// digest.
#[derive(Drop)]
pub(crate) struct Marker {
    pub(crate) marking: Marking,
    pub(crate) group: String,
    pub(crate) records: String,
}

/// The word for a group in a mark: its name, or `-` where there is none.
pub(crate) fn group_word<'a>(group: Option<&'a str>) -> &'a str
    ensures { result.now ≡ group_word (option_copied group.entry) }
{
    match group {
        Some(name) => name,
        None => "-",
    }
}

/// What a site of the layout knows of its marks. Linear in the layout.
pub(crate) fn marker_of(
    alloc: Global,
    layout: &Layout,
    group: Option<&str>,
    marking: Marking,
) -> Result<Marker, AllocError>
    ensures { IfOk result (AreTerms (terms_of layout.now (option_copied group.entry) marking) layout.now) }
{
    let records = record_digits(alloc, layout)?;
    let group = String::from_str(alloc, group_word(group))?;
    Ok(Marker {
        marking,
        group,
        records,
    })
}

/// Writes the mark of a text that is not there yet: zeros stand where the digits of its digest will.
pub(crate) fn push_zero_mark(text: &mut String, marker: &Marker) -> Result<(), AllocError>
    ensures { IfOk result (λ _. string_bytes text.new ≡ string_bytes text.old ++ zero_mark (string_bytes marker.now.group) (string_bytes marker.now.records)) }
{
    text.push_str(marker.group.as_str())?;
    text.push_str(" ")?;
    text.push_str(marker.records.as_str())?;
    text.push_str(" 00000000 ")
}
