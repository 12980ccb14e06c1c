//! The line that a store keeps of the layout that it was made for.
#![tactic(auto)]

ghost use Rattle.std.specs.Prelude.{◌≡◌, ◌≢◌, ℕ, ◌++◌, ◌<◌, ◌^◌, ◌↔◌, None, All, decimal, string_bytes, IsTrue, IfOk, IfSome};
ghost use Rattle.text_parts.specs.Readers.{NoDigit};
ghost use Rattle.merge_core.specs.Layout.{IsEarlier, at_sites};
ghost use Rattle.layout_line.specs.Line.{record_text, records_text, line_of, IsLine};

use merge_core::{Layout, RecordSpec};
use std::alloc::{AllocError, Global};
use text_parts::{is_same, number_at, push_field};

/// How a line compares with a layout, at one of its sites.
#[derive(Clone, Copy, Debug, PartialEq, Eq)]
pub enum Line {
    /// It is the layout's own.
    Same,
    /// It is that of a layout which this one has grown from, and which has the site.
    Earlier,
    /// It is neither.
    Other,
}

/// Writes a record.
fn push_record(text: &mut String, spec: &RecordSpec) -> Result<(), AllocError>
    ensures { IfOk result (λ _. string_bytes text.new ≡ string_bytes text.old ++ record_text spec.now) }
{
    text.push_str(";")?;
    text.push_str(spec.name.as_str())?;
    push_field(text, ",", u64::from(spec.seats))?;
    push_field(text, ",", u64::from(spec.home))?;
    push_field(text, ",", u64::from(spec.problem))
}

/// Writes the records, in order.
fn push_records(text: &mut String, records: &[RecordSpec]) -> Result<(), AllocError>
    ensures { IfOk result (λ _. string_bytes text.new ≡ string_bytes text.old ++ records_text records.now) }
{
    for spec in records {
        push_record(text, spec)?;
    }
    Ok(())
}

/// The line of a layout: the number of sites, and for each record `;` and its name, seats, home and problem with
/// commas between them, as `2;a,2,0,1`. Linear in it.
pub fn layout_line(alloc: Global, layout: &Layout) -> Result<String, AllocError>
    ensures { IfOk result (λ line. string_bytes line ≡ line_of layout.now) }
{
    let mut text = String::new(alloc);
    push_field(&mut text, "", u64::from(layout.sites()))?;
    push_records(&mut text, layout.records())?;
    Ok(text)
}

/// Whether every record has its home below a number of sites.
fn are_homes_below(records: &[RecordSpec], sites: u64) -> bool
    ensures { IsTrue result ↔ All (λ r. r.home < sites) records.now }
{
    records.iter().all(|spec| u64::from(spec.home) < sites)
}

/// The number of sites in front of the records, which begin with no digit, where a line ends with these.
fn sites_before(line: &[u8], records: &[u8]) -> Option<u64>
    requires { NoDigit records.now }
    ensures number { IfSome result (λ n. line.now ≡ decimal n ++ records.now) }
    ensures none { result ≡ None → (n : ℕ) → n < 2 ^ 64 → line.now ≢ decimal n ++ records.now }
{
    let Ok((sites, behind)) = number_at(line) else {
        return None;
    };
    if is_same(behind, records) {
        return Some(sites);
    }
    None
}

/// Whether a number of sites is one that a layout has grown from, and has this site.
fn is_earlier(layout: &Layout, site: u16, sites: u64) -> bool
    ensures { IsTrue result ↔ (IsEarlier (at_sites sites layout.now) layout.now × (site < sites)) }
{
    u64::from(site) < sites
        && sites < u64::from(layout.sites())
        && are_homes_below(layout.records(), sites)
}

/// How a line compares with a layout at this site, which need not be there. Linear in the line and the layout.
pub fn compare(alloc: Global, line: &[u8], layout: &Layout, site: u16) -> Result<Line, AllocError>
    ensures { IfOk result (λ found. IsLine layout.now site line.now found) }
{
    let mut records = String::new(alloc);
    push_records(&mut records, layout.records())?;
    let Some(sites) = sites_before(line, records.as_bytes()) else {
        return Ok(Line::Other);
    };
    if sites == u64::from(layout.sites()) {
        return Ok(Line::Same);
    }
    if is_earlier(layout, site, sites) {
        return Ok(Line::Earlier);
    }
    Ok(Line::Other)
}
