//! The line that begins a run.
ghost use Rattle.std.specs.Prelude.{◌≡◌, ◌++◌, string_bytes, IfOk};
ghost use Rattle.transcript_text.specs.Texts.{front_text, sites_text, opening_text, MayBegin};

use crate::quoted::push_escaped;
use crate::sessions::push_sessions;
use crate::told::book_told;
use admission_core::{Durable, Session};
use delta_codec::encode;
use merge_core::{Delta, Layout};
use std::alloc::{AllocError, Global};
use text_parts::push_field;

/// Writes the line up to the site's number. Linear in its text.
pub fn push_front(
    alloc: Global,
    text: &mut String,
    layout: &Layout,
    site: u16,
    told: &Delta,
    sessions: &[Session],
) -> Result<(), AllocError>
    ensures { IfOk result (λ _. string_bytes text.new ≡ string_bytes text.old ++ front_text layout.now.records site told.now sessions.now) }
{
    let book = encode(alloc, told)?;
    text.push_str("{\"book\":\"")?;
    push_escaped(text, book.as_str())?;
    text.push_str("\",\"sessions\":[")?;
    push_sessions(text, layout, sessions)?;
    push_field(text, "],\"site\":", u64::from(site))?;
    Ok(())
}

/// Writes what follows it.
pub fn push_sites(text: &mut String, sites: Option<u16>) -> Result<(), AllocError>
    ensures { IfOk result (λ _. string_bytes text.new ≡ string_bytes text.old ++ sites_text sites) }
{
    if let Some(sites) = sites {
        push_field(text, ",\"sites\":", u64::from(sites))?;
        return text.push_str("}");
    }
    text.push_str("}")
}

/// Writes the line that begins a run. Linear in its text and in the layout's slots.
pub fn push_opening(
    alloc: Global,
    text: &mut String,
    layout: &Layout,
    site: u16,
    sites: u16,
    first: &Durable,
) -> Result<(), AllocError>
    requires { MayBegin layout.now site sites first.now }
    ensures { IfOk result (λ _. string_bytes text.new ≡ string_bytes text.old ++ opening_text layout.now site sites first.now) }
{
    let Some(told) = book_told(alloc, layout, site, sites, first)? else {
        unreachable!();
    };
    push_front(alloc, text, layout, site, &told, first.sessions())?;
    push_sites(text, Some(sites))
}
