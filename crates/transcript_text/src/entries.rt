//! The lines of entries.
ghost use Rattle.std.specs.Prelude.{◌≡◌, ◌++◌, [], codes, string_bytes, IfOk};
ghost use Rattle.transcript_text.specs.Texts.{entry_text, entries_text};

use crate::asks::push_call;
use crate::quoted::push_escaped;
use admission_core::{Call, Reply};
use desk_log::Entry;
use merge_core::Layout;
use script_text::push_reply;
use std::alloc::{AllocError, Global};
use text_parts::push_field;

// Room for the texts of an entry, used again for each further entry.
#[derive(Debug, Drop)]
struct Parts {
    call: String,
    reply: String,
}

impl Parts {
    // No text yet. Takes no memory.
    fn new(alloc: Global) -> Parts
        ensures call { string_bytes result.call ≡ [] }
        ensures reply { string_bytes result.reply ≡ [] }
    {
        Parts {
            call: String::new(alloc),
            reply: String::new(alloc),
        }
    }
}

/// Writes the line of an entry, which is this pass with its call and the reply, without its LF. Linear in its text. Where
/// memory for the text of the call or of the reply runs out, nothing is written.
pub fn push_entry(
    alloc: Global,
    text: &mut String,
    layout: &Layout,
    pass: u16,
    call: &Call,
    reply: &Reply,
) -> Result<(), AllocError>
    ensures { IfOk result (λ _. string_bytes text.new ≡ string_bytes text.old ++ entry_text layout.now.records
        (record { pass = pass; call = call.now; reply = reply.now })) }
{
    let mut parts = Parts::new(alloc);
    push_through(&mut parts, text, layout, pass, call, reply)
}

// The same: the call and the reply are first written into `parts`.
fn push_through(
    parts: &mut Parts,
    text: &mut String,
    layout: &Layout,
    pass: u16,
    call: &Call,
    reply: &Reply,
) -> Result<(), AllocError>
    ensures { IfOk result (λ _. string_bytes text.new ≡ string_bytes text.old ++ entry_text layout.now.records
        (record { pass = pass; call = call.now; reply = reply.now })) }
{
    parts.call.clear();
    push_call(&mut parts.call, layout, call)?;
    parts.reply.clear();
    push_reply(&mut parts.reply, reply)?;
    text.push_str("{\"call\":\"")?;
    push_escaped(text, parts.call.as_str())?;
    push_field(text, "\",\"pass\":", u64::from(pass))?;
    text.push_str(",\"reply\":\"")?;
    push_escaped(text, parts.reply.as_str())?;
    text.push_str("\"}")?;
    Ok(())
}

// Writes the line of an entry, with its LF.
fn push_line(
    parts: &mut Parts,
    text: &mut String,
    layout: &Layout,
    entry: &Entry,
) -> Result<(), AllocError>
    ensures { IfOk result (λ _. string_bytes text.new ≡ string_bytes text.old ++ (entry_text layout.now.records entry.now ++ codes "\n")) }
{
    push_through(parts, text, layout, entry.pass, &entry.call, &entry.reply)?;
    text.push_str("\n")
}

/// Writes a line for each entry. Linear in their texts.
pub fn push_entries(
    alloc: Global,
    text: &mut String,
    layout: &Layout,
    entries: &[Entry],
) -> Result<(), AllocError>
    ensures { IfOk result (λ _. string_bytes text.new ≡ string_bytes text.old ++ entries_text layout.now.records entries.now) }
{
    let mut parts = Parts::new(alloc);
    for entry in entries {
        push_line(&mut parts, text, layout, entry)?;
    }
    Ok(())
}
