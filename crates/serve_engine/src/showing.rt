//! What a site shows of a record: its counts.
ghost use Rattle.std.specs.Prelude.{◌≡◌, ◌++◌, ◌<◌, ℕ, length, string_bytes, IfOk};
ghost use Rattle.admission_model.specs.Account.{Account, inside, writers_here};
ghost use Rattle.admission_model.specs.View.{view_of, rights_of};
ghost use Rattle.admission_core.specs.Core.{IsCore, Stands};
ghost use Rattle.serve_engine.specs.Answers.{counts_line, show_line};
ghost use Rattle.serve_engine.specs.Looks.{no_record_line};

use admission_core::SiteCore;
use std::alloc::AllocError;
use text_parts::push_field;

/// Writes the counts of a record, each behind its word, and LF; or that there is no such record.
pub fn push_counts(text: &mut String, core: &SiteCore, r: u16) -> Result<(), AllocError>
    requires { IsCore core.now }
    ensures { IfOk result (λ _. (a : Account) → Stands a core.now → string_bytes text.new ≡ string_bytes text.old ++ show_line a r) }
{
    if usize::from(r) >= core.layout().records().len() {
        return push_no_record(text);
    }
    push_known(text, core, r)
}

/// Writes that there is no such record.
pub(crate) fn push_no_record(text: &mut String) -> Result<(), AllocError>
    ensures { IfOk result (λ _. string_bytes text.new ≡ string_bytes text.old ++ no_record_line) }
{
    text.push_str("refused NoRecord\n")
}

// Writes the counts of a record that is there.
fn push_known(text: &mut String, core: &SiteCore, r: u16) -> Result<(), AllocError>
    requires core { IsCore core.now }
    requires there { r < length core.now.layout.records }
    ensures { IfOk result (λ _. (a : Account) → Stands a core.now → string_bytes text.new ≡ string_bytes text.old ++ counts_line a r) }
{
    let rights = rights(core, r);
    let inside = inside(core, r);
    let unfinished = unfinished(core, r);
    push_field(text, "rights ", rights)?;
    push_field(text, " inside ", inside)?;
    push_field(text, " unfinished ", unfinished)?;
    text.push_str("\n")
}

// How many seats the site may still take or give away.
fn rights(core: &SiteCore, r: u16) -> u64
    requires core { IsCore core.now }
    requires there { r < length core.now.layout.records }
    ensures { (a : Account) → Stands a core.now → result ≡ rights_of (view_of a) r }
{
    core.book().rights(r, core.site())
}

// How many seats are taken at the site.
fn inside(core: &SiteCore, r: u16) -> u64
    requires core { IsCore core.now }
    requires there { r < length core.now.layout.records }
    ensures { (a : Account) → Stands a core.now → result ≡ inside a r }
{
    core.book().inside(r, core.site())
}

// How many writers wait or write at the site.
fn unfinished(core: &SiteCore, r: u16) -> u64
    requires core { IsCore core.now }
    requires there { r < length core.now.layout.records }
    ensures { (a : Account) → Stands a core.now → result ≡ writers_here a r }
{
    core.book().open_at(r, core.site())
}
