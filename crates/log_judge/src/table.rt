//! The table of a cut through closed logs.
ghost use Rattle.std.specs.Prelude.{◌≡◌, ◌++◌, ◌+◌, string_bytes, IfOk};
ghost use Rattle.log_judge.specs.Verdict.{IsCut};
ghost use Rattle.log_judge.specs.Table.{blanks, counts_line, cut_header, number_in, cut_line, cut_table};

use crate::cut::count_entries;
use desk_log::Transcript;
use itoa::Buffer;
use std::alloc::{AllocError, Global};

// Writes so many blanks.
fn push_blanks(text: &mut String, n: usize) -> Result<(), AllocError>
    ensures { IfOk result (λ _. string_bytes text.new ≡ string_bytes text.old ++ blanks n) }
{
    for _k in 0..n {
        text.push_str(" ")?;
    }
    Ok(())
}

// Writes a number at the right of so many places.
fn push_number(text: &mut String, places: usize, n: u64) -> Result<(), AllocError>
    ensures { IfOk result (λ _. string_bytes text.new ≡ string_bytes text.old ++ number_in places n) }
{
    let mut buffer = Buffer::new();
    let digits = buffer.format(n);
    push_blanks(text, places.saturating_sub(digits.len()))?;
    text.push_str(digits)
}

// Writes the line of a site, by its numbers.
pub(crate) fn push_counts(
    text: &mut String,
    site: u64,
    length: u64,
    entries: u64,
    runs: u64,
) -> Result<(), AllocError>
    ensures { IfOk result (λ _. string_bytes text.new ≡ string_bytes text.old ++ counts_line site length entries runs) }
{
    push_number(text, 4, site)?;
    push_number(text, 9, length)?;
    push_number(text, 9, entries)?;
    push_number(text, 6, runs)?;
    text.push_str("\n")
}

// The line above those of the sites.
pub(crate) fn table_header(alloc: Global) -> Result<String, AllocError>
    ensures { IfOk result (λ text. string_bytes text ≡ cut_header) }
{
    String::from_str(alloc, "site      cut  entries  runs\n")
}

// Writes the line of a site.
fn push_line(text: &mut String, transcript: &Transcript, length: u64) -> Result<(), AllocError>
    ensures { IfOk result (λ _. string_bytes text.new ≡ string_bytes text.old ++ cut_line transcript.now length) }
{
    let entries = count_entries(transcript.runs.as_slice())?;
    push_counts(
        text,
        u64::from(transcript.site),
        length,
        entries,
        transcript.runs.len() as u64,
    )
}

/// Where a cut goes through closed logs.
///
/// After a header there is a line for each transcript: its site right in 4 places, the cut's length there in 9, and in 9
/// and 6 how many entries and runs it has. A number that needs more places takes them. The caller shows that it is a cut.
/// Takes memory for the text alone; linear in the runs.
pub fn cut_table(
    alloc: Global,
    transcripts: &[Transcript],
    cut: &[u64],
) -> Result<String, AllocError>
    requires { IsCut transcripts.now cut.now }
    ensures { IfOk result (λ text. string_bytes text ≡ cut_table transcripts.now cut.now) }
{
    let mut text = table_header(alloc)?;
    'sites: for i in 0..transcripts.len() {
        let transcript = &transcripts[i];
        push_line(&mut text, transcript, cut[i])?;
    }
    Ok(text)
}
