//! The lines of closed logs are judged while they come, text by text: of them only the front of one that is not whole yet is
//! kept.
ghost use Rattle.std.specs.Prelude.{◌≡◌, ◌+◌, ◌<◌, ◌++◌, ◌∷◌, [], ℕ, List, Option, IfOk, IsTrue, MatchOption, Some, None, false, length, true};
ghost use Rattle.merge_core.specs.Layout.{LayoutState};
ghost use Rattle.text_input.specs.Lines.{EndsLine, HasNoLf, lines_of};
ghost use Rattle.log_judge.specs.declared.keeping.Keeping.{Keeping as KeepingThere};
ghost use Rattle.transcript_text.specs.Texts.{entry_text};
ghost use Rattle.transcript_reader.specs.Fits.{FitsEntry};
ghost use Rattle.transcript_reader.specs.declared.runs.SiteRun.{SiteRun as SiteRunThere};
ghost use Rattle.log_judge.specs.Stream.{AreOfSome, IsClearAt};
ghost use Rattle.transcript_reader.specs.Reading.{BeginsRun};
ghost use Rattle.transcript_reader.specs.Shown.{ShowsSnapshot};
ghost use Rattle.judge_engine.specs.Reading.{AddsBytes, BeginsText, EndsBytes, HasReadBytes, HasReadLines, Knows, ReadsOn, ReadsTexts};

use crate::cut::Cut;
use desk_log::Entry;
use log_judge::{Keeping, Logs};
use memchr::memchr;
use merge_core::Layout;
use std::alloc::{AllocError, Global};
use std::mem;
use text_input::{cut_line, cut_whole_lines};
use text_parts::Unread;
use transcript_reader::{Line, Opening, line_in, shows_snapshot};

/// What the lines of the texts of an input came to so far.
#[derive(Drop)]
pub(crate) struct Reading {
    alloc: Global,
    layout: Layout,
    pub logs: Logs,
    // The site of the text's last run.
    site: Option<u16>,
    // How many lines of the text there were, while none is refused.
    lines: u64,
    // The number of the first that is refused; what comes behind it is not looked at.
    pub refused: Option<u64>,
    // The front of a line whose end has not come yet.
    pending: Vec<u8>,
}

// The number of the next line. No memory holds so many lines that there is none.
fn next_line(n: u64) -> Result<u64, AllocError>
    ensures { IfOk result (λ m. m ≡ n + 1) }
{
    match n.checked_add(1) {
        Some(m) => Ok(m),
        None => Err(AllocError),
    }
}

// The bytes up to their first LF, with it, and what follows; nothing where there is no LF.
fn cut_behind_lf(bytes: &[u8]) -> Option<(&[u8], &[u8])>
    ensures { MatchOption result (HasNoLf bytes.now) (λ it. (bytes.now ≡ it.0.now ++ it.1.now) × EndsLine it.0.now) }
{
    match memchr(b'\n', bytes) {
        Some(end) => Some((&bytes[..=end], &bytes[end + 1..])),
        None => None,
    }
}

// The same, and all bytes where there is no LF: whatever stands in front of them, it has its lines with the first part alone.
fn cut_front(bytes: &[u8]) -> (&[u8], &[u8])
    ensures { (front : List ℕ) → lines_of (front ++ bytes.now) ≡ lines_of (front ++ result.0.now) ++ lines_of result.1.now }
{
    match cut_behind_lf(bytes) {
        Some(parts) => parts,
        None => (bytes, &[]),
    }
}

// A run begins: its site.
fn begin_run(
    alloc: Global,
    layout: &Layout,
    logs: &mut Logs,
    opening: Opening,
) -> Result<u16, AllocError>
    requires { (cut : Option (List ℕ)) × (keeping : KeepingThere) × (earlier : List SiteRunThere) × (front : List (List ℕ)) × (site : Option ℕ) × (line : List ℕ)
        × BeginsRun layout.now line opening × Knows layout.now cut keeping earlier front site logs.old }
    ensures { IfOk result (λ s. (cut : Option (List ℕ)) (keeping : KeepingThere) (earlier : List SiteRunThere) (front : List (List ℕ)) (site : Option ℕ) (line : List ℕ)
        → BeginsRun layout.now line opening → Knows layout.now cut keeping earlier front site logs.old
        → Knows layout.now cut keeping earlier (front ++ line ∷ []) (Some s) logs.new) }
{
    let Opening { site, sites, first } = opening;
    logs.begin_run(alloc, layout, site, sites, first)?;
    Ok(site)
}

// The last run has one entry more.
fn add_entry(alloc: Global, logs: &mut Logs, site: u16, entry: Entry) -> Result<(), AllocError>
    requires { (layout : LayoutState) × (cut : Option (List ℕ)) × (keeping : KeepingThere) × (earlier : List SiteRunThere) × (front : List (List ℕ))
        × FitsEntry entry × Knows layout cut keeping earlier front (Some site) logs.old }
    ensures { IfOk result (λ _. (layout : LayoutState) (cut : Option (List ℕ)) (keeping : KeepingThere) (earlier : List SiteRunThere) (front : List (List ℕ)) (line : List ℕ)
        → FitsEntry entry → line ≡ entry_text layout.records entry → Knows layout cut keeping earlier front (Some site) logs.old
        → Knows layout cut keeping earlier (front ++ line ∷ []) (Some site) logs.new) }
{
    logs.add_entry(alloc, site, entry)?;
    Ok(())
}

// Whether a line is seen to be an entry of a site's last run that tells the snapshot of its core.
fn is_snapshot_line(logs: &Logs, site: u16, line: &[u8]) -> bool
    requires site { site < length logs.now.sites.items }
    requires some { AreOfSome logs.now }
    ensures { IsTrue result → (core : _) × IsClearAt core site logs.now × ShowsSnapshot core line.now }
{
    match logs.clear_core(site) {
        Some(core) => shows_snapshot(core, line),
        None => false,
    }
}

// Whether a line is seen to be such an entry, which the last run has more then.
fn add_snapshot(alloc: Global, logs: &mut Logs, site: u16, line: &[u8]) -> Result<bool, AllocError>
    requires { (layout : LayoutState) × (cut : Option (List ℕ)) × (keeping : KeepingThere) × (earlier : List SiteRunThere) × (front : List (List ℕ))
        × Knows layout cut keeping earlier front (Some site) logs.old }
    ensures added { IfOk result (λ added. added ≡ true → (layout : LayoutState) (cut : Option (List ℕ)) (keeping : KeepingThere) (earlier : List SiteRunThere) (front : List (List ℕ))
        → Knows layout cut keeping earlier front (Some site) logs.old → Knows layout cut keeping earlier (front ++ line.now ∷ []) (Some site) logs.new) }
    ensures other { IfOk result (λ added. added ≡ false → logs.new ≡ logs.old) }
{
    if !is_snapshot_line(logs, site, line) {
        return Ok(false);
    }
    logs.add_snapshot(alloc, site)?;
    Ok(true)
}

impl Reading {
    /// Before the first byte.
    pub fn new(
        alloc: Global,
        layout: &Layout,
        cut: &Cut,
        keeping: Keeping,
    ) -> Result<Reading, AllocError>
        ensures { IfOk result (ReadsTexts layout.now cut.now keeping []) }
    {
        let logs = cut.fresh_logs(alloc, layout, keeping)?;
        let layout = layout.try_copy(alloc)?;
        Ok(Reading {
            alloc,
            layout,
            logs,
            site: None,
            lines: 0,
            refused: None,
            pending: Vec::new(alloc),
        })
    }

    // Judges the next line if it is seen to be an entry that tells the snapshot of its site's core. Whether it is.
    fn read_snapshot(&mut self, line: &[u8]) -> Result<bool, AllocError>
        requires none { self.old.refused ≡ None }
        requires there { HasReadLines self.old }
        ensures read { IfOk result (λ read. read ≡ true → ReadsOn self.old (line.now ∷ []) self.new) }
        ensures other { IfOk result (λ read. read ≡ false → self.new ≡ self.old) }
        ensures kept { IfOk result (λ _. self.new.pending ≡ self.old.pending) }
    {
        let Some(site) = self.site else {
            return Ok(false);
        };
        let number = next_line(self.lines)?;
        if !add_snapshot(self.alloc, &mut self.logs, site, line)? {
            return Ok(false);
        }
        self.lines = number;
        Ok(true)
    }

    // Judges the next line, or refuses it.
    fn read_line(&mut self, line: &[u8]) -> Result<(), AllocError>
        requires none { self.old.refused ≡ None }
        requires there { HasReadLines self.old }
        ensures read { IfOk result (λ _. ReadsOn self.old (line.now ∷ []) self.new) }
        ensures kept { IfOk result (λ _. self.new.pending ≡ self.old.pending) }
    {
        let number = next_line(self.lines)?;
        match line_in(self.alloc, &self.layout, self.site.is_some(), line) {
            Ok(Line::Adds(entry)) => {
                let Some(site) = self.site else {
                    return Ok(());
                };
                add_entry(self.alloc, &mut self.logs, site, entry)?;
                self.lines = number;
                Ok(())
            }
            Ok(Line::Begins(opening)) => {
                let site = begin_run(self.alloc, &self.layout, &mut self.logs, opening)?;
                self.site = Some(site);
                self.lines = number;
                Ok(())
            }
            Err(Unread::Refused) => {
                self.refused = Some(number);
                Ok(())
            }
            Err(Unread::Memory) => Err(AllocError),
        }
    }

    // The same, and an entry that tells the snapshot of its site's core is compared where it stands.
    fn read_next(&mut self, line: &[u8]) -> Result<(), AllocError>
        requires none { self.old.refused ≡ None }
        requires there { HasReadLines self.old }
        ensures read { IfOk result (λ _. ReadsOn self.old (line.now ∷ []) self.new) }
        ensures kept { IfOk result (λ _. self.new.pending ≡ self.old.pending) }
    {
        if self.read_snapshot(line)? {
            return Ok(());
        }
        self.read_line(line)
    }

    // Judges these lines, up to the first that is refused.
    fn read_lines(&mut self, bytes: &[u8]) -> Result<(), AllocError>
        requires { HasReadLines self.old }
        ensures read { IfOk result (λ _. ReadsOn self.old (lines_of bytes.now) self.new) }
        ensures kept { IfOk result (λ _. self.new.pending ≡ self.old.pending) }
    {
        let mut rest = bytes;
        'lines: while !rest.is_empty() {
            if self.refused.is_some() {
                return Ok(());
            }
            let (line, tail) = cut_line(rest);
            self.read_next(line)?;
            rest = tail;
        }
        Ok(())
    }

    // Judges what is pending with these bytes behind it.
    fn read_joined(&mut self, bytes: &[u8]) -> Result<(), AllocError>
        requires { HasReadLines self.old }
        ensures read { IfOk result (λ _. ReadsOn self.old (lines_of (self.old.pending.items ++ bytes.now)) self.new) }
        ensures empty { IfOk result (λ _. self.new.pending.items ≡ []) }
    {
        self.pending.extend_from_slice(bytes)?;
        let whole = mem::replace(&mut self.pending, Vec::new(self.alloc));
        self.read_lines(whole.as_slice())
    }

    // Judges what is pending with these lines behind it. Only the first of them is copied.
    fn read_pending(&mut self, lines: &[u8]) -> Result<(), AllocError>
        requires { HasReadLines self.old }
        ensures read { IfOk result (λ _. ReadsOn self.old (lines_of (self.old.pending.items ++ lines.now)) self.new) }
        ensures empty { IfOk result (λ _. self.new.pending.items ≡ []) }
    {
        let (front, rest) = cut_front(lines);
        self.read_joined(front)?;
        self.read_lines(rest)
    }

    /// Takes the next part in.
    pub fn add(&mut self, part: &[u8]) -> Result<(), AllocError>
        requires { HasReadBytes self.old }
        ensures { IfOk result (λ _. AddsBytes self.old part.now self.new) }
    {
        if self.refused.is_some() {
            return Ok(());
        }
        match cut_whole_lines(part) {
            Some((lines, rest)) => {
                self.read_pending(lines)?;
                self.pending.extend_from_slice(rest)?;
            }
            None => self.pending.extend_from_slice(part)?,
        }
        Ok(())
    }

    /// Takes the last line in, which may lack its LF.
    pub fn finish(&mut self) -> Result<(), AllocError>
        requires { HasReadBytes self.old }
        ensures { IfOk result (λ _. EndsBytes self.old self.new) }
    {
        if self.refused.is_some() {
            return Ok(());
        }
        self.read_pending(&[])
    }

    /// Behind a text that was read whole, and of which no line was refused, another one begins: its lines are counted
    /// anew, and the first of them begins a run.
    pub fn begin_text(&mut self)
        requires { self.old.refused ≡ None }
        ensures { BeginsText self.old self.new }
    {
        self.site = None;
        self.lines = 0;
        self.pending.clear();
    }
}
