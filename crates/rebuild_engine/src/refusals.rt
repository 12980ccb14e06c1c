//! What the program says where a site is not built again.
ghost use Rattle.std.specs.Prelude.{◌≡◌, option_map, string_bytes, IfOk};
ghost use Rattle.rebuild_engine.specs.Refusals.{EndsStop, input_line, line_fault_name, mark_fault_name, refused_line, site_text, stop_text, text_fault_name, unsaid_end};

use crate::lines::LineFault;
use crate::rebuilding::RebuildStop;
use exit_status::Status;
use layout_file::LayoutFault;
use serve_engine::{MarkFault, TextFault};
use site_rebuild::RebuildError;
use std::alloc::{AllocError, Global};
use std::io::Write;
use text_input::Sink;

/// Writes why a site is not built again, if a line or the whole input is refused. Gives how the program ends.
pub fn write_stop<W: Write>(alloc: Global, stop: RebuildStop, sink: &mut Sink<W>) -> Status
    ensures { EndsStop stop sink.old sink.new result }
{
    let Ok(line) = stop_line(alloc, stop) else {
        return Status::Memory;
    };
    let Some(line) = line else {
        return unsaid_end(stop);
    };
    if !sink.write_and_flush(line.as_str()) {
        return Status::Io;
    }
    Status::Refused
}

// How the program ends where there is no line for the stop.
fn unsaid_end(stop: RebuildStop) -> Status
    ensures { result ≡ unsaid_end stop }
{
    match stop {
        RebuildStop::Site(RebuildError::BadSite) => Status::NoLayout(LayoutFault::NoSite),
        RebuildStop::NotMoved => Status::Usage,
        _ => Status::Memory,
    }
}

// The line that is written for a stop, if there is one.
fn stop_line(alloc: Global, stop: RebuildStop) -> Result<Option<String>, AllocError>
    ensures { IfOk result (λ line. option_map string_bytes line ≡ stop_text stop) }
{
    match stop {
        RebuildStop::NoRoom | RebuildStop::NotMoved => Ok(None),
        RebuildStop::Line(refusal) => {
            let number = u128::from(refusal.number);
            let line = refused_line(alloc, number, line_fault_name(refusal.fault))?;
            Ok(Some(line))
        }
        RebuildStop::Site(error) => site_line(alloc, error),
    }
}

// The line that is written where the deltas of the lines are refused, if there is one.
fn site_line(alloc: Global, error: RebuildError) -> Result<Option<String>, AllocError>
    ensures { IfOk result (λ line. option_map string_bytes line ≡ site_text error) }
{
    match error {
        RebuildError::BadSite | RebuildError::Memory => Ok(None),
        RebuildError::NoDelta { site } => {
            let line = format!(in alloc; "input refused NoDelta {site}\n")?;
            Ok(Some(line))
        }
        RebuildError::BadDelta { index } => {
            let number = index as u128 + 1;
            let line = refused_line(alloc, number, "BadDelta")?;
            Ok(Some(line))
        }
        RebuildError::CounterFull => Ok(Some(input_line(alloc, "CounterFull")?)),
        RebuildError::Acted => Ok(Some(input_line(alloc, "Acted")?)),
        RebuildError::Apart => Ok(Some(input_line(alloc, "Apart")?)),
    }
}

// The line that tells of a refused line.
fn refused_line(alloc: Global, number: u128, name: &str) -> Result<String, AllocError>
    ensures { IfOk result (λ line. string_bytes line ≡ refused_line number name.now) }
{
    format!(in alloc; "line {number} refused {name}\n")
}

// The line that tells of a refused input.
fn input_line(alloc: Global, name: &str) -> Result<String, AllocError>
    ensures { IfOk result (λ line. string_bytes line ≡ input_line name.now) }
{
    format!(in alloc; "input refused {name}\n")
}

// The name of what is wrong with a line.
fn line_fault_name(fault: LineFault) -> &'static str
    ensures { result.now ≡ line_fault_name fault }
{
    match fault {
        LineFault::Text(fault) => text_fault_name(fault),
        LineFault::Twice => "Twice",
    }
}

// The name of why a line is no text of which a site is built again.
fn text_fault_name(fault: TextFault) -> &'static str
    ensures { result.now ≡ text_fault_name fault }
{
    match fault {
        TextFault::Unmarked(fault) => mark_fault_name(fault),
        TextFault::Unread(error) => error.name(),
    }
}

// The name of what is wrong with a mark.
fn mark_fault_name(fault: MarkFault) -> &'static str
    ensures { result.now ≡ mark_fault_name fault }
{
    match fault {
        MarkFault::NoMark => "NoMark",
        MarkFault::WrongGroup => "WrongGroup",
        MarkFault::OtherRecords => "OtherRecords",
        MarkFault::Damaged => "Damaged",
    }
}
