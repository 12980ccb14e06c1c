//! The end where there is no layout.
ghost use Rattle.std.specs.Prelude.{◌≡◌};
ghost use Rattle.text_input.specs.Source.{HasFault};
ghost use Rattle.exit_status.specs.Endings.{Says};
ghost use Rattle.program_shell.specs.Refusals.{EndsWithoutLayout, named_place, record_line};

use command_arguments::Command;
use exit_status::Status;
use layout_file::LayoutRefusal;
use std::io::Write;
use text_input::Sink;

/// Says why there is no layout and, if a site was to be served at once, moved or built again, which record is at fault. Gives
/// the exit status.
pub(crate) fn end_without_layout<E: Write>(
    command: Command,
    refusal: LayoutRefusal,
    errors: &mut Sink<E>,
) -> u8
    ensures { EndsWithoutLayout command refusal errors.old errors.new result }
{
    let code = Status::without_layout(refusal.fault).end(errors);
    say_record(named_place(command, refusal.place), errors);
    code
}

// The place of the record that a command names. The other commands say nothing of a record.
fn named_place(command: Command, place: Option<usize>) -> Option<usize>
    ensures { result ≡ named_place command place }
{
    match command {
        Command::Serve(_)
        | Command::Ask(_)
        | Command::Regroup { site: _ }
        | Command::Rebuild { site: _ } => place,
        _ => None,
    }
}

// Says which record is at fault, if it is one.
fn say_record<E: Write>(place: Option<usize>, errors: &mut Sink<E>)
    ensures said { Says errors.old errors.new (record_line place) }
    ensures ended { HasFault errors.old.fault → errors.new ≡ errors.old }
{
    if let Some(place) = place {
        let _ = errors.print_and_flush(format_args!("record {place}\n"));
    }
}
