//! Calls that are committed together, which have no log.
ghost use Rattle.std.specs.Prelude.{◌≡◌, ◌⊎◌, option_copied};
ghost use Rattle.text_input.specs.Sink.{Writes};
ghost use Rattle.text_input.specs.Source.{HasFault};
ghost use Rattle.program_shell.specs.Together.{is_logged_together, logged_text};

use command_arguments::Command;
use exit_status::Status;
use std::io::Write;
use text_input::Sink;

/// Whether a command asks for calls that are committed together, and for a log. A log has each call in front of its own
/// commit, so it can't have these.
pub(crate) fn is_logged_together(command: Command, log: Option<&str>) -> bool
    ensures { result ≡ is_logged_together command (option_copied log.entry) }
{
    match command {
        Command::Serve(serving) => serving.together > 1 && log.is_some(),
        _ => false,
    }
}

/// Says that calls with a log aren't committed together, and gives the exit status.
pub(crate) fn end_logged_together<E: Write>(errors: &mut Sink<E>) -> u8
    ensures told { Writes errors.old errors.new logged_text ⊎ HasFault errors.new.fault }
    ensures status { result ≡ 2 }
{
    let _ = errors.write_and_flush("together refused Log\n");
    Status::Usage.end(errors)
}
