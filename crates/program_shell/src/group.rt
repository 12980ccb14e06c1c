//! The name of a group of sites.
ghost use Rattle.std.specs.Prelude.{◌≡◌, ◌⊎◌, option_copied};
ghost use Rattle.text_input.specs.Sink.{Writes};
ghost use Rattle.text_input.specs.Source.{HasFault};
ghost use Rattle.program_shell.specs.Groups.{group_fault, group_text, is_good_group, is_plain, is_unmoved};

use command_arguments::Command;
use exit_status::Status;
use group_names::{generation_of, is_group_name};
use std::io::Write;
use text_input::Sink;

/// Why the group that arguments name is refused.
#[derive(Clone, Copy, Debug, PartialEq, Eq)]
pub(crate) enum GroupFault {
    /// No group can have the name.
    BadWord,
    /// The group's deltas are to have no mark.
    Plain,
    /// A site is to be built again in a group that was never moved.
    NotMoved,
}

/// The first fault of the group that a command names.
pub(crate) fn group_fault(command: Command, group: Option<&str>) -> Option<GroupFault>
    ensures { result ≡ group_fault command (option_copied group.entry) }
{
    if !is_good_group(group) {
        return Some(GroupFault::BadWord);
    }
    if is_plain(command) && group.is_some() {
        return Some(GroupFault::Plain);
    }
    if is_unmoved(command, group) {
        return Some(GroupFault::NotMoved);
    }
    None
}

// Whether no group is named, or by a name that a group can have.
fn is_good_group(group: Option<&str>) -> bool
    ensures { result ≡ is_good_group (option_copied group.entry) }
{
    match group {
        Some(name) => is_group_name(name),
        None => true,
    }
}

// Whether a command asks for deltas without a mark.
fn is_plain(command: Command) -> bool
    ensures { result ≡ is_plain command }
{
    match command {
        Command::Serve(serving) | Command::Ask(serving) => serving.plain,
        _ => false,
    }
}

// Whether a site is to be built again in a group that was never moved.
fn is_unmoved(command: Command, group: Option<&str>) -> bool
    ensures { result ≡ is_unmoved command (option_copied group.entry) }
{
    match command {
        Command::Rebuild { site: _ } => generation_of(group) < 2,
        _ => false,
    }
}

/// Says why the group is refused, and gives the exit status.
pub(crate) fn end_without_group<E: Write>(fault: GroupFault, errors: &mut Sink<E>) -> u8
    ensures told { Writes errors.old errors.new (group_text fault) ⊎ HasFault errors.new.fault }
    ensures status { result ≡ 2 }
{
    let _ = errors.write_and_flush(group_text(fault));
    Status::Usage.end(errors)
}

// What is said of a group that is refused.
fn group_text(fault: GroupFault) -> &'static str
    ensures { result.now ≡ group_text fault }
{
    match fault {
        GroupFault::BadWord => "group refused BadWord\n",
        GroupFault::Plain => "group refused Plain\n",
        GroupFault::NotMoved => "group refused NotMoved\n",
    }
}
