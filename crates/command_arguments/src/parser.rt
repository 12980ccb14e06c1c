//! The commands and their options, as clap is told of them.
ghost use Rattle.std.specs.Prelude.{◌≡◌, codes, false, IfOk};
ghost use Rattle.clap.specs.Words.{App, Rule, app_of, new_app, rule_of, with_rule, with_subcommand};
ghost use Rattle.command_arguments.specs.Arguments.{IsOption, Offers, ask_command, bare_program, flag, first_word, join_command, judge_command, logs_option, lost_option, needed_group, number_option, play_command, program, rebuild_command, regroup_command, run_command, serve_command, serving_command, site_command, site_option, store_option, text_option, together_option, turns_option, word};

use crate::help;
use clap::builder::ValueParser;
use clap::{Arg, ArgAction, Command as Parser, value_parser};
use std::alloc::{AllocError, Global};

/// The program as clap is told of it.
pub(crate) fn parser<'a>(alloc: Global) -> Result<Parser<'a>, AllocError>
    ensures { IfOk result (λ built. app_of built ≡ program) }
{
    let program = Ok(bare_program(alloc));
    let program = with_command(program, join_parser(alloc));
    let program = with_command(program, play_parser(alloc));
    let program = with_command(program, site_parser(alloc));
    let program = with_command(program, serve_parser(alloc));
    let program = with_command(program, ask_parser(alloc));
    let program = with_command(program, regroup_parser(alloc));
    let program = with_command(program, rebuild_parser(alloc));
    let program = with_command(program, judge_parser(alloc));
    with_command(program, run_parser(alloc))
}

// The program with no command yet.
fn bare_program<'a>(alloc: Global) -> Parser<'a>
    ensures { Offers bare_program result }
{
    Parser::new(alloc, "seat_cli")
        .version("0.1.0")
        .override_usage("seat_cli [COMMAND]")
        .about(help::PROGRAM)
        .after_help(help::PROGRAM_NOTES)
        .subcommand_required(true)
        .disable_help_subcommand(true)
}

// The program with one more command, where memory sufficed for both. It takes results, so that the exits for want of
// memory are proved here alone, and not once in each step of `parser`.
fn with_command<'a>(
    program: Result<Parser<'a>, AllocError>,
    command: Result<Parser<'a>, AllocError>,
) -> Result<Parser<'a>, AllocError>
    ensures { (before : App) (added : App) → IfOk program.entry (Offers before) → IfOk command.entry (Offers added)
        → IfOk result (Offers (with_subcommand before added.top)) }
{
    program?.subcommand(command?)
}

// A command with no option yet.
fn bare_command<'a>(
    alloc: Global,
    name: &'a str,
    usage: &'a str,
    about: &'a str,
    notes: &'a str,
) -> Parser<'a>
    ensures { Offers (new_app name.entry.now) result }
{
    Parser::new(alloc, name)
        .override_usage(usage)
        .about(about)
        .after_help(notes)
}

// The command with one more option, where memory sufficed for it. It takes a result for the same reason.
fn with_option<'a>(
    command: Result<Parser<'a>, AllocError>,
    option: Arg<'a>,
) -> Result<Parser<'a>, AllocError>
    ensures { (before : App) (rule : Rule) → IfOk command.entry (Offers before) → IsOption rule option.entry
        → IfOk result (Offers (with_rule before rule)) }
{
    command?.arg(option)
}

// The command `join`.
fn join_parser<'a>(alloc: Global) -> Result<Parser<'a>, AllocError>
    ensures { IfOk result (Offers join_command) }
{
    let usage = "seat_cli join [--layout FILE]";
    let command = Ok(bare_command(alloc, "join", usage, help::JOIN, help::JOIN_NOTES));
    with_option(command, layout_option(alloc))
}

// The command `play`.
fn play_parser<'a>(alloc: Global) -> Result<Parser<'a>, AllocError>
    ensures { IfOk result (Offers play_command) }
{
    let usage = "seat_cli play [--tables] [--from M] [--layout FILE]";
    let command = Ok(bare_command(alloc, "play", usage, help::PLAY, help::PLAY_NOTES));
    let command = with_option(command, flag(alloc, "tables", help::TABLES));
    let command = with_option(command, number_option(alloc, "from", "M", help::FIRST));
    with_option(command, layout_option(alloc))
}

// The command `site`.
fn site_parser<'a>(alloc: Global) -> Result<Parser<'a>, AllocError>
    ensures { IfOk result (Offers site_command) }
{
    let usage = "seat_cli site --site I --store FILE [--layout FILE]";
    let command = Ok(bare_command(alloc, "site", usage, help::SITE, help::SITE_NOTES));
    let command = with_option(command, site_option(alloc));
    let command = with_option(command, store_option(alloc));
    with_option(command, layout_option(alloc))
}

// A command of this name that serves a site.
fn serving_parser<'a>(
    alloc: Global,
    name: &'a str,
    usage: &'a str,
    about: &'a str,
    notes: &'a str,
) -> Result<Parser<'a>, AllocError>
    ensures { IfOk result (Offers (serving_command name.now)) }
{
    let command = Ok(bare_command(alloc, name, usage, about, notes));
    let command = with_option(command, site_option(alloc));
    let command = with_option(command, store_option(alloc));
    let command = with_option(command, layout_option(alloc));
    let command = with_option(command, text_option(alloc, "group", "NAME", help::GROUP));
    let command = with_option(command, flag(alloc, "plain", help::PLAIN));
    let command = with_option(command, flag(alloc, "create", help::CREATE));
    let command = with_option(command, flag(alloc, "grow", help::GROW));
    let command = with_option(command, number_option(alloc, "wait", "SECONDS", help::WAIT));
    with_option(command, text_option(alloc, "log", "FILE", help::LOG))
}

// The command `serve`.
fn serve_parser<'a>(alloc: Global) -> Result<Parser<'a>, AllocError>
    ensures { IfOk result (Offers serve_command) }
{
    let usage =
        "seat_cli serve --site I --store FILE [--layout FILE] [--group NAME | --plain] [--create] [--grow] [--wait SECONDS] [--together N | --log FILE]";
    let command = serving_parser(alloc, "serve", usage, help::SERVE, help::SERVE_NOTES);
    with_option(command, together_option(alloc))
}

// The command `ask`.
fn ask_parser<'a>(alloc: Global) -> Result<Parser<'a>, AllocError>
    ensures { IfOk result (Offers ask_command) }
{
    let usage =
        "seat_cli ask --site I --store FILE [--layout FILE] [--group NAME | --plain] [--create] [--grow] [--wait SECONDS] [--log FILE] WORD..";
    let command = serving_parser(alloc, "ask", usage, help::ASK, help::ASK_NOTES);
    let command = with_option(command, first_word(alloc));
    let command = with_option(command, word(alloc, "word2", help::WORD2));
    let command = with_option(command, word(alloc, "word3", help::WORD3));
    with_option(command, word(alloc, "word4", help::WORD4))
}

// The command `regroup`.
fn regroup_parser<'a>(alloc: Global) -> Result<Parser<'a>, AllocError>
    ensures { IfOk result (Offers regroup_command) }
{
    let usage = "seat_cli regroup --site I --store FILE [--layout FILE] --group NAME";
    let command = bare_command(alloc, "regroup", usage, help::REGROUP, help::REGROUP_NOTES);
    let command = with_option(Ok(command), site_option(alloc));
    let command = with_option(command, store_option(alloc));
    let command = with_option(command, layout_option(alloc));
    with_option(command, needed_group(alloc, help::GROUP_MOVED))
}

// The command `rebuild`.
fn rebuild_parser<'a>(alloc: Global) -> Result<Parser<'a>, AllocError>
    ensures { IfOk result (Offers rebuild_command) }
{
    let usage = "seat_cli rebuild --site I --store FILE [--layout FILE] --group NAME [--lost J ..]";
    let command = bare_command(alloc, "rebuild", usage, help::REBUILD, help::REBUILD_NOTES);
    let command = with_option(Ok(command), site_option(alloc));
    let command = with_option(command, store_option(alloc));
    let command = with_option(command, layout_option(alloc));
    let command = with_option(command, needed_group(alloc, help::GROUP_BUILT));
    with_option(command, lost_option(alloc))
}

// The command `judge`.
fn judge_parser<'a>(alloc: Global) -> Result<Parser<'a>, AllocError>
    ensures { IfOk result (Offers judge_command) }
{
    let usage = "seat_cli judge [--cut C] [--layout FILE] [--logs FILE ..]";
    let command = Ok(bare_command(alloc, "judge", usage, help::JUDGE, help::JUDGE_NOTES));
    let command = with_option(command, text_option(alloc, "cut", "C", help::CUT));
    let command = with_option(command, layout_option(alloc));
    with_option(command, logs_option(alloc))
}

// The command `run`.
fn run_parser<'a>(alloc: Global) -> Result<Parser<'a>, AllocError>
    ensures { IfOk result (Offers run_command) }
{
    let usage = "seat_cli run [--turns T] [--out FILE] [--layout FILE]";
    let command = Ok(bare_command(alloc, "run", usage, help::RUN, help::RUN_NOTES));
    let command = with_option(command, turns_option(alloc));
    let command = with_option(command, text_option(alloc, "out", "FILE", help::OUT));
    with_option(command, layout_option(alloc))
}

// The option `--layout FILE`.
fn layout_option<'a>(alloc: Global) -> Arg<'a>
    ensures rule { rule_of result ≡ text_option (codes "layout") }
    ensures local { result.global ≡ false }
{
    text_option(alloc, "layout", "FILE", help::LAYOUT)
}

// A flag.
fn flag<'a>(alloc: Global, name: &'a str, about: &'a str) -> Arg<'a>
    ensures rule { rule_of result ≡ flag name.now }
    ensures local { result.global ≡ false }
{
    Arg::new(alloc, name)
        .long(name)
        .help(about)
        .action(ArgAction::SetTrue)
}

// A word of a call.
fn word<'a>(alloc: Global, name: &'a str, about: &'a str) -> Arg<'a>
    ensures rule { rule_of result ≡ word name.now }
    ensures local { result.global ≡ false }
{
    Arg::new(alloc, name)
        .value_name("WORD")
        .help(about)
        .action(ArgAction::Set)
}

// The first word of a call, which is needed.
fn first_word<'a>(alloc: Global) -> Arg<'a>
    ensures rule { rule_of result ≡ first_word }
    ensures local { result.global ≡ false }
{
    word(alloc, "word", help::WORD).required(true)
}

// The option `--site I`, which is needed.
fn site_option<'a>(alloc: Global) -> Arg<'a>
    ensures rule { rule_of result ≡ site_option }
    ensures local { result.global ≡ false }
{
    number_option(alloc, "site", "I", help::SITE_NUMBER).required(true)
}

// The option `--store FILE`, which is needed.
fn store_option<'a>(alloc: Global) -> Arg<'a>
    ensures rule { rule_of result ≡ store_option }
    ensures local { result.global ≡ false }
{
    text_option(alloc, "store", "FILE", help::STORE).required(true)
}

// The option `--group NAME`, where it is needed.
fn needed_group<'a>(alloc: Global, about: &'a str) -> Arg<'a>
    ensures rule { rule_of result ≡ needed_group }
    ensures local { result.global ≡ false }
{
    text_option(alloc, "group", "NAME", about).required(true)
}

// The option `--lost J`, which may be there several times.
fn lost_option<'a>(alloc: Global) -> Arg<'a>
    ensures rule { rule_of result ≡ lost_option }
    ensures local { result.global ≡ false }
{
    number_option(alloc, "lost", "J", help::LOST).action(ArgAction::Append)
}

// The option `--logs FILE ..`, which may be there several times.
fn logs_option<'a>(alloc: Global) -> Arg<'a>
    ensures rule { rule_of result ≡ logs_option }
    ensures local { result.global ≡ false }
{
    text_option(alloc, "logs", "FILE", help::LOGS)
        .num_args(1..)
        .action(ArgAction::Append)
}

// The option `--together N`.
fn together_option<'a>(alloc: Global) -> Arg<'a>
    ensures rule { rule_of result ≡ together_option }
    ensures local { result.global ≡ false }
{
    text_option(alloc, "together", "N", help::TOGETHER).value_parser(ValueParser::signed(1, 256))
}

// The option `--turns T`.
fn turns_option<'a>(alloc: Global) -> Arg<'a>
    ensures rule { rule_of result ≡ turns_option }
    ensures local { result.global ≡ false }
{
    text_option(alloc, "turns", "T", help::TURNS).value_parser(ValueParser::signed(1, 1000))
}

// An option whose value is any text.
fn text_option<'a>(alloc: Global, name: &'a str, value: &'a str, about: &'a str) -> Arg<'a>
    ensures rule { rule_of result ≡ text_option name.now }
    ensures local { result.global ≡ false }
{
    Arg::new(alloc, name)
        .long(name)
        .value_name(value)
        .help(about)
        .action(ArgAction::Set)
}

// An option whose value is a number from 0 to 65,535.
fn number_option<'a>(alloc: Global, name: &'a str, value: &'a str, about: &'a str) -> Arg<'a>
    ensures rule { rule_of result ≡ number_option name.now }
    ensures local { result.global ≡ false }
{
    text_option(alloc, name, value, about).value_parser(value_parser!(u16))
}
