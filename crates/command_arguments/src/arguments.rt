ghost use Rattle.std.specs.Prelude.{◌≡◌, ◌≤◌, ◌++◌, codes, length, map, IfOk, OnOk, IsOk, option_and_then, option_map, string_bytes};
ghost use Rattle.clap.specs.Words.{FailsBy, found_of, one_of, rows_of, subcommand_rows_of};
ghost use Rattle.command_arguments.specs.Arguments.{asked_command, asked_cut, asked_group, asked_layout, asked_log, asked_logs, asked_lost, asked_out, asked_store, asked_words, command_in, command_of, flag_in, logs_at, logs_in, lost_at, lost_in, none_said, serving_in, short_number, site_in, site_of, sites_of, together_in, turns_in, usage_errors, value_in, wait_in, word, words_at, words_in, words_of};

use crate::parser::parser;
use clap::{ArgMatches, Error};
use std::alloc::{AllocError, Global};

/// What the program is asked for.
#[derive(Clone, Copy)]
pub enum Command {
    /// The lines of the input are deltas, which are joined.
    Join,
    /// The lines of the input are events at several sites, which are played.
    Play {
        /// Whether the tables of seats and sessions follow.
        tables: bool,
        /// How many sites the first sites begin with, if not with all.
        first: Option<u16>,
    },
    /// The lines of the input are calls at one site, which are served over its store.
    Site {
        /// The site's number.
        site: u16,
    },
    /// The lines of the input are calls at one site, each of which is answered before another one is waited for.
    Serve(Serving),
    /// One call at one site, which the words name.
    Ask(Serving),
    /// The store of one site is moved to the next generation of its group.
    Regroup {
        /// The site's number.
        site: u16,
    },
    /// The lines of the input are texts of the other sites, of which one that lost its store is built again.
    Rebuild {
        /// The site's number.
        site: u16,
    },
    /// The lines of the input are those of closed logs, which are judged.
    Judge,
    /// The lines of the input are calls at several sites, which work at the same time.
    Run {
        /// How many turns each link between two sites has.
        turns: u16,
    },
}

/// How a site is served at once.
#[derive(Clone, Copy)]
pub struct Serving {
    /// The site's number.
    pub site: u16,
    /// Whether the site's store is made, and must not be there before.
    pub create: bool,
    /// Whether a store that knows fewer sites than the layout gets the others.
    pub grow: bool,
    /// Whether deltas travel without a mark.
    pub plain: bool,
    /// How many seconds to wait for a store in use.
    pub wait: u16,
    /// How many calls are committed together at most, from 1 to 256: always 1 for `ask`.
    pub together: u16,
}

/// The words of a call: `ask` has at least one, and no other command has any.
#[derive(Clone, Copy)]
pub struct Words<'a> {
    pub first: Option<&'a str>,
    pub second: Option<&'a str>,
    pub third: Option<&'a str>,
    pub fourth: Option<&'a str>,
}

/// A command and the texts that its options name.
#[derive(Drop)]
pub struct Request<'a> {
    pub command: Command,
    /// The layout file, if one is named.
    pub layout: Option<&'a str>,
    /// The file of the site's store: `site`, `serve`, `ask`, `regroup` and `rebuild` have one, and no other command.
    pub store: Option<&'a str>,
    /// The word for a cut, if one is named: `judge` may have one, and no other command.
    pub cut: Option<&'a str>,
    /// The file for closed logs, if one is named: `run` may have one, and no other command.
    pub out: Option<&'a str>,
    /// The file for the site's log, if one is named: `serve` and `ask` may have one, and no other command.
    pub log: Option<&'a str>,
    /// The name of the site's group, if one is named: `serve` and `ask` may have one, `regroup` and `rebuild` have one, and no
    /// other command.
    pub group: Option<&'a str>,
    /// The other sites that lost their stores: `rebuild` may have some, and no other command.
    pub lost: Vec<u16>,
    /// The files of closed logs, in their order: `judge` may have some, and no other command.
    pub logs: Vec<&'a str>,
    /// The words of the call.
    pub words: Words<'a>,
}

/// What the arguments ask for. The first is the program's own name; without a further one it is `join`, for which no
/// memory is taken.
pub fn parse_arguments<'a>(alloc: Global, arguments: &'a [String]) -> Result<Request<'a>, Error>
    ensures command { IfOk result (λ asked. asked.command ≡ asked_command (map string_bytes arguments.now)) }
    ensures layout { IfOk result (λ asked. option_map (λ path. path.now) asked.layout ≡ asked_layout (map string_bytes arguments.now)) }
    ensures store { IfOk result (λ asked. option_map (λ path. path.now) asked.store ≡ asked_store (map string_bytes arguments.now)) }
    ensures cut { IfOk result (λ asked. option_map (λ word. word.now) asked.cut ≡ asked_cut (map string_bytes arguments.now)) }
    ensures out { IfOk result (λ asked. option_map (λ path. path.now) asked.out ≡ asked_out (map string_bytes arguments.now)) }
    ensures log { IfOk result (λ asked. option_map (λ path. path.now) asked.log ≡ asked_log (map string_bytes arguments.now)) }
    ensures group { IfOk result (λ asked. option_map (λ name. name.now) asked.group ≡ asked_group (map string_bytes arguments.now)) }
    ensures lost { IfOk result (λ asked. asked.lost.items ≡ asked_lost (map string_bytes arguments.now)) }
    ensures logs { IfOk result (λ asked. map (λ path. path.now) asked.logs.items ≡ asked_logs (map string_bytes arguments.now)) }
    ensures words { IfOk result (λ asked. words_of asked.words ≡ asked_words (map string_bytes arguments.now)) }
    // An error comes just where clap's rules find one, and is of a kind that they give, or memory ran out.
    ensures refused { FailsBy (usage_errors (map string_bytes arguments.now)) result }
    ensures bare { length arguments.now ≤ 1 → IsOk result }
{
    if arguments.len() <= 1 {
        return Ok(Request {
            command: Command::Join,
            layout: None,
            store: None,
            cut: None,
            out: None,
            log: None,
            group: None,
            lost: Vec::new(alloc),
            logs: Vec::new(alloc),
            words: no_words(),
        });
    }
    let matches = parser(alloc)?.try_get_matches_from(arguments)?;
    let asked = request_in(alloc, &matches)?;
    Ok(asked)
}

// What the arguments' matches ask for.
fn request_in<'a>(alloc: Global, matches: &ArgMatches<'a>) -> Result<Request<'a>, AllocError>
    ensures command { IfOk result (λ asked. asked.command ≡ command_in (subcommand_rows_of matches.now)) }
    ensures layout { IfOk result (λ asked. option_map (λ path. path.now) asked.layout ≡ value_in (codes "layout") (subcommand_rows_of matches.now)) }
    ensures store { IfOk result (λ asked. option_map (λ path. path.now) asked.store ≡ value_in (codes "store") (subcommand_rows_of matches.now)) }
    ensures cut { IfOk result (λ asked. option_map (λ word. word.now) asked.cut ≡ value_in (codes "cut") (subcommand_rows_of matches.now)) }
    ensures out { IfOk result (λ asked. option_map (λ path. path.now) asked.out ≡ value_in (codes "out") (subcommand_rows_of matches.now)) }
    ensures log { IfOk result (λ asked. option_map (λ path. path.now) asked.log ≡ value_in (codes "log") (subcommand_rows_of matches.now)) }
    ensures group { IfOk result (λ asked. option_map (λ name. name.now) asked.group ≡ value_in (codes "group") (subcommand_rows_of matches.now)) }
    ensures lost { IfOk result (λ asked. asked.lost.items ≡ lost_at (subcommand_rows_of matches.now)) }
    ensures logs { IfOk result (λ asked. map (λ path. path.now) asked.logs.items ≡ logs_at (subcommand_rows_of matches.now)) }
    ensures words { IfOk result (λ asked. words_of asked.words ≡ words_at (subcommand_rows_of matches.now)) }
{
    let Some((name, found)) = matches.subcommand() else {
        return Ok(Request {
            command: Command::Join,
            layout: None,
            store: None,
            cut: None,
            out: None,
            log: None,
            group: None,
            lost: Vec::new(alloc),
            logs: Vec::new(alloc),
            words: no_words(),
        });
    };
    let lost = lost_in(alloc, found)?;
    let logs = logs_in(alloc, found)?;
    Ok(Request {
        command: command_of(name, found),
        layout: found.get_str("layout"),
        store: found.get_str("store"),
        cut: found.get_str("cut"),
        out: found.get_str("out"),
        log: found.get_str("log"),
        group: found.get_str("group"),
        lost,
        logs,
        words: words_in(found),
    })
}

// The sites that the values of `--lost` name. Clap has refused those that are no numbers of 16 bits.
fn lost_in(alloc: Global, found: &ArgMatches) -> Result<Vec<u16>, AllocError>
    ensures { IfOk result (λ sites. sites.items ≡ lost_in (rows_of (found_of found.now))) }
{
    match found.get_strs("lost") {
        Some(texts) => sites_of(alloc, texts),
        None => Ok(Vec::new(alloc)),
    }
}

// The numbers of 16 bits that texts name.
fn sites_of(alloc: Global, texts: &[&str]) -> Result<Vec<u16>, AllocError>
    ensures { IfOk result (λ sites. sites.items ≡ sites_of (map (λ t. t.now) texts.now)) }
{
    let mut sites = Vec::new(alloc);
    for text in texts {
        push_site(&mut sites, text)?;
    }
    Ok(sites)
}

// Adds the number of 16 bits that a text names, if it names one.
fn push_site(sites: &mut Vec<u16>, text: &str) -> Result<(), AllocError>
    ensures { OnOk result (sites.new.items ≡ sites.old.items ++ site_of text.now) }
{
    match text.parse::<u16>() {
        Ok(site) => sites.push(site)?,
        Err(_) => {}
    }
    Ok(())
}

// The files that the values of `--logs` name.
fn logs_in<'a>(alloc: Global, found: &ArgMatches<'a>) -> Result<Vec<&'a str>, AllocError>
    ensures { IfOk result (λ files. map (λ path. path.now) files.items ≡ logs_in (rows_of (found_of found.now))) }
{
    match found.get_strs("logs") {
        Some(texts) => copied(alloc, texts),
        None => Ok(Vec::new(alloc)),
    }
}

// A copy of a list of texts.
fn copied<'a>(alloc: Global, texts: &[&'a str]) -> Result<Vec<&'a str>, AllocError>
    ensures { IfOk result (λ copy. copy.items ≡ texts.now) }
{
    let mut copy = Vec::new(alloc);
    copy.extend_from_slice(texts)?;
    Ok(copy)
}

// No words.
fn no_words<'a>() -> Words<'a>
    ensures { words_of result ≡ none_said }
{
    Words {
        first: None,
        second: None,
        third: None,
        fourth: None,
    }
}

// The words of a call.
fn words_in<'a>(found: &ArgMatches<'a>) -> Words<'a>
    ensures { words_of result ≡ words_in (rows_of (found_of found.now)) }
{
    Words {
        first: found.get_str("word"),
        second: found.get_str("word2"),
        third: found.get_str("word3"),
        fourth: found.get_str("word4"),
    }
}

// The command of this name, with the values of its options.
fn command_of(name: &str, found: &ArgMatches) -> Command
    ensures { result ≡ command_of name.now (rows_of (found_of found.now)) }
{
    if name == "play" {
        return Command::Play {
            tables: flag_in(found, "tables"),
            first: number_in(found, "from"),
        };
    }
    if name == "site" {
        return Command::Site {
            site: site_in(found),
        };
    }
    if name == "serve" {
        return Command::Serve(serving_in(found));
    }
    if name == "ask" {
        return Command::Ask(serving_in(found));
    }
    if name == "regroup" {
        return Command::Regroup {
            site: site_in(found),
        };
    }
    if name == "rebuild" {
        return Command::Rebuild {
            site: site_in(found),
        };
    }
    if name == "judge" {
        return Command::Judge;
    }
    if name == "run" {
        return Command::Run {
            turns: turns_in(found),
        };
    }
    Command::Join
}

// The number of the site; 0 where there is none, which clap refuses.
fn site_in(found: &ArgMatches) -> u16
    ensures { result ≡ site_in (rows_of (found_of found.now)) }
{
    number_in(found, "site").unwrap_or(0)
}

// How a site is served at once.
fn serving_in(found: &ArgMatches) -> Serving
    ensures { result ≡ serving_in (rows_of (found_of found.now)) }
{
    Serving {
        site: site_in(found),
        create: flag_in(found, "create"),
        grow: flag_in(found, "grow"),
        plain: flag_in(found, "plain"),
        wait: wait_in(found),
        together: together_in(found),
    }
}

// The number of 16 bits that an option names, if it names one.
fn number_in(found: &ArgMatches, name: &str) -> Option<u16>
    ensures { result ≡ option_and_then short_number (one_of name.now (rows_of (found_of found.now))) }
{
    found.get_one::<u16>(name)
}

// Whether a flag is there.
fn flag_in(found: &ArgMatches, name: &str) -> bool
    ensures { result ≡ flag_in name.now (rows_of (found_of found.now)) }
{
    found.get_one::<bool>(name).unwrap_or(false)
}

// How many seconds to wait for a store in use: 0 where no number is named.
fn wait_in(found: &ArgMatches) -> u16
    ensures { result ≡ wait_in (rows_of (found_of found.now)) }
{
    number_in(found, "wait").unwrap_or(0)
}

// How many calls are committed together at most: 1 where no number is named.
fn together_in(found: &ArgMatches) -> u16
    ensures { result ≡ together_in (rows_of (found_of found.now)) }
{
    number_in(found, "together").unwrap_or(1)
}

// How many turns links have: 100 where no number is named.
fn turns_in(found: &ArgMatches) -> u16
    ensures { result ≡ turns_in (rows_of (found_of found.now)) }
{
    number_in(found, "turns").unwrap_or(100)
}
