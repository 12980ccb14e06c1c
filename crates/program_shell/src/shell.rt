ghost use Rattle.std.specs.Prelude.{◌≡◌, ◌⊎◌, [], None, Some, unwrap_or, map, MatchOption, MatchResult, option_copied, option_map, string_bytes};
ghost use Rattle.clap.specs.Words.{kind_of};
ghost use Rattle.command_arguments.specs.Arguments.{words_of};
ghost use Rattle.program_shell.specs.Services.{marking_of};
ghost use Rattle.program_shell.specs.Shell.{EndsCommand, EndsUnasked, EndsWithoutCut, EndsUnread, FindsBuiltIn, FindsCut, FindsFile, IsUnopened, RunsProgram, unopened};

use crate::closed_logs::judge_logs;
use crate::group::{end_without_group, group_fault};
use crate::logs_file::run_sites;
use crate::moves::{rebuild_site, regroup_site};
use crate::noted::Noted;
use crate::one_line::OneLine;
use crate::refused_layout::end_without_layout;
use crate::service::{ask_once, serve_lines};
use crate::standard_error::StandardError;
use crate::together::{end_logged_together, is_logged_together};
use clap::error::ErrorKind as UsageKind;
use command_arguments::{Command, Request, Serving, parse_arguments};
use exit_status::Status;
use join_engine::join_engine;
use judge_engine::{Cut, CutError};
use layout_file::{LayoutFault, LayoutRefusal, built_in, read_layout_file};
use line_conversation::{Conversation, StreamConversation};
use live_databases::{LiveDatabases, Opening, Service};
use merge_core::Layout;
use play_engine::play_engine;
use serve_engine::Marking;
use site_store::Permission;
use std::alloc::Global;
use std::io::{ErrorKind, Read, Write};
use std::rt::{Env, Files};
use std::sync::Wait;
use std::thread::Threads;
use std::{env, fs, io};
use stored_site::{Databases, serve_stored};
use text_input::{Sink, Source};

/// Runs the program on a runtime's arguments, files and standard streams, and gives the exit status. The command `run`
/// starts threads, and may wait; no other command does.
pub fn run<
    R: Env + Files + Databases + LiveDatabases + Input + Print + Eprint + AllocGlobal,
    T: Threads + Wait + Sync,
>(rt: &R, threads: &T) -> u8 {
    let mut errors = Sink::new(StandardError::of(rt));
    match all_arguments(rt) {
        Ok(arguments) => {
            let source = Source::new(rt.reader());
            let sink = Sink::new(io::writer(rt));
            run_with(rt, threads, arguments.as_slice(), source, sink, &mut errors).0
        }
        Err(error) => end_unread(error.kind(), &mut errors),
    }
}

// Says why the arguments were not read: memory ran out, or one of them is not UTF-8.
fn end_unread<E: Write>(kind: ErrorKind, errors: &mut Sink<E>) -> u8
    ensures { EndsUnread kind errors.old errors.new result }
{
    if kind == ErrorKind::OutOfMemory {
        return Status::Memory.end(errors);
    }
    let _ = errors.write_and_flush("error: an argument is not UTF-8\n");
    Status::Usage.end(errors)
}

// All arguments, the program's own name first.
fn all_arguments<R: Env + AllocGlobal>(rt: &R) -> io::Result<Vec<String>> {
    let arguments = env::args(rt)?.collect(rt.alloc())?;
    Ok(arguments)
}

/// Carries out the command that the arguments ask for, or says what is to be said of them. Gives the exit status, and
/// hands source and sink back.
pub fn run_with<
    R: Files + Databases + LiveDatabases + AllocGlobal,
    T: Threads + Wait + Sync,
    I: Read,
    O: Write,
    E: Write,
>(
    rt: &R,
    threads: &T,
    arguments: &[String],
    source: Source<I>,
    sink: Sink<O>,
    errors: &mut Sink<E>,
) -> (u8, Source<I>, Sink<O>)
    ensures { RunsProgram R.File.Read.remaining ⟦<Noted<StreamConversation<I, O>> as Conversation>⟧ ⟦<Noted<OneLine<'static, O>> as Conversation>⟧
        (map string_bytes arguments.now) source result.1 sink result.2 errors.old errors.new result.0 }
{
    let mut sink = sink;
    let asked = match parse_arguments(rt.alloc(), arguments) {
        Ok(asked) => asked,
        Err(error) => {
            let code = end_unasked(&error, &mut sink, errors);
            return (code, source, sink);
        }
    };
    let cut = match cut_of(rt.alloc(), asked.cut) {
        Ok(cut) => cut,
        Err(error) => return (end_without_cut(error, errors), source, sink),
    };
    if let Some(fault) = group_fault(asked.command, asked.group) {
        return (end_without_group(fault, errors), source, sink);
    }
    if is_logged_together(asked.command, asked.log) {
        return (end_logged_together(errors), source, sink);
    }
    let layout = match layout_at(rt, asked.layout) {
        Ok(layout) => layout,
        Err(refusal) => {
            let code = end_without_layout(asked.command, refusal, errors);
            return (code, source, sink);
        }
    };
    carry_out(rt, threads, &asked, &cut, layout, source, sink, errors)
}

// Carries out the command that is asked for under a layout.
fn carry_out<
    R: Files + Databases + LiveDatabases + AllocGlobal,
    T: Threads + Wait + Sync,
    I: Read,
    O: Write,
    E: Write,
>(
    rt: &R,
    threads: &T,
    asked: &Request,
    cut: &Cut,
    layout: Layout,
    source: Source<I>,
    sink: Sink<O>,
    errors: &mut Sink<E>,
) -> (u8, Source<I>, Sink<O>)
    ensures { EndsCommand ⟦<Noted<StreamConversation<I, O>> as Conversation>⟧ ⟦<Noted<OneLine<'static, O>> as Conversation>⟧ R.File.Read.remaining asked.now.command cut.now
        (option_map (λ path. path.now) asked.now.out) (option_map (λ path. path.now) asked.now.log) (option_copied asked.now.group) asked.now.lost.items
        (map (λ path. path.now) asked.now.logs.items) (words_of asked.now.words) layout source result.1 sink result.2 errors.old errors.new result.0 }
{
    let mut source = source;
    let mut sink = sink;
    let path = asked.store.unwrap_or(""); // clap has refused `site` without one
    match asked.command {
        Command::Join => {
            let ended = join_engine(rt.alloc(), &layout, &mut source, &mut sink);
            (ended.end(errors), source, sink)
        }
        Command::Play { tables, first } => {
            let ended = play_engine(rt.alloc(), layout, first, tables, &mut source, &mut sink);
            (ended.end(errors), source, sink)
        }
        Command::Site { site } => {
            let ended = serve_stored(rt, path, layout, site, &mut source, &mut sink);
            (ended.end(errors), source, sink)
        }
        Command::Serve(serving) => {
            let opening = opening(asked, serving);
            serve_lines(rt, opening, layout, source, sink, errors)
        }
        Command::Ask(serving) => {
            let opening = opening(asked, serving);
            let (code, sink) = ask_once(rt, opening, layout, &asked.words, sink, errors);
            (code, source, sink)
        }
        Command::Regroup { site } => {
            let group = group_of(asked);
            let code = regroup_site(rt, path, layout, site, group, &mut sink, errors);
            (code, source, sink)
        }
        Command::Rebuild { site } => {
            let group = group_of(asked);
            let lost = asked.lost.as_slice();
            let code = rebuild_site(
                rt,
                path,
                layout,
                site,
                lost,
                group,
                &mut source,
                &mut sink,
                errors,
            );
            (code, source, sink)
        }
        Command::Judge => {
            let paths = asked.logs.as_slice();
            let code = judge_logs(rt, paths, &layout, cut, &mut source, &mut sink, errors);
            (code, source, sink)
        }
        Command::Run { turns } => {
            let turns = u64::from(turns.min(1000)); // clap has refused more
            let ended = run_sites(
                rt,
                threads,
                &layout,
                turns,
                asked.out,
                &mut source,
                &mut sink,
            );
            (ended.end(errors), source, sink)
        }
    }
}

// The name of the group. Clap has refused `regroup` and `rebuild` without one.
fn group_of<'a>(asked: &Request<'a>) -> &'a str
    ensures { result.now ≡ unwrap_or (option_copied asked.now.group) [] }
{
    match asked.group {
        Some(name) => name,
        None => "",
    }
}

// How a site is served, and over which store. Clap has refused arguments without one.
fn opening<'a>(asked: &Request<'a>, serving: Serving) -> Opening<'a>
    ensures site { result.service.site ≡ serving.site }
    ensures group { result.service.group ≡ asked.now.group }
    ensures marking { result.service.marking ≡ marking_of serving.plain }
    ensures create { result.service.permission.create ≡ serving.create }
    ensures grow { result.service.permission.grow ≡ serving.grow }
    ensures path { result.path.now ≡ unwrap_or (option_copied asked.now.store) [] }
    ensures wait { result.wait ≡ serving.wait }
    ensures log { result.log ≡ asked.now.log }
    ensures together { result.together ≡ serving.together }
{
    Opening {
        path: asked.store.unwrap_or(""),
        service: Service {
            site: serving.site,
            group: asked.group,
            marking: marking_of(serving.plain),
            permission: Permission {
                create: serving.create,
                grow: serving.grow,
            },
        },
        wait: serving.wait,
        log: asked.log,
        together: serving.together,
    }
}

// Whether deltas travel with a mark.
fn marking_of(plain: bool) -> Marking
    ensures { result ≡ marking_of plain }
{
    if plain {
        return Marking::Plain;
    }
    Marking::Marked
}

// Prints what clap says where it gives no command: help, the version, or what is wrong with the arguments.
fn end_unasked<O: Write, E: Write>(
    error: &clap::Error,
    sink: &mut Sink<O>,
    errors: &mut Sink<E>,
) -> u8
    ensures { EndsUnasked (kind_of error.now) sink.old sink.new errors.old errors.new result }
{
    match error.kind() {
        UsageKind::OutOfMemory => Status::Memory.end(errors),
        UsageKind::DisplayHelp | UsageKind::DisplayVersion => {
            if sink.print_and_flush(error) {
                return Status::Done.end(errors);
            }
            Status::Io.end(errors)
        }
        _ => {
            let _ = errors.print_and_flush(error);
            Status::Usage.end(errors)
        }
    }
}

// The cut that is named, or that of all calls.
fn cut_of(alloc: Global, word: Option<&str>) -> Result<Cut, CutError>
    ensures { MatchOption word.entry (FindsCut None result) (λ named. FindsCut (Some named.now) result) }
{
    match word {
        Some(word) => Cut::parse(alloc, word.as_bytes()),
        None => Ok(Cut::full()),
    }
}

// Says that a word is no cut, or that memory ran out.
fn end_without_cut<E: Write>(error: CutError, errors: &mut Sink<E>) -> u8
    ensures { EndsWithoutCut error errors.old errors.new result }
{
    match error {
        CutError::BadWord => {
            let _ = errors.write_and_flush("cut refused BadWord\n");
            Status::Usage.end(errors)
        }
        CutError::Memory => Status::Memory.end(errors),
    }
}

// The layout of the file, or the built-in one.
fn layout_at<R: Files + AllocGlobal>(rt: &R, path: Option<&str>) -> Result<Layout, LayoutRefusal>
    ensures { MatchOption path.entry (FindsBuiltIn result) (λ _. FindsFile R.File.Read.remaining result ⊎ IsUnopened result) }
{
    let Some(path) = path else {
        return match built_in(rt.alloc()) {
            Ok(layout) => Ok(layout),
            Err(_) => Err(LayoutRefusal::whole(LayoutFault::Memory)),
        };
    };
    layout_from(rt.alloc(), fs::open(rt, path))
}

// The layout of a file that was opened, or why it was not.
fn layout_from<F: Read + Drop>(
    alloc: Global,
    opened: io::Result<F>,
) -> Result<Layout, LayoutRefusal>
    ensures { MatchResult opened (λ _. FindsFile F.remaining result) (λ _. IsUnopened result) }
{
    match opened {
        Ok(file) => read_layout_file(alloc, &mut Source::new(file)),
        Err(error) => Err(LayoutRefusal::whole(unopened(error.kind()))),
    }
}

// Why there is no layout where the file did not open.
fn unopened(kind: ErrorKind) -> LayoutFault
    ensures { result ≡ unopened kind }
{
    if kind == ErrorKind::OutOfMemory {
        return LayoutFault::Memory;
    }
    LayoutFault::NotRead
}
