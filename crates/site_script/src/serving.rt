//! Carrying out a site's script: its lines are served one by one.
ghost use Rattle.std.specs.Prelude.{◌≡◌, ◌++◌, ℕ, Bool, List, [], ◌∷◌, true, false, codes, string_bytes, IfErr, IfOk};
ghost use Rattle.admission_model.specs.Account.{Account};
ghost use Rattle.admission_core.specs.Core.{is_memory};
ghost use Rattle.text_input.specs.Lines.{lines_of};
ghost use Rattle.desk_log.specs.Desk.{account_of, account_if_kept, is_frozen};
ghost use Rattle.site_script.specs.declared.lines.Said.{Said as SaidThere};
ghost use Rattle.site_script.specs.declared.lines.Said.TheVariants.{Asked};
ghost use Rattle.site_script.specs.Served.{SameOpening, Grows, Serves, ServesFront, Stops, StaysStopped, no_delta_line, places_of};
ghost use Rattle.site_script.specs.Steps.{AnsweredFrom, AnswersOne, LosesCall, LosesLine};

use crate::lines::{Said, said_in};
use admission_core::{Call, Reply, is_memory};
use delta_codec::DecodeError;
use desk_log::Desk;
use durable_keeper::Keeper;
use script_text::{push_reply, push_unread_line};
use std::alloc::{AllocError, Global};
use text_input::cut_line;

/// What a script was answered: its lines' replies, each on a line, and whether every line said something. Where one
/// did not, the last line tells of it.
#[derive(Drop)]
pub struct Served {
    pub text: String,
    pub whole: bool,
}

/// Carries out a script: each line is read, served by the desk in this pass and answered, up to the first that says
/// nothing. A text that is no delta's is told, and reaches no desk. Where the log has no place left, a call is answered
/// `LogFull`. After the store's fault the script goes on, and each call is answered `Frozen`. An error where memory ran
/// out, for a reply `Memory` too; the desk has then served the lines before that one, and perhaps that one.
///
/// Linear in the script and in what its calls cost.
pub fn serve_script<K: Keeper>(
    alloc: Global,
    desk: &mut Desk<K>,
    pass: u16,
    script: &[u8],
) -> Result<Served, AllocError>
    ensures opening { SameOpening desk.old desk.new }
    ensures grown { Grows pass desk.old desk.new }
    ensures served { IfOk result (λ served. is_frozen desk.old ≡ false → is_frozen desk.new ≡ false
        → Serves (account_of desk.old) (places_of desk.old) desk.old.core.layout.records (lines_of script.now)
        served.whole (string_bytes served.text) (account_of desk.new)) }
    ensures stopped { IfOk result (λ served. is_frozen desk.old ≡ false → is_frozen desk.new ≡ true
        → Stops (account_of desk.old) (places_of desk.old) desk.old.core.layout.records (lines_of script.now)
        served.whole (string_bytes served.text) (account_of desk.new) (account_if_kept desk.new)) }
    ensures stays { IfOk result (λ served. is_frozen desk.old ≡ true
        → StaysStopped desk.old.core.layout.records (lines_of script.now) served.whole (string_bytes served.text)) }
    ensures lost { IfErr result (λ _. is_frozen desk.old ≡ false → ServesFront desk.old desk.new (lines_of script.now)) }
    ensures still { is_frozen desk.old ≡ true → desk.new ≡ desk.old }
{
    let mut text = String::new(alloc);
    let mut rest = script;
    let mut number = 0u64;
    while !rest.is_empty() {
        let (line, tail) = cut_line(rest);
        number += 1;
        if !serve_line(alloc, desk, pass, &mut text, number, line)? {
            return Ok(Served { text, whole: false });
        }
        rest = tail;
    }
    Ok(Served { text, whole: true })
}

// Serves one line. Whether it says something; where it does not, that is told.
fn serve_line<K: Keeper>(
    alloc: Global,
    desk: &mut Desk<K>,
    pass: u16,
    text: &mut String,
    number: u64,
    line: &[u8],
) -> Result<bool, AllocError>
    ensures opening { SameOpening desk.old desk.new }
    ensures grown { Grows pass desk.old desk.new }
    ensures still { is_frozen desk.old ≡ true → desk.new ≡ desk.old }
    ensures line { IfOk result (λ read. (was : Bool) (a : Account) (left : ℕ)
        → AnswersOne (AnsweredFrom was a left desk.old) (AnsweredFrom was a left desk.new) desk.old.core.layout.records
        line.now number read (string_bytes text.old) (string_bytes text.new)) }
    ensures lost { IfErr result (λ _. (was : Bool) (a : Account) (left : ℕ)
        → LosesLine (AnsweredFrom was a left desk.old) (AnsweredFrom was a left desk.new) desk.old.core.layout.records line.now (string_bytes text.old)) }
{
    let Some(said) = said_in(alloc, desk.core().layout(), line)? else {
        push_unread_line(text, number)?;
        return Ok(false);
    };
    match said {
        Said::Asked(call) => answer_call(desk, pass, &call, text)?,
        Said::Unread(error) => push_no_delta_line(text, error)?,
    }
    Ok(true)
}

// Serves a call, and writes the reply and LF.
fn answer_call<K: Keeper>(
    desk: &mut Desk<K>,
    pass: u16,
    call: &Call,
    text: &mut String,
) -> Result<(), AllocError>
    ensures opening { SameOpening desk.old desk.new }
    ensures grown { Grows pass desk.old desk.new }
    ensures still { is_frozen desk.old ≡ true → desk.new ≡ desk.old }
    ensures answered { IfOk result (λ _. (was : Bool) (a : Account) (left : ℕ) (said : List SaidThere)
        → AnsweredFrom was a left desk.old said (string_bytes text.old)
        → AnsweredFrom was a left desk.new (said ++ Asked call.now ∷ []) (string_bytes text.new)) }
    ensures lost { IfErr result (λ _. (was : Bool) (a : Account) (left : ℕ)
        → LosesCall (AnsweredFrom was a left desk.old) (AnsweredFrom was a left desk.new) call.now (string_bytes text.old)) }
{
    let reply = desk.serve(pass, call);
    if is_memory(&reply) {
        return Err(AllocError);
    }
    push_reply(text, &reply)?;
    text.push_str("\n")?;
    Ok(())
}

/// Writes the answer to a text that is no delta's, as a line.
pub fn push_no_delta_line(text: &mut String, error: DecodeError) -> Result<(), AllocError>
    ensures { IfOk result (λ _. string_bytes text.new ≡ string_bytes text.old ++ no_delta_line error) }
{
    text.push_str("refused ")?;
    text.push_str(error.name())?;
    text.push_str("\n")
}
