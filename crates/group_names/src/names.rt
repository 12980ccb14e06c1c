//! What a group's name tells.
ghost use Rattle.std.specs.Prelude.{◌≡◌, ◌≤◌, ◌++◌, ◌∷◌, decimal, option_copied, option_map, string_bytes, IfOk, Option};
ghost use Rattle.group_names.specs.Names.{base_of, behind_dot, generation_of, has_base_form, is_answer_word, is_base_name, is_group_name, is_look_word, is_moved, is_reply_word, most_generations, moved_name, next_name, number_behind, told_generation, whole_number};

use merge_core::are_name_bytes;
use std::alloc::{AllocError, Global};
use text_parts::{number_at, push_field};

// The greatest number of a generation. The number of a session inside a record has room for as many above the count of writers.
const MOST_GENERATIONS: u64 = 1_048_575;

/// Whether a group may have the name: 1 to 32 bytes, a letter from a to z first, and then such letters, digits and `-`, and
/// no word that begins a reply; or such a name with a dot and a number from 2 to 1,048,575 behind it, without a leading zero.
pub fn is_group_name(name: &str) -> bool
    ensures { result ≡ is_group_name name.now }
{
    let (base, behind) = cut(name);
    is_base_name(base) && number_behind(behind).is_some()
}

/// The number of the generation that a group's name tells: 1 where the group was never moved, or has no name.
pub fn generation_of(group: Option<&str>) -> u64
    ensures generation { result ≡ generation_of (option_copied group.entry) }
    ensures some { 1 ≤ result }
    ensures most { result ≤ most_generations }
{
    match group {
        Some(name) => told_generation(name).unwrap_or(1),
        None => 1,
    }
}

/// The name of the generation behind that of a name. None is behind the last one.
pub fn next_name(alloc: Global, name: &str) -> Result<Option<String>, AllocError>
    ensures { IfOk result (λ next. option_map string_bytes next ≡ next_name name.now) }
{
    let generation = generation_of(Some(name));
    if generation >= MOST_GENERATIONS {
        return Ok(None);
    }
    let (base, _) = cut(name);
    Ok(Some(moved_name(alloc, base, generation + 1)?))
}

// The name of a generation that a move makes.
fn moved_name(alloc: Global, base: &str, generation: u64) -> Result<String, AllocError>
    ensures { IfOk result (λ name. string_bytes name ≡ moved_name base.now generation) }
{
    let mut name = String::from_str(alloc, base)?;
    push_field(&mut name, ".", generation)?;
    Ok(name)
}

// What stands in front of the first dot, and what behind it, if there is one.
fn cut(name: &str) -> (&str, Option<&str>)
    ensures base { result.0.now ≡ base_of name.now }
    ensures behind { option_map (λ s. s.now) result.1 ≡ behind_dot name.now }
{
    match name.split_once('.') {
        Some((base, behind)) => (base, Some(behind)),
        None => (name, None),
    }
}

// The generation that a name tells, if it is one.
fn told_generation(name: &str) -> Option<u64>
    ensures { result ≡ told_generation name.now }
{
    let (_, behind) = cut(name);
    number_behind(behind)
}

// The generation that is told by what stands behind a dot, or by that there is none.
fn number_behind(behind: Option<&str>) -> Option<u64>
    ensures { result ≡ number_behind (option_copied behind.entry) }
{
    let Some(digits) = behind else {
        return Some(1);
    };
    match number_at(digits.as_bytes()) {
        Ok((number, [])) if is_moved(number) => Some(number),
        _ => None,
    }
}

// Whether a move gives the number.
fn is_moved(number: u64) -> bool
    ensures { result ≡ is_moved number }
{
    2 <= number && number <= MOST_GENERATIONS
}

// Whether anyone may give the name.
fn is_base_name(name: &str) -> bool
    ensures { result ≡ is_base_name name.now }
{
    has_base_form(name.as_bytes()) && !is_reply_word(name)
}

// Whether a word begins a reply.
fn is_reply_word(word: &str) -> bool
    ensures { result ≡ is_reply_word word.now }
{
    is_answer_word(word) || is_look_word(word)
}

// Whether a word begins the reply to a call.
fn is_answer_word(word: &str) -> bool
    ensures { result ≡ is_answer_word word.now }
{
    word == "refused"
        || word == "admitted"
        || word == "announced"
        || word == "left"
        || word == "withdrawn"
        || word == "given"
        || word == "gave"
        || word == "merged"
}

// Whether a word begins what is shown of a record.
fn is_look_word(word: &str) -> bool
    ensures { result ≡ is_look_word word.now }
{
    word == "rights" || word == "fence"
}

// Whether a name has the form of one that anyone may give.
fn has_base_form(name: &[u8]) -> bool
    ensures { result ≡ has_base_form name.now }
{
    match name {
        [first, rest @ ..] => {
            first.is_ascii_lowercase() && rest.len() <= 31 && are_name_bytes(rest)
        }
        [] => false,
    }
}
