//! Lines of a script as events.
ghost use Rattle.std.specs.Prelude.{◌≡◌};
ghost use Rattle.script_text.specs.Words.{words_of};
ghost use Rattle.world_script.specs.Events.{message_in, event_alone, event_behind, event_at, event_in};

use merge_core::Layout;
use multi_site_world::Event;
use script_text::{ask_behind, cut_word, number_word, short_word};

/// What a line says: a site's number, a blank, and what happens there, `send`, `take K`, `restart`, `grow`, or what
/// a caller asks (`script_text::ask_in`). Nothing where the line says no event. Linear in the line, and a record
/// is looked up by its name.
pub fn event_in(layout: &Layout, line: &[u8]) -> Option<Event>
    ensures { result ≡ event_in layout.now.records line.now }
{
    let (site, Some(words)) = cut_word(line) else {
        return None;
    };
    let site = short_word(site)?;
    event_at(layout, site, words)
}

// What happens at a site.
fn event_at(layout: &Layout, site: u16, bytes: &[u8]) -> Option<Event>
    ensures { result ≡ event_at layout.now.records site (words_of bytes.now) }
{
    let (verb, behind) = cut_word(bytes);
    let Some(words) = behind else {
        return event_alone(site, verb);
    };
    event_behind(layout, site, verb, words)
}

// What one word tells.
fn event_alone(site: u16, verb: &[u8]) -> Option<Event>
    ensures { result ≡ event_alone site verb.now }
{
    if verb == b"send".as_slice() {
        return Some(Event::Send(site));
    }
    if verb == b"restart".as_slice() {
        return Some(Event::Restart(site));
    }
    if verb == b"grow".as_slice() {
        return Some(Event::Grow(site));
    }
    None
}

// What a verb tells with words behind it.
fn event_behind(layout: &Layout, site: u16, verb: &[u8], words: &[u8]) -> Option<Event>
    ensures { result ≡ event_behind layout.now.records site verb.now (words_of words.now) }
{
    if verb == b"take".as_slice() {
        let k = message_in(words)?;
        return Some(Event::Take(site, k));
    }
    let ask = ask_behind(layout, verb, words)?;
    Some(Event::Call(site, ask))
}

// The number of a message, which is the last word.
fn message_in(words: &[u8]) -> Option<u64>
    ensures { result ≡ message_in (words_of words.now) }
{
    match cut_word(words) {
        (number, None) => number_word(number),
        (_, Some(_)) => None,
    }
}
