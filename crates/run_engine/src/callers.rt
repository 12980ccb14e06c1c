//! The caller of a site: it makes what a script asks of the site, one call after another.
ghost use Rattle.std.specs.Prelude.{◌≡◌, true};
ghost use Rattle.desk_log.specs.Log.{is_logged};
ghost use Rattle.run_engine.specs.Callers.{HasAsked};

use admission_core::{Ask, Call, Refusal, Reply};
use durable_keeper::Keeper;
use session_book::{Opening, Pass, Site};
use std::sync::Wait;

/// Asks a site one thing after another. Whether each reply is logged; the first that is not ends it. May wait, for the
/// site's lock.
pub fn ask_all<K: Keeper, L: Opening, R: Wait>(
    rt: &R,
    site: &Site<K, L>,
    pass: &mut Pass<L>,
    asks: &[Ask],
) -> bool
    ensures number { pass.new.number ≡ pass.old.number }
    ensures asked { result ≡ true → HasAsked asks.now pass.old pass.new }
{
    let mut rest = asks;
    'asks: while let [ask, later @ ..] = rest {
        let reply = site.call(rt, pass, Call::Ask(*ask));
        if !is_logged(&reply) {
            return false;
        }
        rest = later;
    }
    true
}

/// Whether a reply leaves an entry in the log.
pub fn is_logged(reply: &Reply) -> bool
    ensures { result ≡ is_logged reply.now }
{
    match reply {
        Reply::Refused(Refusal::Memory) => false,
        Reply::Refused(Refusal::Frozen) => false,
        Reply::Refused(Refusal::LogFull) => false,
        _ => true,
    }
}
