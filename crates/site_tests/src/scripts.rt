//! A script, played with ample memory.
use crate::layouts::one_record;
use multi_site_world::World;
use std::alloc::Global;
use world_script::play;

// Two sites with two seats of record `a` at site 0.
fn small_world(alloc: Global) -> Option<World> {
    World::new(alloc, one_record(alloc, 2, 2, 1)?).ok()
}

// Whether a script is answered so, and read whole or not.
fn is_answer(alloc: Global, script: &str, text: &str, whole: bool) -> Option<bool> {
    let mut world = small_world(alloc)?;
    let played = play(alloc, &mut world, script.as_bytes()).ok()?;
    Some(played.text.as_str() == text && played.whole == whole)
}

const SCRIPTS: [(&str, &str, bool); 4] = [
    ("", "", true),
    (
        "0 give a 1 1\n0 send\n1 take 0\n1 read a 8",
        "given\nsent 0\nmerged 1\nadmitted\n",
        true,
    ),
    (
        "0 read a 7\n\n0 read a 8\n",
        "admitted\nline 2 refused BadWord\n",
        false,
    ),
    (
        "2 send\n0 take 0\n0 grow\n0 restart\n0 send\u{e9}\n",
        "refused NoSite\nrefused NoMessage\nrefused NoGrowth\nrestarted\nline 5 refused BadWord\n",
        false,
    ),
];

// The first script that is answered otherwise.
fn first_wrong(alloc: Global) -> Option<usize> {
    for (k, (script, text, whole)) in SCRIPTS.iter().enumerate() {
        if is_answer(alloc, *script, *text, *whole) != Some(true) {
            return Some(k);
        }
    }
    None
}

#[test]
fn a_script_is_answered_line_by_line(rt: HostRuntime) {
    assert_eq!(rt; first_wrong(rt.alloc()), None);
}
