//! What deltas build, by their texts.
use admission_core::SiteCore;
use delta_codec::{decode, encode};
use merge_core::{Delta, Layout, RecordName, RecordSpec};
use site_rebuild::{RebuildError, rebuilt_core};
use std::alloc::Global;

// Three sites share three seats of a record, whose home is site 0. It gave all of them to site 1, where a writer is
// announced; site 2 heard of nothing.
const HOME: &str =
    "{\"from\":0,\"rows\":[{\"ann\":0,\"fin\":0,\"out\":[4,3,0],\"r\":0,\"s\":0,\"taken\":1},{\"ann\":1,\"fin\":0,\"out\":[0,0,0],\"r\":0,\"s\":1,\"taken\":0}],\"v\":1}";

const SILENT: &str = "{\"from\":2,\"rows\":[],\"v\":1}";

// Site 1 gave three seats to site 2.
const HANDED_ON: &str =
    "{\"from\":2,\"rows\":[{\"ann\":0,\"fin\":0,\"out\":[0,0,3],\"r\":0,\"s\":1,\"taken\":0}],\"v\":1}";

// What a lost site tells once it is built again, or why it is not.
enum Wanted {
    Text(&'static str),
    Refusal(RebuildError),
}

// Sites of the layout, the site, the lost ones, the deltas, and what is wanted.
type Case = (u16, u16, &'static [u16], &'static [&'static str], Wanted);

static CASES: [Case; 31] = [
    // the writer that was announced is finished, and the seats that were sent to the site are its own
    (
        3,
        1,
        &[1],
        &[HOME, SILENT],
        Wanted::Text(
            "{\"from\":1,\"rows\":[{\"ann\":0,\"fin\":0,\"out\":[3,3,0],\"r\":0,\"s\":0,\"taken\":0},{\"ann\":1,\"fin\":1,\"out\":[0,0,0],\"r\":0,\"s\":1,\"taken\":0}],\"v\":1}",
        ),
    ),
    // in any order, and one twice
    (
        3,
        1,
        &[1],
        &[SILENT, HOME, SILENT],
        Wanted::Text(
            "{\"from\":1,\"rows\":[{\"ann\":0,\"fin\":0,\"out\":[3,3,0],\"r\":0,\"s\":0,\"taken\":0},{\"ann\":1,\"fin\":1,\"out\":[0,0,0],\"r\":0,\"s\":1,\"taken\":0}],\"v\":1}",
        ),
    ),
    // a site that is left, and one that is not there
    (
        3,
        0,
        &[1],
        &[HOME, SILENT],
        Wanted::Refusal(RebuildError::BadSite),
    ),
    (
        3,
        3,
        &[3],
        &[HOME, SILENT],
        Wanted::Refusal(RebuildError::BadSite),
    ),
    // no delta of a site, the first one
    (
        3,
        1,
        &[1],
        &[HOME],
        Wanted::Refusal(RebuildError::NoDelta { site: 2 }),
    ),
    (
        3,
        1,
        &[1],
        &[SILENT],
        Wanted::Refusal(RebuildError::NoDelta { site: 0 }),
    ),
    (
        3,
        1,
        &[1],
        &[],
        Wanted::Refusal(RebuildError::NoDelta { site: 0 }),
    ),
    // a delta of another layout, or with a row that no site has
    (
        3,
        1,
        &[1],
        &[
            HOME,
            "{\"from\":2,\"rows\":[{\"ann\":0,\"fin\":0,\"out\":[0,0,1,0],\"r\":0,\"s\":2,\"taken\":0}],\"v\":1}",
        ],
        Wanted::Refusal(RebuildError::BadDelta { index: 1 }),
    ),
    (
        3,
        1,
        &[1],
        &[
            "{\"from\":0,\"rows\":[{\"ann\":0,\"fin\":1,\"out\":[3,0,0],\"r\":0,\"s\":0,\"taken\":0}],\"v\":1}",
            SILENT,
        ],
        Wanted::Refusal(RebuildError::BadDelta { index: 0 }),
    ),
    // the site took a seat, gave one back, or gave one that its receiver does not tell of
    (
        3,
        1,
        &[1],
        &[
            HOME,
            "{\"from\":2,\"rows\":[{\"ann\":0,\"fin\":0,\"out\":[0,0,0],\"r\":0,\"s\":1,\"taken\":1}],\"v\":1}",
        ],
        Wanted::Refusal(RebuildError::Acted),
    ),
    (
        3,
        1,
        &[1],
        &[
            HOME,
            "{\"from\":2,\"rows\":[{\"ann\":0,\"fin\":0,\"out\":[0,1,0],\"r\":0,\"s\":1,\"taken\":1}],\"v\":1}",
        ],
        Wanted::Refusal(RebuildError::Acted),
    ),
    (
        3,
        1,
        &[1],
        &[
            "{\"from\":0,\"rows\":[{\"ann\":0,\"fin\":0,\"out\":[3,3,0],\"r\":0,\"s\":0,\"taken\":0},{\"ann\":0,\"fin\":0,\"out\":[0,0,1],\"r\":0,\"s\":1,\"taken\":0}],\"v\":1}",
            SILENT,
        ],
        Wanted::Refusal(RebuildError::Acted),
    ),
    // one that it gave comes of those that it had
    (
        3,
        1,
        &[1],
        &[
            "{\"from\":0,\"rows\":[{\"ann\":0,\"fin\":0,\"out\":[3,3,0],\"r\":0,\"s\":0,\"taken\":0}],\"v\":1}",
            "{\"from\":2,\"rows\":[{\"ann\":0,\"fin\":0,\"out\":[0,0,1],\"r\":0,\"s\":1,\"taken\":0}],\"v\":1}",
        ],
        Wanted::Text(
            "{\"from\":1,\"rows\":[{\"ann\":0,\"fin\":0,\"out\":[3,3,0],\"r\":0,\"s\":0,\"taken\":0},{\"ann\":0,\"fin\":0,\"out\":[0,0,1],\"r\":0,\"s\":1,\"taken\":0}],\"v\":1}",
        ),
    ),
    // it gave more than it had
    (
        3,
        1,
        &[1],
        &["{\"from\":0,\"rows\":[],\"v\":1}", HANDED_ON],
        Wanted::Refusal(RebuildError::Apart),
    ),
    // two are lost: what site 1 gave, site 0 had given to it
    (
        3,
        0,
        &[0, 1],
        &[HANDED_ON],
        Wanted::Text(
            "{\"from\":0,\"rows\":[{\"ann\":0,\"fin\":0,\"out\":[3,3,0],\"r\":0,\"s\":0,\"taken\":0}],\"v\":1}",
        ),
    ),
    (
        3,
        1,
        &[1, 0],
        &[HANDED_ON],
        Wanted::Text(
            "{\"from\":1,\"rows\":[{\"ann\":0,\"fin\":0,\"out\":[3,3,0],\"r\":0,\"s\":0,\"taken\":0},{\"ann\":0,\"fin\":0,\"out\":[0,0,3],\"r\":0,\"s\":1,\"taken\":0}],\"v\":1}",
        ),
    ),
    // together they had fewer than were given: the one that gave them is refused
    (
        3,
        1,
        &[0, 1],
        &[
            "{\"from\":2,\"rows\":[{\"ann\":0,\"fin\":0,\"out\":[0,0,4],\"r\":0,\"s\":1,\"taken\":0}],\"v\":1}",
        ],
        Wanted::Refusal(RebuildError::Apart),
    ),
    (
        3,
        0,
        &[0, 1],
        &[
            "{\"from\":2,\"rows\":[{\"ann\":0,\"fin\":0,\"out\":[0,0,4],\"r\":0,\"s\":1,\"taken\":0}],\"v\":1}",
        ],
        Wanted::Text(
            "{\"from\":0,\"rows\":[{\"ann\":0,\"fin\":0,\"out\":[3,3,0],\"r\":0,\"s\":0,\"taken\":0}],\"v\":1}",
        ),
    ),
    // all are lost: each begins as at the start
    (
        3,
        0,
        &[0, 1, 2],
        &[],
        Wanted::Text("{\"from\":0,\"rows\":[],\"v\":1}"),
    ),
    // a lost site lacks more seats than a counter holds; the most that one holds may be told
    (
        4,
        1,
        &[0, 1],
        &[
            "{\"from\":2,\"rows\":[{\"ann\":0,\"fin\":0,\"out\":[0,0,1000000000000,0],\"r\":0,\"s\":1,\"taken\":0}],\"v\":1}",
            "{\"from\":3,\"rows\":[{\"ann\":0,\"fin\":0,\"out\":[0,0,0,1],\"r\":0,\"s\":1,\"taken\":0}],\"v\":1}",
        ],
        Wanted::Refusal(RebuildError::CounterFull),
    ),
    (
        4,
        1,
        &[0, 1],
        &[
            "{\"from\":2,\"rows\":[{\"ann\":0,\"fin\":0,\"out\":[0,0,1000000000000,0],\"r\":0,\"s\":1,\"taken\":0}],\"v\":1}",
            "{\"from\":3,\"rows\":[],\"v\":1}",
        ],
        Wanted::Refusal(RebuildError::Apart),
    ),
    // a lost site that is not there, and one that is named twice
    (
        3,
        1,
        &[1, 7],
        &[HOME, SILENT],
        Wanted::Refusal(RebuildError::BadSite),
    ),
    (
        3,
        1,
        &[1, 1],
        &[HOME, SILENT],
        Wanted::Text(
            "{\"from\":1,\"rows\":[{\"ann\":0,\"fin\":0,\"out\":[3,3,0],\"r\":0,\"s\":0,\"taken\":0},{\"ann\":1,\"fin\":1,\"out\":[0,0,0],\"r\":0,\"s\":1,\"taken\":0}],\"v\":1}",
        ),
    ),
    // a delta of a site that is not there; one of the lost site, and one of another lost site
    (
        3,
        1,
        &[1],
        &[HOME, SILENT, "{\"from\":7,\"rows\":[],\"v\":1}"],
        Wanted::Refusal(RebuildError::BadDelta { index: 2 }),
    ),
    (
        3,
        1,
        &[1],
        &[HOME, SILENT, "{\"from\":1,\"rows\":[],\"v\":1}"],
        Wanted::Refusal(RebuildError::Acted),
    ),
    (
        3,
        0,
        &[0, 1],
        &[HANDED_ON, "{\"from\":1,\"rows\":[],\"v\":1}"],
        Wanted::Refusal(RebuildError::Acted),
    ),
    // what it gave to a lost site is more than is settled, or just that
    (
        3,
        0,
        &[0, 1],
        &[
            "{\"from\":2,\"rows\":[{\"ann\":0,\"fin\":0,\"out\":[3,4,0],\"r\":0,\"s\":0,\"taken\":0},{\"ann\":0,\"fin\":0,\"out\":[0,0,3],\"r\":0,\"s\":1,\"taken\":0}],\"v\":1}",
        ],
        Wanted::Refusal(RebuildError::Acted),
    ),
    (
        3,
        0,
        &[0, 1],
        &[
            "{\"from\":2,\"rows\":[{\"ann\":0,\"fin\":0,\"out\":[3,3,0],\"r\":0,\"s\":0,\"taken\":0},{\"ann\":0,\"fin\":0,\"out\":[0,0,3],\"r\":0,\"s\":1,\"taken\":0}],\"v\":1}",
        ],
        Wanted::Text(
            "{\"from\":0,\"rows\":[{\"ann\":0,\"fin\":0,\"out\":[3,3,0],\"r\":0,\"s\":0,\"taken\":0}],\"v\":1}",
        ),
    ),
    // site 1 lacks three seats: the first two are those of site 0, the third is that of site 2
    (
        4,
        2,
        &[0, 1, 2],
        &[
            "{\"from\":3,\"rows\":[{\"ann\":0,\"fin\":0,\"out\":[3,0,0,1],\"r\":0,\"s\":0,\"taken\":0},\
             {\"ann\":0,\"fin\":0,\"out\":[0,0,0,3],\"r\":0,\"s\":1,\"taken\":0},\
             {\"ann\":0,\"fin\":0,\"out\":[0,0,1,0],\"r\":0,\"s\":3,\"taken\":0}],\"v\":1}",
        ],
        Wanted::Text(
            "{\"from\":2,\"rows\":[{\"ann\":0,\"fin\":0,\"out\":[0,1,0,0],\"r\":0,\"s\":2,\"taken\":0},{\"ann\":0,\"fin\":0,\"out\":[0,0,1,0],\"r\":0,\"s\":3,\"taken\":0}],\"v\":1}",
        ),
    ),
    (
        4,
        0,
        &[0, 1, 2],
        &[
            "{\"from\":3,\"rows\":[{\"ann\":0,\"fin\":0,\"out\":[3,0,0,1],\"r\":0,\"s\":0,\"taken\":0},\
             {\"ann\":0,\"fin\":0,\"out\":[0,0,0,3],\"r\":0,\"s\":1,\"taken\":0},\
             {\"ann\":0,\"fin\":0,\"out\":[0,0,1,0],\"r\":0,\"s\":3,\"taken\":0}],\"v\":1}",
        ],
        Wanted::Text(
            "{\"from\":0,\"rows\":[{\"ann\":0,\"fin\":0,\"out\":[3,2,0,1],\"r\":0,\"s\":0,\"taken\":0}],\"v\":1}",
        ),
    ),
    // the home of the second record
    (
        3,
        1,
        &[1],
        &[
            "{\"from\":0,\"rows\":[{\"ann\":0,\"fin\":0,\"out\":[1,2,0],\"r\":1,\"s\":1,\"taken\":0}],\"v\":1}",
            SILENT,
        ],
        Wanted::Text(
            "{\"from\":1,\"rows\":[{\"ann\":0,\"fin\":0,\"out\":[1,2,0],\"r\":1,\"s\":1,\"taken\":0}],\"v\":1}",
        ),
    ),
];

// Name, seats, home and problem of two records.
static RECORDS: [(&str, u32, u16, u16); 2] = [("a", 3, 0, 2), ("b", 2, 1, 1)];

// So many sites, and these records.
fn layout_of(alloc: Global, sites: u16) -> Option<Layout> {
    let mut records = Vec::new(alloc);
    for (name, seats, home, problem) in &RECORDS {
        let name = RecordName::from_string(String::from_str(alloc, *name).ok()?);
        records
            .push(RecordSpec {
                name,
                seats: *seats,
                home: *home,
                problem: *problem,
            })
            .ok()?;
    }
    Layout::new(sites, records).ok()
}

// The deltas of texts.
fn deltas_of(alloc: Global, texts: &[&str]) -> Option<Vec<Delta>> {
    let mut deltas = Vec::new(alloc);
    for text in texts {
        deltas.push(decode(alloc, text.as_bytes()).ok()?).ok()?;
    }
    Some(deltas)
}

// Whether the site tells this.
fn tells(alloc: Global, core: &SiteCore, text: &str) -> Option<bool> {
    let told = core.snapshot().ok()?;
    Some(encode(alloc, &told).ok()?.as_str() == text)
}

// Whether what is built is what is wanted, if there was memory enough.
fn is_as_wanted(alloc: Global, case: &Case) -> Option<bool> {
    let (sites, site, lost, texts, wanted) = case;
    let deltas = deltas_of(alloc, *texts)?;
    let built = rebuilt_core(alloc, layout_of(alloc, *sites)?, *site, *lost, &deltas);
    match (built, wanted) {
        (Ok(core), Wanted::Text(text)) => tells(alloc, &core, *text),
        (Err(RebuildError::Memory), _) => None,
        (Err(refusal), Wanted::Refusal(why)) => Some(refusal == *why),
        _ => Some(false),
    }
}

// The first case of the table that is answered otherwise, if there was memory enough.
fn first_wrong_case(alloc: Global) -> Option<Option<usize>> {
    for (k, case) in CASES.iter().enumerate() {
        if !is_as_wanted(alloc, case)? {
            return Some(Some(k));
        }
    }
    Some(None)
}

#[test]
fn each_case_is_built_or_refused(rt: HostRuntime) {
    let wrong = first_wrong_case(rt.alloc());
    assert!(rt; wrong == Some(None), "{wrong:?}");
}

// With each allocation refused in turn (checks/refused_growths.sh): nothing but want of memory comes of it.
#[test]
fn refused_growths_build_nothing_else(rt: HostRuntime) {
    let wrong = first_wrong_case(rt.alloc());
    assert!(rt; wrong.is_none() || wrong == Some(None), "{wrong:?}");
}
