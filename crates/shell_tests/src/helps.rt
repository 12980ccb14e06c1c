//! What the whole program says of itself on a fake runtime: the help of each command, and the version.
use crate::programs::answers;
use std::alloc::Global;
use std::sync::Wait;
use std::thread::Threads;
use test_streams::texts::GAVE;

const HELP: &str = "\
Admits readers and writers to shared records at several sites, which exchange deltas

Usage: seat_cli [COMMAND]

Commands:
  join     Joins deltas, one a line, and prints one delta that has all of them
  play     Simulates several sites: carries out one event a line, and prints one reply a line
  site     Serves one site over its store: carries out one call a line, and prints one reply a line
  serve    Serves one site at once: answers each line before it waits for the next one
  ask      Makes one call at one site, and prints its reply
  regroup  Moves a site's store to the next generation of its group, and prints all that the site knows
  rebuild  Builds a site again that lost its store, of what the other sites know of it
  judge    Judges the closed logs of all sites, and prints where it looked and the verdict
  run      Runs several sites at the same time, with links between them, and judges their logs

Options:
  -h, --help     Print help
  -V, --version  Print version

Without arguments it is `join`. It reads standard input and writes standard output.

Exit status:
  0  every line was carried out, whatever the replies; or help or the version was printed
  1  the call of `ask` was refused
  2  the arguments are wrong, or `judge` was given no cut: `cut refused BadWord` on standard error
  3  there is no layout, or it has no such site: `layout refused NAME` on standard error
  4  a line can't be read, or `join`, `run` or `rebuild` refused it, or the input is refused: the output says which
  5  the store can't be used: `store refused NAME` on standard error; or it failed: a reply was `refused StoreFault`
  6  out of memory: `memory` on standard error
  7  reading or writing failed: `io` on standard error
  8  the log can't be used: `log refused NAME` on standard error

Examples:
  seat_cli ask --site 0 --store site_0.db --create read a 7
  cat site_0.deltas site_1.deltas | seat_cli join --layout three_sites.toml
  printf '0 give a 1 1\\n0 send\\n1 take 0\\n1 read a 8\\n' | seat_cli play --tables
  printf '0 read a 7\\n1 read a 8\\n' | seat_cli run --out sites.log
  seat_cli judge < sites.log
";

const JOIN_HELP: &str = "\
Joins deltas, one a line, and prints one delta that has all of them

Usage: seat_cli join [--layout FILE]

Options:
      --layout <FILE>  A TOML file with the sites and records [default: two sites, record a of two seats at site 0]
  -h, --help           Print help

Each line of the input is a delta, and so is the output:
  {\"from\":0,\"rows\":[{\"ann\":0,\"fin\":0,\"out\":[2,1],\"r\":0,\"s\":0,\"taken\":0}],\"v\":1}
Row (r, s) says what site s did at record r: `out` counts the seats that it began with or got back, at its own place,
and those that it gave to each other site; `taken` the seats that its callers took; `ann` and `fin` the writers that it
announced and finished. If a line is refused, the output is `line K refused NAME` alone, for the first such line.
";

const PLAY_HELP: &str = "\
Simulates several sites: carries out one event a line, and prints one reply a line

Usage: seat_cli play [--tables] [--from M] [--layout FILE]

Options:
      --tables         After a script that was read to its end, writes a table of seats and one of sessions
      --from <M>       The first M sites begin with the layout of M sites, the others with all [default: all sites]
      --layout <FILE>  A TOML file with the sites and records [default: two sites, record a of two seats at site 0]
  -h, --help           Print help

Each line of the input is an event, with one space between words:
  I read NAME H      at site I, holder H enters record NAME as a reader
  I announce NAME H  H announces that it will write
  I write NAME H     H, who has announced it, enters as the writer, who needs all seats
  I leave NAME H     H leaves, or withdraws its announcement
  I give NAME J N    site I gives N of its seats to site J
  I help NAME        site I gives seats to the site of an announced writer, or its surplus to the next site
  I send             site I makes a message of all that it knows; messages are numbered from 0
  I take K           site I merges message K; it may do so again
  I restart          site I stops, and starts again from what it has stored
  I grow             site I, which began with the first M sites, starts again with all
I and J are sites, from 0. H is a holder: any number up to 1,000,000,000,000. Numbers have no leading zero.
Each line gets one reply, as `admitted`, `sent 0` or `refused NoSeat 0`. A refused event changes nothing, and the script
goes on. The first line that can't be read ends it, with `line K refused BadWord` and status 4.

M is the number of sites, or a smaller one with every record's home among them; else `layout refused BadGrowth` and
status 3.

Example:
  printf '0 give a 1 1\\n0 send\\n1 take 0\\n1 read a 8\\n' | seat_cli play --tables
";

const SITE_HELP: &str = "\
Serves one site over its store: carries out one call a line, and prints one reply a line

Usage: seat_cli site --site I --store FILE [--layout FILE]

Options:
      --site <I>       The number of the site in the layout, from 0
      --store <FILE>   The file of the site's store
      --layout <FILE>  A TOML file with the sites and records [default: two sites, record a of two seats at site 0]
  -h, --help           Print help

Each line of the input is a call, with one space between words:
  read NAME H      holder H enters record NAME as a reader
  announce NAME H  H announces that it will write
  write NAME H     H, who has announced it, enters as the writer, who needs all seats
  leave NAME H     H leaves, or withdraws its announcement
  give NAME J N    the site gives N of its seats to site J
  help NAME        the site gives seats to the site of an announced writer, or its surplus to the next site
  send             the reply is a delta that has all that the site knows
  take DELTA       the site merges this delta, which is the rest of the line
J is a site, from 0. H is a holder: any number up to 1,000,000,000,000. Numbers have no leading zero.
Each line gets one reply, as `admitted` or `refused NoSeat 0`. A refused call changes nothing, and the script goes on.
The first line that can't be read ends it, with `line K refused BadWord` and status 4.

All input is read before the first line is carried out, and one run answers at most 65,536 calls.

FILE is an SQLite database, which is made if there is none: a mistyped path makes a new site. Each change is committed
before its reply is printed, and the next run goes on from there. A database that can't be used is refused with
`store refused NAME` and status 5: that of another site, or of a layout which the given one has not grown from; one with
other tables of these names; and, as `StoreFault`, one that can't be opened or is in use. While `site` runs, no other
process can use FILE, `sqlite3` included: another `site` is refused at once, and reads no input. If a change can't be
committed, the reply is `refused StoreFault`, that to each later call `refused Frozen`, and the status is 5.

Example:
  printf 'read a 7\\nleave a 7\\n' | seat_cli site --site 0 --store site_0.db
";

const SERVE_HELP: &str = "\
Serves one site at once: answers each line before it waits for the next one

Usage: seat_cli serve --site I --store FILE [--layout FILE] [--group NAME | --plain] [--create] [--grow] [--wait SECONDS] [--together N | --log FILE]

Options:
      --site <I>        The number of the site in the layout, from 0
      --store <FILE>    The file of the site's store
      --layout <FILE>   A TOML file with the sites and records [default: two sites, record a of two seats at site 0]
      --group <NAME>    The name of the group of sites that this site belongs to [default: none]
      --plain           Send and take deltas without a mark, as `site` does
      --create          Make the store, which must not be there yet
      --grow            Let the store know the layout's sites, where it was made for fewer
      --wait <SECONDS>  How many seconds to wait while another process has the store open, at most 65535 [default: 0]
      --log <FILE>      The file that the site's log is appended to
      --together <N>    How many calls that have come are committed together, from 1 to 256 [default: 1]
  -h, --help            Print help

Each line of the input is a call as `site` has them, or one of these:
  show NAME        the reply is `rights R inside I unfinished U`, from this site's own book
  sessions NAME    the reply is the number of sessions at record NAME, then `H PHASE` of each, in order of arrival
  fence NAME H     the reply is `fence N` while H is inside record NAME: a number that grows behind each writer
Each line gets one reply, which is printed before the service waits for another line. A change is committed before its
reply is printed. There is no limit on the number of lines: a program starts `serve` and keeps two pipes to it.

A caller may send further lines before it reads a reply. With --together, up to N lines that have come are carried out
one after the other, committed in one transaction, and then answered in their order. The service never waits for more of
them. If the transaction fails, the first line that changed something and all behind it are answered `refused
StoreFault`. A crash leaves each transaction whole, or nothing of it. Beside --log an N above 1 is refused:
`together refused Log` and status 2.

Unlike `site`, the service goes on behind a line that can't be read, whose reply is `refused BadWord K`: word K is the
first that can't stand there, is missing, or is one too many, counted from 1 by single blanks. It also goes on behind
one longer than any call, `refused TooLong`, and one for which memory ran out, `refused Memory`. A last line without LF
may be cut short: it is `refused BadWord`. A delta that would give the site more rights to a record than it has seats is
refused whole: `refused TooManySeats R`.

`send` prints a mark in front of the delta, and `take` wants one: the group's name, or `-`; 16 hexadecimal digits for the
layout's records; 8 for the delta's text; each with a blank behind it. So a text of another group, of a layout with
other records, or with a damaged byte is refused: `refused NoMark`, `WrongGroup`, `OtherRecords` or `Damaged`. With --plain
deltas have no mark, as those of `site`.

FILE is the store that `site` makes too. Without --create it must be there, else `store refused NoStore`; with --create
it must not be there, else `store refused Exists`. A database that this program did not make is `store refused
NotAStore`. While another process has it open, `store refused InUse`: with --wait it is tried again for so many seconds,
at most 65,535. A layout with more sites than the store knows needs --grow, else `store refused WrongLayout`. These end
with status 5.

The site freezes when a change can't be committed: that reply is `refused StoreFault`. It also freezes when a delta shows
that FILE is older than what other sites have seen of this one: that reply is `refused OwnRowAhead R`, and at the end
`store refused Outdated` is on standard error. Each later reply is `refused Frozen`. The end of the input then has
status 5, else 0.

With --group the site is one of a group of sites: NAME is kept in a store that is made, and a store of another group, or
of none, is refused with `store refused WrongGroup`. NAME has 1 to 32 bytes: a letter from a to z first, then such
letters, digits and `-`; no word that begins a reply, as `refused`. Behind these may stand the number of the group's
generation, as in `east.2`, which `regroup` gives.

With --log each call and its reply are appended to FILE before the call is committed, so that `judge` can read the logs
of all sites behind one another, even after a crash.

Example:
  printf 'read a 7\\nshow a\\nleave a 7\\n' | seat_cli serve --site 0 --store site_0.db --create
";

const ASK_HELP: &str = "\
Makes one call at one site, and prints its reply

Usage: seat_cli ask --site I --store FILE [--layout FILE] [--group NAME | --plain] [--create] [--grow] [--wait SECONDS] [--log FILE] WORD..

Arguments:
  <WORD>  The verb, as `read`
  [WORD]  The record, or the delta to take
  [WORD]  The holder, or the site to give to
  [WORD]  The number of seats to give

Options:
      --site <I>        The number of the site in the layout, from 0
      --store <FILE>    The file of the site's store
      --layout <FILE>   A TOML file with the sites and records [default: two sites, record a of two seats at site 0]
      --group <NAME>    The name of the group of sites that this site belongs to [default: none]
      --plain           Send and take deltas without a mark, as `site` does
      --create          Make the store, which must not be there yet
      --grow            Let the store know the layout's sites, where it was made for fewer
      --wait <SECONDS>  How many seconds to wait while another process has the store open, at most 65535 [default: 0]
      --log <FILE>      The file that the site's log is appended to
  -h, --help            Print help

The words are a call as `serve` reads it. The status is 0 if the call was carried out and 1 if it was refused, so that
`if seat_cli ask ..; then` works; it is 2 and above as for `serve`. The store is opened for this call alone.

Example:
  seat_cli ask --site 0 --store site_0.db --wait 5 read a 7
";

const REGROUP_HELP: &str = "\
Moves a site's store to the next generation of its group, and prints all that the site knows

Usage: seat_cli regroup --site I --store FILE [--layout FILE] --group NAME

Options:
      --site <I>       The number of the site in the layout, from 0
      --store <FILE>   The file of the site's store
      --layout <FILE>  A TOML file with the sites and records [default: two sites, record a of two seats at site 0]
      --group <NAME>   The name of the group that the store is in
  -h, --help           Print help

It is for a group in which another site lost its store. Each site that is left is moved: from group `east` to `east.2`,
from there to `east.3`, and so on. NAME is the group in which the store is. Nothing else in the store changes, so
counters and sessions stay. End the site before: while another process has FILE open, `store refused InUse`.

The output is one line, which `rebuild` reads: the site's delta, behind a mark that begins with the new name, as
`east.2:moved`. Keep it: it is printed once. A store that is moved already is `store refused WrongGroup`, one of no group
`store refused NoGroup`. No store is made: where none is, `store refused NoStore`. These end with status 5. If the output
can't be written, the status is 7, and the store is moved all the same.

Example:
  seat_cli regroup --site 0 --store site_0.db --group east > moved_0
";

const REBUILD_HELP: &str = "\
Builds a site again that lost its store, of what the other sites know of it

Usage: seat_cli rebuild --site I --store FILE [--layout FILE] --group NAME [--lost J ..]

Options:
      --site <I>       The number of the site in the layout, from 0
      --store <FILE>   The file of the site's store
      --layout <FILE>  A TOML file with the sites and records [default: two sites, record a of two seats at site 0]
      --group <NAME>   The name of the group's generation in which the site is built again, as east.2
      --lost <J>       Another site that lost its store; once for each
  -h, --help           Print help

The input has a line for each site that is left, as `regroup` printed it there. NAME is the group to which these sites
were moved, as `east.2`. If no other site lost its store, a line that a site sent in that group, by `send`, serves too.
If others did, name each of them by a --lost, and build all of them of the same lines.

The site gets the seats that nobody else has, and no session; its writers have finished. The output is what `show`
replies for each record, behind its name; with --lost then `texts DIGEST`, which is the same at all lost sites if their
lines are. If a line is refused, the output is `line K refused NAME` alone, for the first such line; if no site can be
built of the lines, it is `input refused NAME` alone. The status is 4 then.

FILE must have no store, else `store refused Exists` and status 5. It gets one if the status is 0. A site that is built
again begins with counters that no log shows, so it is served without --log.

Nothing finds out for certain that the lost store is served again, that callers of the lost site go on, or that a site
is built twice in one generation. Then a writer may not be alone: docs/OPERATING.md says what to make sure of.

Example:
  cat moved_0 moved_2 | seat_cli rebuild --site 1 --store site_1.db --group east.2
";

const JUDGE_HELP: &str = "\
Judges the closed logs of all sites, and prints where it looked and the verdict

Usage: seat_cli judge [--cut C] [--layout FILE] [--logs FILE ..]

Options:
      --cut <C>         How many calls of each site are looked at, as 8,6,0 [default: full]
      --layout <FILE>   A TOML file with the sites and records [default: two sites, record a of two seats at site 0]
      --logs <FILE>...  Files of closed logs, of any size, in place of the input; each begins with the line of an opening
  -h, --help            Print help

The input has the logs of all sites, one behind another. A log has a line for each time that the site was opened, with
what it had stored then, and behind it a line for each call, with its reply:
  {\"book\":\"DELTA\",\"sessions\":[\"NAME H PHASE\"],\"site\":I,\"sites\":N}
  {\"call\":\"read a 7\",\"pass\":0,\"reply\":\"admitted\"}
A site without a line has an empty log. The output is a table with a line for each site, and then the verdict, which is
the first of these that applies:
  bad cut               the cut has not a number for each site, or one above its number of calls; there is no table
  bad joint site I      site I was opened with something else than it had left
  bad reply site I at K the reply to call K of site I is not the one that the rules give
  exceeds site I at K record NAME origin J
                        call K of site I brought more of site J than site J had done within the cut
  consistent            none of these: at the cut, a writer inside a record was alone in it at all sites
The calls of a site are counted from 0. The status is 0, whatever the verdict. The first line that is none of a log ends
it, with `line K refused NotTranscript` and status 4.

With `--logs` the logs are read from files of any size, line by line, and no input is read. Each file begins with a line
of the first kind; the logs of a site stand in the order of the files. A refusal begins with the file: `FILE line K
refused NotTranscript`. Where it takes that to tell the verdict, the files are read twice. The status is 7 where one is
not read, with `FILE refused NotRead`, and where they changed meanwhile, with `logs refused Changed`.

C says how many calls of each site are looked at, with commas between the numbers, as `8,6,0`; or it is `full`: all.
Any other word is refused, with `cut refused BadWord` and status 2.

The command `run` judges the logs of its sites itself; with `--out FILE` it writes them, and `judge` reads them again.

Examples:
  seat_cli judge --logs site_*.log
  cat site_*.log | seat_cli judge
  seat_cli run --out sites.log < script.txt && seat_cli judge --cut 1,0 < sites.log
";

const RUN_HELP: &str = "\
Runs several sites at the same time, with links between them, and judges their logs

Usage: seat_cli run [--turns T] [--out FILE] [--layout FILE]

Options:
      --turns <T>      How many turns each link has, from 1 to 1000 [default: 100]
      --out <FILE>     A file for the logs of all sites, which `judge` reads
      --layout <FILE>  A TOML file with the sites and records [default: two sites, record a of two seats at site 0]
  -h, --help           Print help

Each line of the input is a call of one site, with one space between words:
  I read NAME H      at site I, holder H enters record NAME as a reader
  I announce NAME H  H announces that it will write
  I write NAME H     H, who has announced it, enters as the writer, who needs all seats
  I leave NAME H     H leaves, or withdraws its announcement
  I give NAME J N    site I gives N of its seats to site J
  I help NAME        site I gives seats to the site of an announced writer, or its surplus to the next site
I and J are sites, from 0. H is a holder: any number up to 1,000,000,000,000. Numbers have no leading zero.

The sites begin with nothing stored, and work at the same time. The calls of one site are made in the order of its lines.
Between each two sites are two links, one each way. At each turn of a link its first site helps at one record, as by
`help`, and sends all that it knows, which the other merges. So the replies depend on when a site is told what the
others did.

The output has the replies to the calls, as `0: admitted` or `1: refused NoSeat 0`, site by site, and those of one site
in the order of its lines; and then the verdict of `judge` on the logs of all sites. The status is 0, whatever these are.

A line that can't be read, as `0 send`, or one that names no site of the layout, or line 16,385 refuses the whole script,
and no site begins. The output is then `line K refused BadWord`, `NoSite` or `TooManyLines` alone, for the first such
line, and the status is 4.

FILE gets the logs of all sites, which `judge` reads; from 16 MiB on by `judge --logs FILE` alone. They are written to
FILE.part, which becomes FILE when it is whole: if the run fails, an older FILE stays as it was. A link, a
pipe or a device is written to directly. If FILE can't be written, the status is 7, and no input is read if that is
found at the start.

Example:
  printf '0 read a 7\\n1 read a 8\\n' | seat_cli run --out sites.log
  seat_cli judge --cut 1,0 < sites.log
";

// Arguments, and what goes to standard output.
static TOLD: [(&[&[u8]], &str); 22] = [
    (&[b"seat_cli", b"--help"], HELP),
    (&[b"seat_cli", b"-h"], HELP),
    (&[b"seat_cli", b"join", b"--help"], JOIN_HELP),
    (&[b"seat_cli", b"join", b"-h"], JOIN_HELP),
    (&[b"seat_cli", b"play", b"--help"], PLAY_HELP),
    (&[b"seat_cli", b"play", b"-h"], PLAY_HELP),
    (&[b"seat_cli", b"site", b"--help"], SITE_HELP),
    (&[b"seat_cli", b"site", b"-h"], SITE_HELP),
    (&[b"seat_cli", b"serve", b"--help"], SERVE_HELP),
    (&[b"seat_cli", b"serve", b"-h"], SERVE_HELP),
    (&[b"seat_cli", b"ask", b"--help"], ASK_HELP),
    (&[b"seat_cli", b"ask", b"-h"], ASK_HELP),
    (&[b"seat_cli", b"regroup", b"--help"], REGROUP_HELP),
    (&[b"seat_cli", b"regroup", b"-h"], REGROUP_HELP),
    (&[b"seat_cli", b"rebuild", b"--help"], REBUILD_HELP),
    (&[b"seat_cli", b"rebuild", b"-h"], REBUILD_HELP),
    (&[b"seat_cli", b"judge", b"--help"], JUDGE_HELP),
    (&[b"seat_cli", b"judge", b"-h"], JUDGE_HELP),
    (&[b"seat_cli", b"run", b"--help"], RUN_HELP),
    (&[b"seat_cli", b"run", b"-h"], RUN_HELP),
    (&[b"seat_cli", b"--version"], "seat_cli 0.1.0\n"),
    (&[b"seat_cli", b"-V"], "seat_cli 0.1.0\n"),
];

/// The first row that the program answers otherwise; it reads nothing.
fn wrongly_told<T: Threads + Wait + Sync>(threads: &T, alloc: Global) -> Option<usize> {
    let mut at = 0usize;
    for (arguments, output) in TOLD {
        if !answers(threads, alloc, arguments, GAVE, (0, output, "", "")) {
            return Some(at);
        }
        at = at.saturating_add(1);
    }
    None
}

#[test]
fn help_and_the_version_are_printed(rt: HostRuntime) {
    assert_eq!(rt; wrongly_told(&rt, rt.alloc()), None);
}
