//! Lines that are refused, each with its number and before a site is opened.
use crate::runs::ends;
use exit_status::Status;
use test_streams::texts::TWO_SITES;

// A script, and what is written of it.
static REFUSED: [(&str, &str); 14] = [
    ("0 send\n", "line 1 refused BadWord\n"),
    ("0 read a 1\n1 take 0\n", "line 2 refused BadWord\n"),
    ("0 restart\n", "line 1 refused BadWord\n"),
    ("0 grow\n", "line 1 refused BadWord\n"),
    ("\n", "line 1 refused BadWord\n"),
    ("0 read a 1\n\n0 read a 2\n", "line 2 refused BadWord\n"),
    ("0 read a 1\r\n", "line 1 refused BadWord\n"),
    ("read a 1\n", "line 1 refused BadWord\n"),
    ("65536 read a 1\n", "line 1 refused BadWord\n"),
    ("65535 read a 1\n", "line 1 refused NoSite\n"),
    ("1 read a 1\n2 read a 1\n", "line 2 refused NoSite\n"),
    ("2 send\n", "line 1 refused BadWord\n"),
    ("2 read a 1\n0 send\n", "line 1 refused NoSite\n"),
    (
        "0 read a 1\n0 read a 1\n0 send\n2 help a",
        "line 3 refused BadWord\n",
    ),
];

#[test]
fn the_first_refused_line_refuses_the_script(rt: HostRuntime) {
    for (script, output) in &REFUSED {
        let story = (TWO_SITES, 1, *script, Status::Refused, *output);
        assert!(rt; ends(&rt, rt.alloc(), &story), "{output}");
    }
}
