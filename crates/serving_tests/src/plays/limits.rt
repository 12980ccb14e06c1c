//! Scripts at the limits: 64 writers, and 16 sites that tell each other all of 256 records.
use super::end_of;
use exit_status::Status;
use std::alloc::{AllocError, Global};
use test_streams::{Keeping, NEVER};
use text_parts::push_field;

// Whether the script is answered so.
fn is_answered(alloc: Global, toml: &str, script: &str, output: &str) -> bool {
    let mut writer = Keeping::new(alloc, NEVER);
    let ended = end_of(alloc, toml, None, false, script, &mut writer);
    ended == Some(Status::Done) && writer.bytes() == output.as_bytes()
}

// Adds a line that ends with a number.
fn push_line(text: &mut String, words: &str, n: u64) -> Result<(), AllocError> {
    push_field(text, words, n)?;
    text.push_str("\n")
}

// 64 writers are announced at a site, and then one more as soon as another withdraws.
fn many_writers(alloc: Global) -> Result<String, AllocError> {
    let mut script = String::new(alloc);
    for h in 1..=64u64 {
        push_line(&mut script, "1 announce a ", h)?;
    }
    script.push_str("1 announce a 65\n1 leave a 1\n1 announce a 65\n")?;
    Ok(script)
}

fn many_writers_output(alloc: Global) -> Result<String, AllocError> {
    let mut output = String::new(alloc);
    for h in 1..=64u64 {
        push_line(&mut output, "announced ", h)?;
    }
    output.push_str("refused TooManyWriters\nwithdrawn\nannounced 65\n")?;
    Ok(output)
}

#[test]
fn a_site_has_64_writers_and_no_more(rt: HostRuntime) {
    let toml = "sites = 2\n[[record]]\nname = \"a\"\nseats = 2\nhome = 0\nproblem = 1\n";
    let script = many_writers(rt.alloc()).expect(&rt, "memory");
    let output = many_writers_output(rt.alloc()).expect(&rt, "memory");
    assert!(rt; is_answered(rt.alloc(), toml, script.as_str(), output.as_str()));
}

// The layout of 16 sites and 256 records.
fn many_records(alloc: Global) -> Result<String, AllocError> {
    let mut toml = String::from_str(alloc, "sites = 16\n")?;
    for r in 0..256u64 {
        push_field(
            &mut toml,
            "[[record]]\nseats = 2\nproblem = 1\nhome = ",
            r % 16,
        )?;
        push_field(&mut toml, "\nname = \"r", r)?;
        toml.push_str("\"\n")?;
    }
    Ok(toml)
}

// One writer of a site for each record, and then the message of the site.
fn push_announcements(script: &mut String, site: u64) -> Result<(), AllocError> {
    for r in 0..256u64 {
        push_field(script, "", site)?;
        push_field(script, " announce r", r)?;
        push_line(script, " ", site)?;
    }
    push_field(script, "", site)?;
    script.push_str(" send\n")
}

fn push_announced(output: &mut String, site: u64) -> Result<(), AllocError> {
    for _ in 0..256 {
        output.push_str("announced 1\n")?;
    }
    push_line(output, "sent ", site)
}

// Each site announces a writer at each record and sends what it knows; site 0 takes all of it and sends it on.
fn whole_messages(alloc: Global) -> Result<String, AllocError> {
    let mut script = String::new(alloc);
    for site in 0..16u64 {
        push_announcements(&mut script, site)?;
    }
    for site in 0..16u64 {
        push_line(&mut script, "0 take ", site)?;
    }
    script.push_str("0 send\n15 take 16\n15 read r255 7\n")?;
    Ok(script)
}

fn whole_messages_output(alloc: Global) -> Result<String, AllocError> {
    let mut output = String::new(alloc);
    for site in 0..16u64 {
        push_announced(&mut output, site)?;
    }
    for site in 0..16u64 {
        push_line(&mut output, "merged ", if site == 0 { 0 } else { 256 })?;
    }
    output.push_str("sent 16\nmerged 3840\nadmitted\n")?;
    Ok(output)
}

#[test]
fn whole_messages_of_16_sites_and_256_records_are_taken(rt: HostRuntime) {
    let toml = many_records(rt.alloc()).expect(&rt, "memory");
    let script = whole_messages(rt.alloc()).expect(&rt, "memory");
    let output = whole_messages_output(rt.alloc()).expect(&rt, "memory");
    assert!(rt; is_answered(rt.alloc(), toml.as_str(), script.as_str(), output.as_str()));
}
