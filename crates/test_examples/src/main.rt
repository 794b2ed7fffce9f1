// Runs the examples of document 01 that are not proved, but the run, and compares: the limits on N, on R and on durations.
#![tactic(auto)]

use definitions::{Acceptance, Refusal, Verdict};
use std::io;
use std::io::Write;

// The line of an example: its name, its number, what was answered, and whether document 01 says so.
fn write_example<W: Write>(
    out: &mut W,
    name: &[u8],
    number: u64,
    answer: Verdict,
    expected: Verdict,
) -> io::Result<()> {
    print_console::write(out, name)?;
    print_console::write_number(out, number)?;
    print_console::write_code(out, data_numbers::verdict_code(answer))?;
    if answer == expected {
        print_console::write(out, b" as expected\n")
    } else {
        print_console::write(out, b" DIFFERS\n")
    }
}

// ---- sheets

// A byte of a sheet.
fn put(b: u8, s: &mut [u8], at: usize) -> usize {
    if at < s.len() {
        s[at] = b;
        return at + 1;
    }
    at
}

// N and R, the latter by its two bytes.
fn put_counts(n: u8, low: u8, high: u8, s: &mut [u8]) -> usize {
    let p = put(n, s, 0);
    let q = put(low, s, p);
    put(high, s, q)
}

// Step 0, and steps of duration 0 up to the one before n.
fn put_steps(n: u8, s: &mut [u8], at: usize) -> usize {
    let mut p = put(1, s, at);
    for _ in 1..n {
        p = put(0, s, p);
    }
    p
}

// An after link.
fn put_link(i: u8, j: u8, s: &mut [u8], at: usize) -> usize {
    let p = put(1, s, at);
    let q = put(i, s, p);
    put(j, s, q)
}

// After links from step i to each step from `first` to the one before n.
fn put_links(i: u8, first: u8, n: u8, s: &mut [u8], at: usize) -> usize {
    let mut p = at;
    for j in first..n {
        p = put_link(i, j, s, p);
    }
    p
}

// After links from every step below n to each later one, in the order of their pairs.
fn put_all_links(n: u8, s: &mut [u8], at: usize) -> usize {
    let mut p = at;
    for i in 0..n {
        p = put_links(i, i + 1, n, s, p);
    }
    p
}

// Judges the first `size` bytes, or all where there are fewer.
fn judge(s: &[u8], size: usize) -> Verdict {
    judge_sheet::judge(&s[..size.min(s.len())], false)
}

// A sheet of n steps, each after step 0.
fn judge_steps(n: u8) -> Verdict {
    let mut s = [0u8; 4096];
    let p = put_counts(n, 63, 0, &mut s);
    let q = put_steps(n, &mut s, p);
    let size = put_links(0, 1, n, &mut s, q);
    judge(&s, size)
}

// A sheet of 33 steps and as many after links as the two bytes say. It has `size` bytes; links for more pairs follow.
fn judge_links(low: u8, high: u8, size: usize) -> Verdict {
    let mut s = [0u8; 4096];
    let p = put_counts(33, low, high, &mut s);
    let q = put_steps(33, &mut s, p);
    put_all_links(33, &mut s, q);
    judge(&s, size)
}

// Start times of an open step after step 0, for a duration of the former.
fn starts(duration: u32) -> Verdict {
    let list = [0, duration];
    let mut times = [0u32; 2];
    plan_times::starts(
        b"\x02\x01\x00\x01\x01\x01\x00\x01",
        false,
        &list,
        &mut times,
    )
}

// ---- the examples

fn main(rt: HostRuntime) -> io::Result<()> {
    let mut out = rt.stdout();
    let sound = Ok(Acceptance::WellPosed);
    write_example(&mut out, b"N", 64, judge_steps(64), sound)?;
    write_example(
        &mut out,
        b"N",
        65,
        judge_steps(65),
        Err(Refusal::OperationCount),
    )?;
    write_example(&mut out, b"R", 512, judge_links(0, 2, 1572), sound)?;
    write_example(
        &mut out,
        b"R",
        513,
        judge_links(1, 2, 1575),
        Err(Refusal::LinkCount),
    )?;
    write_example(&mut out, b"duration", 16777215, starts(16777215), sound)?;
    write_example(
        &mut out,
        b"duration",
        16777216,
        starts(16777216),
        Err(Refusal::BadDelays),
    )
}
