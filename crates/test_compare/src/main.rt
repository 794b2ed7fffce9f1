// Runs the planner on sheets from standard input and prints every answer, to be compared with the reference planner's.
//
// For each sheet the input holds: two bytes of length, the sheet; two bytes, the length of the list that is lent for the records that clash; two bytes, the length of the table that is lent for its plan;
// a byte, the number of lists, and the lists.
// A list is a byte that says whether waits are allowed (1), two bytes, the number of its entries, two bytes, the length of the list that is lent for the start times, and the entries, four bytes each.
// Numbers have the low byte first. Lent numbers are 4,294,967,294, which no answer holds.
#![tactic(auto)]

use definitions::{Refusal, UNDECIDED, Verdict};
use std::io;
use std::io::{Read, Write};

// What lent numbers hold before a call.
const LENT: u32 = UNDECIDED - 1;

// The next byte of the input, or 0 at its end.
fn read_byte<R: Read>(input: &mut R) -> io::Result<u8> {
    let mut bytes = [0; 1];
    print_console::read_full(input, &mut bytes)?;
    Ok(bytes[0])
}

// The next two bytes of the input, as a number, or none at its end.
fn read_number<R: Read>(input: &mut R) -> io::Result<Option<usize>> {
    let mut bytes = [0; 2];
    let got = print_console::read_full(input, &mut bytes)?;
    if got < 2 {
        return Ok(None);
    }
    Ok(Some(usize::from(u16::from_le_bytes(bytes))))
}

// The next four bytes of the input, as a number.
fn read_entry<R: Read>(input: &mut R) -> io::Result<u32> {
    let mut bytes = [0; 4];
    print_console::read_full(input, &mut bytes)?;
    Ok(u32::from_le_bytes(bytes))
}

fn read_entries<R: Read>(input: &mut R, list: &mut [u32]) -> io::Result<()> {
    for x in list.iter_mut() {
        *x = read_entry(input)?;
    }
    Ok(())
}

// A line of a word and a verdict, by its number.
fn write_verdict<W: Write>(out: &mut W, word: &[u8], verdict: Verdict) -> io::Result<()> {
    print_console::write(out, word)?;
    print_console::write_code(out, data_numbers::verdict_code(verdict))?;
    print_console::write(out, b"\n")
}

// How often x stands among numbers.
fn occurrences(x: u32, numbers: &[u32]) -> u64 {
    numbers.iter().filter(|y| **y == x).count() as u64
}

// A place and its number, but for 4,294,967,295 and the number that was lent.
fn write_place<W: Write>(out: &mut W, i: usize, x: u32) -> io::Result<()> {
    if x < LENT {
        print_console::write_number(out, i as u64)?;
        print_console::write_number(out, u64::from(x))?;
    }
    Ok(())
}

fn write_places<W: Write>(out: &mut W, numbers: &[u32]) -> io::Result<()> {
    for (i, &x) in numbers.iter().enumerate() {
        write_place(out, i, x)?;
    }
    Ok(())
}

// Lent numbers after a call: each place that holds an answer, how many places hold 4,294,967,295, and how many are as they were lent.
fn write_numbers<W: Write>(out: &mut W, numbers: &[u32]) -> io::Result<()> {
    print_console::write(out, b"numbers")?;
    write_places(out, numbers)?;
    print_console::write(out, b" undecided")?;
    print_console::write_number(out, occurrences(UNDECIDED, numbers))?;
    print_console::write(out, b" lent")?;
    print_console::write_number(out, occurrences(LENT, numbers))?;
    print_console::write(out, b"\n")
}

// A map of waits, where it is not empty.
fn write_map<W: Write>(out: &mut W, i: usize, map: u64) -> io::Result<()> {
    if 0 < map {
        print_console::write(out, b"map")?;
        print_console::write_number(out, i as u64)?;
        print_console::write_number(out, map)?;
        print_console::write(out, b"\n")?;
    }
    Ok(())
}

fn write_maps<W: Write>(out: &mut W, maps: &[u64; 64]) -> io::Result<()> {
    for (i, &map) in maps.iter().enumerate() {
        write_map(out, i, map)?;
    }
    Ok(())
}

// What listing waits hands back.
fn write_waits<W: Write>(out: &mut W, s: &[u8]) -> io::Result<()> {
    let listed = judge_sheet::waits(s);
    print_console::write(out, b"waits")?;
    print_console::write_code(out, data_numbers::verdict_code(listed.verdict))?;
    print_console::write_number(out, u64::from(listed.count))?;
    print_console::write(out, b"\n")?;
    write_maps(out, &listed.maps)
}

// How many records clash, or the refusal.
fn write_tally<W: Write>(out: &mut W, tally: Result<usize, Refusal>) -> io::Result<()> {
    print_console::write(out, b"clash")?;
    match tally {
        Ok(k) => print_console::write_number(out, k as u64)?,
        Err(_) => print_console::write_code(out, data_numbers::tally_code(tally))?,
    }
    print_console::write(out, b"\n")
}

// The records that clash, into the list that is lent.
fn write_clashes_into<W: Write>(out: &mut W, s: &[u8], list: &mut [u32]) -> io::Result<()> {
    write_tally(out, clash_sheet::clashes(s, list))?;
    write_numbers(out, list)
}

// The same, into as many of 600 numbers as the input says.
fn write_clashes<R: Read, W: Write>(input: &mut R, out: &mut W, s: &[u8]) -> io::Result<()> {
    let mut list = [LENT; 600];
    match read_number(input)? {
        Some(length) if length <= 600 => write_clashes_into(out, s, &mut list[..length]),
        _ => Ok(()),
    }
}

fn write_judgements<W: Write>(out: &mut W, s: &[u8]) -> io::Result<()> {
    write_verdict(out, b"judge 0", judge_sheet::judge(s, false))?;
    write_verdict(out, b"judge 1", judge_sheet::judge(s, true))
}

// Row v of a table for n steps, asked for: what the companion call says, and the part that is handed back.
fn write_row<W: Write>(out: &mut W, table: &[u32], n: usize, v: usize) -> io::Result<()> {
    print_console::write(out, b"row")?;
    print_console::write_number(out, v as u64)?;
    print_console::write_code(
        out,
        data_numbers::status_code(plan_rows::row_status(table, n, v)),
    )?;
    print_console::write(out, b"\n")?;
    write_numbers(out, plan_rows::row(table, n, v))
}

// A row in the middle, the last one, and the one past it. Refusals: 2 where n is no step count, 5, and 14 where the table is too short.
fn write_rows<W: Write>(out: &mut W, table: &[u32], n: usize) -> io::Result<()> {
    write_row(out, table, n, n / 2)?;
    if 0 < n {
        write_row(out, table, n, n - 1)?;
    }
    write_row(out, table, n, n)
}

// The first byte of a sheet, its step count; 0 where there is none.
fn first_byte(s: &[u8]) -> usize {
    s.first().map_or(0, |b| usize::from(*b))
}

// The plan, into the table that is lent, and rows of it.
fn write_plan_into<W: Write>(out: &mut W, s: &[u8], table: &mut [u32]) -> io::Result<()> {
    write_verdict(out, b"plan", plan_sheet::plan(s, true, table))?;
    write_numbers(out, table)?;
    write_rows(out, table, first_byte(s))
}

// The same, into as many of 4,096 numbers as the input says.
fn write_plan<R: Read, W: Write>(input: &mut R, out: &mut W, s: &[u8]) -> io::Result<()> {
    let mut table = [LENT; 4096];
    match read_number(input)? {
        Some(length) if length <= 4096 => write_plan_into(out, s, &mut table[..length]),
        _ => Ok(()),
    }
}

// The start times for the list that the input has next, into the list that is lent for them.
fn write_starts_into<R: Read, W: Write>(
    input: &mut R,
    out: &mut W,
    s: &[u8],
    allow: bool,
    list: &mut [u32],
    times: &mut [u32],
) -> io::Result<()> {
    read_entries(input, list)?;
    write_verdict(out, b"starts", plan_times::starts(s, allow, list, times))?;
    write_numbers(out, times)
}

// The same, for as many entries and into as many numbers as the input says.
fn write_starts<R: Read, W: Write>(input: &mut R, out: &mut W, s: &[u8]) -> io::Result<()> {
    let mut list = [0; 128];
    let mut times = [LENT; 128];
    let allow = read_byte(input)? == 1;
    let entries = read_number(input)?;
    let length = read_number(input)?;
    match (entries, length) {
        (Some(n), Some(k)) if n <= 128 && k <= 128 => {
            write_starts_into(input, out, s, allow, &mut list[..n], &mut times[..k])
        }
        _ => Ok(()),
    }
}

fn write_lists<R: Read, W: Write>(input: &mut R, out: &mut W, s: &[u8]) -> io::Result<()> {
    let lists = read_byte(input)?;
    for _ in 0..lists {
        write_starts(input, out, s)?;
    }
    Ok(())
}

// The answers for a sheet.
fn write_answers<R: Read, W: Write>(input: &mut R, out: &mut W, s: &[u8]) -> io::Result<()> {
    print_console::write(out, b"sheet")?;
    print_console::write_number(out, s.len() as u64)?;
    print_console::write(out, b"\n")?;
    write_judgements(out, s)?;
    write_waits(out, s)?;
    write_clashes(input, out, s)?;
    write_plan(input, out, s)?;
    write_lists(input, out, s)
}

// Reads a sheet into the bytes that are lent, and writes the answers for it.
fn write_sheet_into<R: Read, W: Write>(
    input: &mut R,
    out: &mut W,
    bytes: &mut [u8],
) -> io::Result<()> {
    let got = print_console::read_full(input, bytes)?;
    if got == bytes.len() {
        write_answers(input, out, bytes)?;
    }
    Ok(())
}

fn write_sheet<R: Read, W: Write>(input: &mut R, out: &mut W, size: usize) -> io::Result<()> {
    let mut bytes = [0; 8192];
    if size <= 8192 {
        write_sheet_into(input, out, &mut bytes[..size])?;
    }
    Ok(())
}

// Sheets to the end of the input. Nothing says that an input ends, so the loop takes a number of turns that no run uses up.
fn main(rt: HostRuntime) -> io::Result<()> {
    let mut input = rt.stdin();
    let mut out = rt.stdout();
    for _ in 0..u64::MAX {
        match read_number(&mut input)? {
            Some(size) if size <= 8192 => write_sheet(&mut input, &mut out, size)?,
            _ => return Ok(()),
        }
    }
    Ok(())
}
