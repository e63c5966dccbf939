// Runs classify on the table that document 01 prints, with an echo request of TTL 1: allowances, damaged tables,
// numbers of states that do not fit, sets in both halves, frames at the length limit. Prints how each walk ended and its numbers.
#![tactic(auto)]

ghost use Rattle.std.specs.Prelude.{◌≤◌, length};

use matcher::Walk;
use std::{fmt, io};

// The table that document 01 prints.
const ECHO: [u32; 110] = [
    1, 11, 255, 8, 1, 4, 8, 0, 0, 0, 0, 1, 4, 255, 1, 2, 3, 3, 1, 0, 2, 0, 0, 0, 0, 0, 0, 0, 0, 5,
    0, 2, 0, 0, 0, 0, 0, 0, 0, 0, 1, 0, 6, 0, 1, 11, 255, 0, 5, 8, 8, 0, 0, 1, 0, 1, 4, 255, 1, 6,
    7, 7, 0, 0, 1, 0, 0, 0, 0, 0, 0, 0, 0, 6, 0, 1, 0, 0, 0, 0, 0, 0, 0, 0, 0, 0, 7, 0, 1, 4, 255,
    1, 9, 7, 7, 0, 0, 3, 0, 0, 0, 0, 0, 0, 0, 0, 4, 0, 3, 0,
];

// Three values of the time to live in a row: 9, 8, 1.
const LIVES: [u32; 77] = [
    1, 4, 255, 9, 1, 2, 2, 0, 0, 0, 0, 0, 0, 0, 0, 0, 0, 0, 1, 0, 6, 0, 1, 4, 255, 8, 3, 4, 4, 0,
    0, 1, 0, 0, 0, 0, 0, 0, 0, 0, 2, 0, 5, 0, 1, 4, 255, 1, 5, 6, 6, 0, 0, 3, 0, 0, 0, 0, 0, 0, 0,
    0, 4, 0, 3, 0, 0, 0, 0, 0, 0, 0, 0, 0, 0, 7, 0,
];

// Prints a label, how the walk of a frame ended and its numbers.
fn run<L: fmt::Display + Drop>(
    rt: &impl Print,
    label: L,
    frame: &[u8],
    table: &[u32],
    states: u32,
    allowance: u32,
) -> io::Result<()> {
    let (end, found) = match matcher::classify(frame, 3, table, states, allowance) {
        Ok(Walk::Done(found)) => ("done", found),
        Ok(Walk::Stopped(found)) => ("stopped", found),
        Err(refusal) => return println!(rt; "{label}: refused {}", refusal.number()),
    };
    let cut = u8::from(found.cut);
    println!(rt;
        "{label}: {end} {} {} {} {cut}",
        found.sure, found.out, found.asked
    )
}

// An echo request with TTL 1 at the start of the bytes: IPv4, header of 20 bytes, 28 bytes in all, ICMP, type 8.
fn put_echo(frame: &mut [u8])
    requires { 42 ≤ length frame.old }
{
    frame[12] = 8;
    frame[14] = 69;
    frame[17] = 28;
    frame[22] = 1;
    frame[23] = 1;
    frame[34] = 8;
}

fn allowances(rt: &impl Print, frame: &[u8]) -> io::Result<()> {
    for allowance in [0, 1, 2, 3, u32::MAX] {
        run(
            rt,
            format_args!("allowance {allowance}"),
            frame,
            &ECHO,
            10,
            allowance,
        )?;
    }
    Ok(())
}

// Number of states 0, one more than there are slots, and more than any table has; and a prefix of the states that the walk leaves.
fn numbers(rt: &impl Print, frame: &[u8]) -> io::Result<()> {
    for states in [0, 11, 4097, u32::MAX] {
        run(rt, format_args!("{states} states"), frame, &ECHO, states, 9)?;
    }
    for allowance in 1..3 {
        let label = format_args!("next 2 of 2 states, allowance {allowance}");
        run(rt, label, frame, &ECHO, 2, allowance)?;
    }
    Ok(())
}

// Slots are counted whole.
fn short_tables(rt: &impl Print, frame: &[u8]) -> io::Result<()> {
    for states in [10, 9] {
        run(
            rt,
            format_args!("109 words, {states} states"),
            frame,
            &ECHO[..109],
            states,
            9,
        )?;
    }
    run(rt, "no words, 1 state", frame, &[], 1, 9)
}

// A word of the table is another, and the walk has an allowance: a record is checked when it is reached, before the allowance is; a
// final record's field is not looked at. The second word of a set counts from filter 32 on, in a record that shows it at its end as
// in one that a walk stops at.
const DAMAGES: [(&str, usize, u32, u32); 13] = [
    ("kind 5 in record 0, allowance 0", 0, 5, 0),
    ("field 14 in record 0, allowance 0", 1, 14, 0),
    ("kind 5 in record 1, allowance 0", 11, 5, 0),
    ("kind 5 in record 1, allowance 1", 11, 5, 1),
    ("field 14 in final record 2", 23, 14, 2),
    ("next 10 in record 0, allowance 0", 4, 10, 0),
    ("next 10 in record 0, allowance 1", 4, 10, 1),
    ("next 10 in record 1, allowance 2", 15, 10, 2),
    ("next 10 on a way not taken", 5, 10, 2),
    ("record 0 leads to itself, allowance 7", 4, 0, 7),
    ("filter 32 in the sure set of record 2", 30, 1, 2),
    ("filter 63 in the out set of record 2", 32, 2147483648, 2),
    ("filter 33 in the out set of record 1", 21, 2, 1),
];

fn damages(rt: &impl Print, frame: &[u8]) -> io::Result<()> {
    for (label, at, word, allowance) in DAMAGES {
        let mut table = ECHO;
        if let Some(old) = table.get_mut(at) {
            *old = word;
        }
        run(rt, label, frame, &table, 10, allowance)?;
    }
    Ok(())
}

// Links of a chain count as questions, and each is checked.
fn chains(rt: &impl Print, frame: &[u8]) -> io::Result<()> {
    for allowance in 0..4 {
        run(
            rt,
            format_args!("chain, allowance {allowance}"),
            frame,
            &LIVES,
            7,
            allowance,
        )?;
    }
    for allowance in 1..3 {
        let label = format_args!("chain, next 4 of 4 states, allowance {allowance}");
        run(rt, label, frame, &LIVES, 4, allowance)?;
    }
    Ok(())
}

// Frames without fields, and at the greatest length: so many bytes, by so many states, with an allowance.
const LENGTHS: [(&str, usize, u32, u32); 8] = [
    ("empty frame", 0, 10, 9),
    ("frame of 13 bytes", 13, 10, 9),
    ("frame of 34 bytes, allowance 0", 34, 10, 0),
    ("frame of 34 bytes, allowance 1", 34, 10, 1),
    ("frame of 34 bytes, 8 states", 34, 8, 9),
    ("frame of 1522 bytes", 1522, 10, 9),
    ("frame of 1523 bytes", 1523, 10, 9),
    ("frame of 1523 bytes, 0 states", 1523, 0, 9),
];

fn lengths(rt: &impl Print, frame: &[u8]) -> io::Result<()> {
    for (label, length, states, allowance) in LENGTHS {
        let part = frame.get(..length).unwrap_or(frame);
        run(rt, label, part, &ECHO, states, allowance)?;
    }
    Ok(())
}

fn main(rt: HostRuntime) -> io::Result<()> {
    let mut frame = [0u8; 42];
    put_echo(&mut frame);
    allowances(&rt, &frame)?;
    numbers(&rt, &frame)?;
    short_tables(&rt, &frame)?;
    damages(&rt, &frame)?;
    chains(&rt, &frame)?;
    let mut long = [0u8; 1523];
    put_echo(&mut long);
    lengths(&rt, &long)
}
