// Runs the residue cases of document 01, "Numbers to try", that are not marked, and edges at 8 and 32 bits,
// and prints what is left of each test: true, false, or the kind, mask and value of the test.
#![tactic(auto)]

use residue::{Residue, Test};
use std::io;

// A label, the fact that is known, and a test.
type Case = (&'static str, Option<Test>, Test);

// x & 0xF0 = 0x70, on an 8-bit field.
const HIGH: Option<Test> = Some(Test::Equal(0xF0, 0x70));

// The document's unmarked cases, then both sides of each edge.
const UNDER_HIGH: [Case; 10] = [
    ("x = 5", HIGH, Test::Equal(255, 5)),
    ("x <= 4", HIGH, Test::AtMost(4)),
    ("x <= 127", HIGH, Test::AtMost(127)),
    ("x <= 111", HIGH, Test::AtMost(111)),
    ("x <= 112", HIGH, Test::AtMost(112)),
    ("x <= 126", HIGH, Test::AtMost(126)),
    ("x >= 127", HIGH, Test::AtLeast(127)),
    ("x & 0x30 = 0x30", HIGH, Test::Equal(0x30, 0x30)),
    ("x & 0x3C != 0x34", HIGH, Test::Differs(0x3C, 0x34)),
    ("x & 0x3C != 0x04", HIGH, Test::Differs(0x3C, 0x04)),
];

// What no line settles, and the absent field.
const OTHERS: [Case; 5] = [
    (
        "x <= 255, x >= 9",
        Some(Test::AtLeast(9)),
        Test::AtMost(255),
    ),
    ("x = 0, x <= 0", Some(Test::AtMost(0)), Test::Equal(255, 0)),
    (
        "x >= 1, x != 0",
        Some(Test::Differs(255, 0)),
        Test::AtLeast(1),
    ),
    ("x = 7, absent", None, Test::Equal(255, 7)),
    ("x != 7, absent", None, Test::Differs(255, 7)),
];

// The first byte of a 32-bit field is 10; the field is 10.1.2.3.
const TEN: Test = Test::Equal(0xFF00_0000, 0x0A00_0000);

const ONE: Test = Test::Equal(0xFFFF_FFFF, 0x0A01_0203);

// Tests where the first byte is known to be 10: v' + full passes a word there.
const UNDER_TEN: [Case; 4] = [
    ("x <= 10.255.255.255", Some(TEN), Test::AtMost(0x0AFF_FFFF)),
    ("x <= 10.255.255.254", Some(TEN), Test::AtMost(0x0AFF_FFFE)),
    ("x >= 11.0.0.0", Some(TEN), Test::AtLeast(0x0B00_0000)),
    ("x = 10.1.2.3", Some(TEN), ONE),
];

// What a fact leaves of "the first byte is 10".
const OF_TEN: [Case; 3] = [
    ("x = 10.1.2.3", Some(ONE), TEN),
    ("x >= 10.255.255.255", Some(Test::AtLeast(0x0AFF_FFFF)), TEN),
    ("x >= 11.0.0.0", Some(Test::AtLeast(0x0B00_0000)), TEN),
];

// Prints what a fact leaves of a test. Kinds by document 01's numbers; a bound carries mask 0.
fn show(rt: &impl Print, label: &str, residue: Residue) -> io::Result<()> {
    match residue {
        Residue::True => println!(rt; "{label}: true"),
        Residue::False => println!(rt; "{label}: false"),
        Residue::Left(Test::Equal(m, v)) => println!(rt; "{label}: left 1 {m} {v}"),
        Residue::Left(Test::Differs(m, v)) => println!(rt; "{label}: left 2 {m} {v}"),
        Residue::Left(Test::AtMost(c)) => println!(rt; "{label}: left 3 0 {c}"),
        Residue::Left(Test::AtLeast(c)) => println!(rt; "{label}: left 4 0 {c}"),
    }
}

// Runs cases on a field whose greatest number is full, under a title.
fn run(rt: &impl Print, title: &str, full: u32, cases: &[Case]) -> io::Result<()> {
    println!(rt; "{title}")?;
    for (label, fact, test) in cases {
        show(rt, label, residue::residue_of(full, *fact, *test))?;
    }
    Ok(())
}

fn main(rt: HostRuntime) -> io::Result<()> {
    run(&rt, "x & 0xF0 = 0x70 known, 8 bits", 255, &UNDER_HIGH)?;
    run(&rt, "other facts, 8 bits", 255, &OTHERS)?;
    run(&rt, "x in 10/8 known, 32 bits", u32::MAX, &UNDER_TEN)?;
    run(&rt, "x in 10/8 asked, 32 bits", u32::MAX, &OF_TEN)
}
