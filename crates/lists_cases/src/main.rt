// Shows what `lists` says of a list cut at every word, of lists with two faults, of long lists, and of ranks.
// The file `stdout` was worked out by a script that was written from document 01 alone.
#![tactic(auto)]

use sets::Set;
use std::io;

// Three filters: protocol is 6 and source differs from 10.0.0/24; no tests; destination port at most 65,535 and time to live at least 0.
const GOOD: [u32; 25] = [
    1, 0, 2, 1, 5, 255, 6, 2, 6, 4294967040, 167772160, 1, 1, 0, 255, 255, 2, 3, 9, 0, 65535, 4, 4,
    0, 0,
];

fn answer(rt: &impl Print, list: &[u32]) -> io::Result<()> {
    match lists::check(list) {
        Ok(counts) => println!(rt; "accepted {} {}", counts.filters, counts.tests),
        Err(refused) => println!(rt; "{refused}"),
    }
}

// The list cut at every word from a place on.
fn cuts(rt: &impl Print, list: &[u32], from: usize) -> io::Result<()> {
    for n in from..=list.len() {
        answer(rt, &list[..n])?;
    }
    Ok(())
}

fn put(list: &mut [u32], at: usize, word: u32) {
    if let Some(place) = list.get_mut(at) {
        *place = word;
    }
}

// Two places of the good list and the words put there, the second behind the first.
type Faults = [(usize, u32); 2];

// The good list with two of its words changed, for each two.
fn two_faults(rt: &impl Print, all: &[Faults]) -> io::Result<()> {
    for [(at, word), (behind, other)] in all {
        let mut list = GOOD;
        put(&mut list, *at, *word);
        put(&mut list, *behind, *other);
        answer(rt, &list)?;
    }
    Ok(())
}

// The first fault is in the first filter.
const FIRST_FILTER: [Faults; 19] = [
    [(0, 256), (2, 9)],
    [(1, 256), (3, 0)],
    [(2, 9), (3, 0)],
    [(2, 8), (3, 0)],
    [(3, 0), (4, 14)],
    [(3, 5), (11, 256)],
    [(4, 14), (5, 0)],
    [(5, 0), (6, 256)],
    [(5, 256), (13, 9)],
    [(6, 256), (7, 0)],
    [(5, 249), (8, 14)],
    [(7, 0), (8, 14)],
    [(7, 5), (16, 9)],
    [(8, 14), (9, 0)],
    [(8, 4294967295), (17, 0)],
    [(9, 0), (10, 1)],
    [(10, 1), (11, 256)],
    [(10, 4294967295), (17, 0)],
    [(7, 3), (10, 1)],
];

// The first fault is in the second filter.
const SECOND_FILTER: [Faults; 4] = [
    [(11, 256), (13, 9)],
    [(12, 4294967295), (13, 9)],
    [(13, 9), (17, 0)],
    [(13, 8), (14, 256)],
];

// The first fault is in the third filter.
const THIRD_FILTER: [Faults; 16] = [
    [(14, 256), (16, 9)],
    [(15, 256), (17, 0)],
    [(16, 9), (17, 0)],
    [(16, 4294967295), (17, 0)],
    [(16, 3), (17, 0)],
    [(17, 0), (18, 14)],
    [(17, 5), (21, 0)],
    [(17, 1), (18, 14)],
    [(18, 14), (19, 1)],
    [(19, 1), (20, 65536)],
    [(20, 65536), (21, 0)],
    [(21, 0), (22, 14)],
    [(22, 14), (23, 1)],
    [(23, 4294967295), (24, 256)],
    [(24, 256), (24, 256)],
    [(17, 2), (19, 1)],
];

// 64 filters take 192 words. A fault of the last filter comes before words that follow it, and those before their own faults.
fn long(rt: &impl Print) -> io::Result<()> {
    let mut list = [0u32; 194];
    cuts(rt, &list, 189)?;
    put(&mut list, 193, 256);
    answer(rt, &list)?;
    put(&mut list, 189, 256);
    answer(rt, &list)
}

// The rank sets of the first n filters.
fn show_ranks(rt: &impl Print, list: &[u32], n: usize) -> io::Result<()> {
    let mut sets: [Set; lists::MAX_FILTERS] = [sets::EMPTY; lists::MAX_FILTERS];
    lists::rank_sets(list, &mut sets);
    for set in sets.iter().take(n) {
        println!(rt; "{set}")?;
    }
    Ok(())
}

// Six filters without tests: three of group 1 with levels 2, 3, 2, two of group 2 with one level, one alone in its group.
fn ranks(rt: &impl Print) -> io::Result<()> {
    let list = [1u32, 2, 0, 2, 7, 0, 1, 3, 0, 1, 2, 0, 2, 7, 0, 9, 255, 0];
    show_ranks(rt, &list, 7)
}

// Three filters of group 0, each on its own, with levels 7, 9, 7, and two of group 1 between them.
fn on_their_own(rt: &impl Print) -> io::Result<()> {
    let list = [0u32, 7, 0, 1, 7, 0, 0, 9, 0, 0, 7, 0, 1, 3, 0];
    show_ranks(rt, &list, 5)
}

fn main(rt: HostRuntime) -> io::Result<()> {
    let good = GOOD;
    cuts(&rt, &good, 0)?;
    two_faults(&rt, &FIRST_FILTER)?;
    two_faults(&rt, &SECOND_FILTER)?;
    two_faults(&rt, &THIRD_FILTER)?;
    long(&rt)?;
    ranks(&rt)?;
    on_their_own(&rt)
}
