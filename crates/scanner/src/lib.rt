// A list and a frame, without a table: each filter is asked in turn (change request P1).
#![tactic(auto)]

ghost use Rattle.std.specs.Prelude.{ℕ, ◌≡◌, ◌&&◌, ◌-◌, ◌≤◌, ◌<◌, eqb, length};
ghost use Rattle.std.specs.Int.Bits.{bit_and};
ghost use Rattle.sets.specs.Sets.{set_of, tally, member};
ghost use Rattle.residue.specs.Tests.{holds_of};
ghost use Rattle.fields.specs.Fields.{field};
ghost use Rattle.fields.specs.Header.{reading_at};
ghost use Rattle.lists.specs.Filters.{max_filters, filter_words, test_of, filter_of, filters_of};
ghost use Rattle.lists.specs.Refusals.{counts, listed};
ghost use Rattle.lists.specs.Ranks.{all_hold, fires, match_set};
ghost use Rattle.lists.specs.Columns.{above_by};
ghost use Rattle.scanner.specs.Scan.{scanned};
ghost use Rattle.scanner.specs.inner.Standing.{beaten_by, stands_by, top_set};

use fields::{Header, MAX_FRAME};
use lists::{COUNT_AT, HEAD_WORDS, MAX_FILTERS, NO_RANK, Rank, TEST_WORDS, TestWords};
use refusals::{Refusal, Refused};
use sets::Set;

// Whether a test holds. None holds on an absent field.
fn holds(test: TestWords, header: &Header) -> bool
    ensures { result ≡ holds_of (test_of test.kind test.mask test.value) (reading_at header.now.present header.now.values test.field) }
{
    header
        .reading(test.field)
        .is_some_and(|x| residue::test_holds(test.test(), x))
}

// Whether all tests of the filter that the words begin with hold; left at the first that does not.
fn all_hold(words: &[u32], header: &Header) -> bool
    requires { filter_words words.now ≤ length words.now }
    ensures { result ≡ all_hold (reading_at header.now.present header.now.values) (filter_of words.now).tests }
{
    let count = words[COUNT_AT] as usize;
    (0..count).all(|j| holds(TestWords::at(words, HEAD_WORDS + TEST_WORDS * j), header))
}

// The set of the filters of an accepted list whose tests all hold; the list has n filters. Not over `Filters`, which ends where the words end:
// that is known only when the last filter's words have been read, that n filters were asked at once. It missed the bar of P1 (DESIGN-PASS.md).
fn fires_set(list: &[u32], n: usize, header: &Header) -> Set
    requires { (t : ℕ) × (listed list.now ≡ Ok (counts n t)) }
    ensures { result ≡ set_of (tally (length (filters_of list.now)) (fires (filters_of list.now) (reading_at header.now.present header.now.values))) }
{
    let mut set: Set = 0;
    let mut at: usize = 0;
    for i in 0..n {
        let words = &list[at..];
        set = sets::put(set, i as u32, all_hold(words, header));
        at += lists::filter_words(words[COUNT_AT]);
    }
    set
}

// Whether filter j is in a set and ranks above filter i. The column has a rank for each filter that a list can have, so that no place is
// looked for in it, which each pair of filters would pay for. The groups are compared before the levels: of two groups no more need be compared.
#[tactic(auto, unfolding(lists::specs::Columns::above_by, lists::specs::Ranks::outranks))]
fn beats(ranks: &[Rank; MAX_FILTERS], held: Set, j: usize, i: usize) -> bool
    requires { (j < max_filters) × (i < max_filters) }
    ensures { result ≡ (above_by ranks.now j i && member j held) }
{
    let upper = ranks[j];
    let lower = ranks[i];
    sets::has(held, j as u32) && upper.group == lower.group && upper.is_above(j, lower, i)
}

// Whether any of the first n filters does.
fn beaten(ranks: &[Rank; MAX_FILTERS], n: usize, held: Set, i: usize) -> bool
    requires { (n ≤ max_filters) × (i < max_filters) }
    ensures { result ≡ beaten_by ranks.now n held i }
{
    (0..n).any(|j| beats(ranks, held, j, i))
}

// Whether filter i is in a set and none of the set ranks above it. Ranks are looked at for the few in the set alone.
#[tactic(auto, unfolding(crate::specs::inner::Standing::stands_by))]
fn stands(ranks: &[Rank; MAX_FILTERS], n: usize, held: Set, i: usize) -> bool
    requires { (n ≤ max_filters) × (i < max_filters) }
    ensures { result ≡ stands_by ranks.now n held i }
{
    sets::has(held, i as u32) && !beaten(ranks, n, held, i)
}

// Whether a set has one member at most.
fn lone(set: Set) -> bool
    ensures { result ≡ eqb (bit_and set (set - 1)) 0 }
{
    set & set.saturating_sub(1) == 0
}

// The filters of a set above which none of the set ranks.
fn top_set(list: &[u32], held: Set) -> Set
    ensures { result ≡ top_set (filters_of list.now) held }
{
    let mut ranks = [NO_RANK; MAX_FILTERS];
    let n = lists::heads(list, &mut ranks);
    lists::set_where(n, |i| stands(&ranks, n, held, i))
}

// The match set of a frame by an accepted list of n filters, which is not checked again. Of most frames one filter holds at most:
// then no rank is looked at.
pub fn scan_accepted(list: &[u32], n: usize, frame: &[u8], port: u8) -> Set
    requires { (t : ℕ) × (listed list.now ≡ Ok (counts n t)) }
    ensures { result ≡ match_set (filters_of list.now) (field frame.now port) }
{
    let mut header = Header::new();
    header.read(frame, port);
    let held = fires_set(list, n, &header);
    if lone(held) {
        return held;
    }
    top_set(list, held)
}

// Scans a frame by a list; every list and frame is fine.
pub fn scan(list: &[u32], frame: &[u8], port: u8) -> Result<Set, Refused<u32>>
    ensures { result ≡ scanned list.now frame.now port }
{
    let checked = lists::check(list)?;
    let is_long = MAX_FRAME < frame.len();
    if is_long {
        return Err(Refusal::LongFrame.into());
    }
    Ok(scan_accepted(list, checked.filters as usize, frame, port))
}
