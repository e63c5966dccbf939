// A run of words is a list of filters, or refused (document 01, "Tests, filters, ranks" and refusals 1 to 9).
#![tactic(auto)]

ghost use Rattle.std.specs.Prelude.{◌≡◌, ℕ, Bool, cond, not, ◌+◌, ◌-◌, ◌*◌, ◌≤◌, ◌<◌, eqb, length, get_or, drop};
ghost use Rattle.sets.specs.Sets.{set_of, tally};
ghost use Rattle.lists.specs.Filters.{max_filters, head_words, test_words, count_word, test_of, filter_of, filters_of};
ghost use Rattle.lists.specs.Words.{words_of};
ghost use Rattle.lists.specs.Refusals.{masked, test_fault, tests_fault, filter_fault, listed};
ghost use Rattle.lists.specs.Ranks.{outranks, rank_sets};
ghost use Rattle.lists.specs.inner.Columns.{rank_set_by};
ghost use Rattle.lists.specs.Columns.{rank_of, no_rank, Heads, above_by};
ghost use Rattle.std.specs.Iterator.{at_most};
ghost use Rattle.lists.specs.Walk.{left_in, GivesFilter};

use refusals::{Refusal, Refused};
use residue::Test;
use sets::Set;

// The most filters of a list, one for each bit of a set, and tests of a filter; the greatest group and level.
pub const MAX_FILTERS: usize = sets::SET_BITS;

pub const MAX_TESTS: usize = 8;

pub const MAX_RANK: u32 = 255;

// The words of a filter before its tests, and of a test.
pub const HEAD_WORDS: usize = 3;

pub const TEST_WORDS: usize = 4;

// The places of the words in a filter's head; the group is the first.
const LEVEL_AT: usize = 1;

pub const COUNT_AT: usize = 2;

// And in a test.
pub const KIND_AT: usize = 0;

pub const FIELD_AT: usize = 1;

pub const MASK_AT: usize = 2;

pub const VALUE_AT: usize = 3;

// The kinds of tests.
pub const EQUAL: u32 = 1;

pub const DIFFERS: u32 = 2;

pub const AT_MOST: u32 = 3;

pub const AT_LEAST: u32 = 4;

// The rank of no filter: on its own.
pub const NO_RANK: Rank = Rank { group: 0, level: 0 };

// The first two as words.
const FILTERS: u32 = MAX_FILTERS as u32;

const TESTS: u32 = MAX_TESTS as u32;

// The fields that `fields` has.
const FIELDS: u32 = fields::FIELDS as u32;

// How many filters and tests an accepted list has.
#[derive(Clone, Copy, Debug, PartialEq, Eq)]
pub struct Counts {
    pub filters: u32,
    pub tests: u32,
}

// A filter's group, and its level in the group.
#[derive(Clone, Copy, Debug, Default, PartialEq, Eq)]
pub struct Rank {
    pub group: u32,
    pub level: u32,
}

// The words of a test or of a question; kind 0 is no test.
#[derive(Clone, Copy, Debug, Default, PartialEq, Eq)]
pub struct TestWords {
    pub kind: u32,
    pub field: u32,
    pub mask: u32,
    pub value: u32,
}

// The word at a place; 0 behind the last, as the definitions read it.
fn word_at(words: &[u32], at: usize) -> u32
    ensures { result ≡ get_or words.now at 0 }
{
    words.get(at).copied().unwrap_or(0)
}

// How many tests the filter that begins at a place has.
pub fn count_at(list: &[u32], at: usize) -> u32
    requires { at ≤ length list.now }
    ensures { result ≡ count_word (drop at list.now) }
{
    word_at(list, at + COUNT_AT)
}

// The words of a filter that has so many tests: the next one begins behind them.
pub fn filter_words(count: u32) -> usize
    ensures { result ≡ head_words + test_words * count }
{
    HEAD_WORDS + TEST_WORDS * (count as usize)
}

// The test that the words kind, mask and value mean; a kind that is none reads as the last.
#[tactic(auto, unfolding(crate::specs::Filters::test_of))]
pub fn test_of(kind: u32, mask: u32, value: u32) -> Test
    ensures { result ≡ test_of kind mask value }
{
    match kind {
        EQUAL => Test::Equal(mask, value),
        DIFFERS => Test::Differs(mask, value),
        AT_MOST => Test::AtMost(value),
        _ => Test::AtLeast(value),
    }
}

impl TestWords {
    // The words of the test that begins at a place.
    #[tactic(auto, unfolding(crate::specs::Words::words_of))]
    pub fn at(words: &[u32], at: usize) -> TestWords
        requires { at + test_words ≤ length words.now }
        ensures { result ≡ words_of (drop at words.now) }
    {
        TestWords {
            kind: words[at + KIND_AT],
            field: words[at + FIELD_AT],
            mask: words[at + MASK_AT],
            value: words[at + VALUE_AT],
        }
    }

    // The test that the words mean.
    pub fn test(self) -> Test
        ensures { result ≡ test_of self.kind self.mask self.value }
    {
        test_of(self.kind, self.mask, self.value)
    }

    // Kinds 1 and 2 want a mask, kinds 3 and 4 have none.
    fn wrong_mask(self) -> bool
        ensures { result ≡ cond (masked self.kind) (eqb self.mask 0) (not (eqb self.mask 0)) }
    {
        if self.kind <= DIFFERS {
            self.mask == 0
        } else {
            self.mask != 0
        }
    }

    // Whether the test has a fault, refusals 5 to 9.
    #[tactic(auto, unfolding(crate::specs::Refusals::test_fault))]
    fn check(self) -> Result<(), Refusal>
        ensures { result ≡ test_fault self }
    {
        let TestWords {
            kind,
            field,
            mask,
            value,
        } = self;
        if (kind == 0) | (AT_LEAST < kind) {
            return Err(Refusal::Kind);
        }
        if FIELDS <= field {
            return Err(Refusal::Field);
        }
        if self.wrong_mask() {
            return Err(Refusal::Mask);
        }
        let full = fields::full_of(field);
        if (full < mask) | (full < value) {
            return Err(Refusal::Width);
        }
        if (kind <= DIFFERS) & ((value & mask) != value) {
            return Err(Refusal::Value);
        }
        Ok(())
    }
}

// The first fault of the n tests that the words begin with.
fn check_tests(words: &[u32], n: u32) -> Result<(), Refusal>
    requires { test_words * n ≤ length words.now }
    ensures { result ≡ tests_fault n words.now }
{
    for j in 0..n as usize {
        TestWords::at(words, TEST_WORDS * j).check()?;
    }
    Ok(())
}

// The first fault of the filter that the words begin with.
#[tactic(auto, unfolding(crate::specs::Refusals::filter_fault))]
fn check_filter(words: &[u32]) -> Result<(), Refusal>
    ensures { result ≡ filter_fault words.now }
{
    if words.len() < HEAD_WORDS {
        return Err(Refusal::CutFilter);
    }
    let count = words[COUNT_AT];
    if (MAX_RANK < words[0]) | (MAX_RANK < words[LEVEL_AT]) {
        return Err(Refusal::Rank);
    }
    if TESTS < count {
        return Err(Refusal::ManyTests);
    }
    if words.len() < filter_words(count) {
        return Err(Refusal::CutFilter);
    }
    check_tests(&words[HEAD_WORDS..], count)
}

// The filters of a list, one after the other: each as the words from its first one on. A filter that is cut is the last. It goes by the
// place of the next one: of words that are cut off the front each time the length too waits for the filter before. How many tests there
// are is read off the words that are handed out, so that who asks them reads it no second time.
#[derive(Clone, Copy, Drop)]
pub struct Filters<'a> {
    pub list: &'a [u32],
    pub at: usize,
}

impl<'a> Filters<'a> {
    // All filters of a list.
    pub fn new(list: &'a [u32]) -> Filters<'a>
        ensures { left_in result ≡ list.now }
    {
        Filters { list, at: 0 }
    }
}

impl<'a> Iterator for Filters<'a> {
    type Item = &'a [u32];

    ghost next_gives = { GivesFilter };

    ghost remaining = { λ s. at_most (length s.list.now - s.at) };

    fn next(&mut self) -> Option<&'a [u32]> {
        if self.list.len() <= self.at {
            return None;
        }
        let words = &self.list[self.at..];
        self.at += filter_words(count_at(words, 0));
        Some(words)
    }
}

// Reads the whole list: how many filters and tests it has, or its first fault and the filter that has it.
pub fn check(list: &[u32]) -> Result<Counts, Refused<u32>>
    ensures { result ≡ listed list.now }
{
    let mut filters: u32 = 0;
    let mut tests: u32 = 0;
    // Not over `Filters`, which works out what follows before the filter is known to be whole: an eighth more instructions, measured.
    let mut rest = list;
    while 0 < rest.len() {
        if filters == FILTERS {
            return Err(Refused {
                refusal: Refusal::ManyFilters,
                place: filters,
            });
        }
        if let Err(refusal) = check_filter(rest) {
            return Err(Refused {
                refusal,
                place: filters,
            });
        }
        let count = count_at(rest, 0);
        tests += count;
        filters += 1;
        rest = &rest[filter_words(count)..];
    }
    Ok(Counts { filters, tests })
}

impl Rank {
    // The rank of the filter that the words begin with.
    #[tactic(auto, unfolding(crate::specs::Filters::filter_of))]
    fn of(words: &[u32]) -> Rank
        ensures { result ≡ rank_of (filter_of words.now) }
    {
        Rank {
            group: word_at(words, 0),
            level: word_at(words, LEVEL_AT),
        }
    }

    // Whether filter j, which has this rank, ranks above filter i, which has the other: never in group 0, where each is on its own.
    #[tactic(auto, unfolding(crate::specs::Ranks::outranks))]
    pub fn is_above(self, j: usize, other: Rank, i: usize) -> bool
        ensures { result ≡ outranks self.group self.level j other.group other.level i }
    {
        (self.group != 0)
            & (self.group == other.group)
            & ((other.level < self.level) | ((self.level == other.level) & (j < i)))
    }
}

// Writes the ranks of the list's filters, and says how many there are.
pub fn heads(list: &[u32], ranks: &mut [Rank; MAX_FILTERS]) -> usize
    ensures { Heads (filters_of list.now) result ranks.new }
{
    let mut n: usize = 0;
    for words in Filters::new(list).take(MAX_FILTERS) {
        ranks[n] = Rank::of(words);
        n += 1;
    }
    n
}

// The rank of filter i; beyond the last one group 0's lowest.
fn rank_at(ranks: &[Rank], i: usize) -> Rank
    ensures { result ≡ get_or ranks.now i no_rank }
{
    ranks.get(i).copied().unwrap_or(NO_RANK)
}

// Whether filter j ranks above filter i, by a column of any length.
#[tactic(auto, unfolding(crate::specs::Columns::above_by))]
pub fn ranks_above(ranks: &[Rank], j: usize, i: usize) -> bool
    ensures { result ≡ above_by ranks.now j i }
{
    rank_at(ranks, j).is_above(j, rank_at(ranks, i), i)
}

// The set of those among the first n filters of which the test holds.
pub fn set_where<F: Fn(usize) -> bool>(n: usize, test: F) -> Set
    requires few { n ≤ max_filters }
    requires asked { (i : ℕ) → i < n → F.pre test i }
    ensures { (p : ℕ → Bool) → ((i : ℕ) (b : Bool) → i < n → F.post test i b → b ≡ p i) → result ≡ set_of (tally n p) }
{
    let mut set = sets::EMPTY;
    for i in 0..n {
        set = sets::put(set, i as u32, test(i));
    }
    set
}

// The set of those among the first n filters that rank above filter i; beyond the list it is empty, since nothing ranks above what is
// not there.
#[tactic(auto, unfolding(crate::specs::inner::Columns::rank_set_by))]
fn rank_set(ranks: &[Rank], n: usize, i: usize) -> Set
    requires { n ≤ max_filters }
    ensures { result ≡ rank_set_by ranks.now n i }
{
    if i < n {
        set_where(n, |j| ranks_above(ranks, j, i))
    } else {
        sets::EMPTY
    }
}

// Writes for each filter the set of those that rank above it, so that ranks are worked out once for a list.
pub fn rank_sets(list: &[u32], sets: &mut [Set; MAX_FILTERS])
    ensures { sets.new ≡ rank_sets (filters_of list.now) }
{
    let mut ranks = [NO_RANK; MAX_FILTERS];
    let n = heads(list, &mut ranks);
    for (i, set) in sets.iter_mut().enumerate() {
        *set = rank_set(&ranks, n, i);
    }
}
