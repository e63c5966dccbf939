// A table is a run of records, and a record has the words of its question, its next numbers and its sets (document 01, "States and the table").
#![tactic(auto)]

ghost use Rattle.std.specs.Prelude.{is_none, IfSome, eqb, ltb, ◌||◌, ◌<◌, ◌≡◌, ◌++◌, ◌+◌, ◌*◌, ◌-◌, ◌/◌, ◌≤◌, min, length, get_or, drop};
ghost use Rattle.tables.specs.Tables.{set_words, record_words, max_slots, slots_of, next_at, as_words, set_at};
ghost use Rattle.tables.specs.inner.Records.{fresh_in, fresh_by, agree, record_at, agreeing_from, with_next};

use lists::TestWords;
use residue::Outcome;
use sets::Set;

// The most slots of a table.
pub const MAX_SLOTS: usize = 4096;
// Words a set.
pub const SET_WORDS: usize = 2;

// The places of a record's words: its question's, as in a list; its next numbers, its sets.
pub use lists::{FIELD_AT, KIND_AT, MASK_AT, VALUE_AT};

pub const HOLDS_AT: usize = lists::TEST_WORDS;

pub const FAILS_AT: usize = HOLDS_AT + 1;

pub const ABSENT_AT: usize = FAILS_AT + 1;

pub const SURE_AT: usize = ABSENT_AT + 1;

pub const OUT_AT: usize = SURE_AT + SET_WORDS;
// Words a record.
pub const RECORD_WORDS: usize = OUT_AT + SET_WORDS;

// The words of a record.
pub type Record = [u32; RECORD_WORDS];

// A table's words and its number of states: there are some, and for each a slot and the words of a record.
#[derive(Clone, Copy)]
pub struct Table<'a> {
    pub words: &'a [u32],
    pub states: u32,
    pub ghost some: { 0 < states },
    pub ghost few: { states ≤ max_slots },
    pub ghost in_bounds: { record_words * states ≤ length words.now },
}

impl<'a> Table<'a> {
    // The table of so many states in these words; none where the number does not fit them. It is held to the words by a product,
    // which needs no division.
    #[tactic(auto, using(crate::proofs::laws::Least::slots_least))]
    pub fn new(words: &'a [u32], states: u32) -> Option<Table<'a>>
        ensures fits { is_none result ≡ (eqb states 0 || ltb (slots_of words.now) states) }
        ensures parts { IfSome result (λ t. (t.words.now ≡ words.now) × (t.states ≡ states)) }
    {
        let n = states as usize;
        if n != 0 && n <= MAX_SLOTS && RECORD_WORDS * n <= words.len() {
            Some(Table { words, states })
        } else {
            None
        }
    }

    // The words of a record.
    pub fn record(&self, n: u32) -> &'a Record
        requires { n < self.now.states }
        ensures { result.now ≡ record_at self.now.words.now n }
    {
        record_of(self.words, n as usize)
    }
}

// What a record has before its next numbers are known: its sets and the words of its question. Of two records the out sets differ
// most often and then the sure sets, so these are compared first.
#[derive(Clone, Copy, Debug, PartialEq, Eq)]
pub struct Fresh {
    pub out: Set,
    pub sure: Set,
    pub asked: TestWords,
}

// The slots of a table of so many words.
pub fn slots_of(words: usize) -> usize
    ensures { result ≡ min (words / record_words) max_slots }
{
    (words / RECORD_WORDS).min(MAX_SLOTS)
}

// The place in a record of the next number at an outcome.
#[tactic(auto, unfolding(crate::specs::Tables::next_at))]
pub fn next_at(o: Outcome) -> usize
    ensures { result ≡ next_at o }
{
    match o {
        Outcome::Holds => HOLDS_AT,
        Outcome::Fails => FAILS_AT,
        Outcome::Absent => ABSENT_AT,
    }
}

// Puts the number that record n has at an outcome into the table.
#[tactic(auto, using(crate::proofs::laws::Layout::next_within), unfolding(crate::specs::inner::Records::with_next))]
pub fn put_next(table: &mut [u32], n: usize, o: Outcome, next: u32)
    requires { record_words * (n + 1) ≤ length table.old }
    ensures { table.new ≡ with_next n o next table.old }
{
    let at = RECORD_WORDS * n + next_at(o);
    table[at] = next;
}

// A set as two words, its low half first.
#[tactic(auto, unfolding(crate::specs::Tables::as_words))]
fn halves(set: Set) -> [u32; SET_WORDS]
    ensures { result ≡ as_words set }
{
    [sets::low_half(set), sets::high_half(set)]
}

// The set that the words from a place on say.
#[tactic(auto, unfolding(crate::specs::Tables::set_at))]
pub fn set_at(words: &[u32], at: usize) -> Set
    requires { at + set_words ≤ length words.now }
    ensures { result ≡ set_at (λ j. get_or words.now j 0) at }
{
    let low = words[at];
    let high = words[at + 1];
    sets::of_halves(low, high)
}

// The words of a record of a table.
#[tactic(auto, unfolding(crate::specs::inner::Records::record_at))]
fn record_of(words: &[u32], n: usize) -> &Record
    requires { record_words * (n + 1) ≤ length words.now }
    ensures { result.now ≡ record_at words.now n }
{
    let at = RECORD_WORDS * n;
    words[at..at + RECORD_WORDS].as_array().unwrap()
}

impl Fresh {
    // The sets and the question of a record, whatever its next numbers.
    #[tactic(auto, unfolding(crate::specs::inner::Records::fresh_in))]
    fn of(words: &Record) -> Fresh
        ensures { result ≡ fresh_in words.now }
    {
        Fresh {
            out: set_at(words, OUT_AT),
            sure: set_at(words, SURE_AT),
            asked: TestWords::at(words, KIND_AT),
        }
    }

    // Whether a record has this question and these sets, whatever its next numbers.
    #[tactic(auto, using(crate::proofs::laws::Agreeing::agree_parts))]
    fn agrees(self, words: &Record) -> bool
        ensures { result ≡ agree words.now (fresh_by self) }
    {
        Fresh::of(words) == self
    }

    // Whether one of two records of a table has this question and these sets, the record `first` or the one after it.
    fn agrees_in_pair(self, table: &[u32], first: usize) -> bool
        requires { record_words * (first + 2) ≤ length table.now }
        ensures { result ≡ (agree (record_at table.now first) (fresh_by self) || agree (record_at table.now (first + 1)) (fresh_by self)) }
    {
        self.agrees(record_of(table, first)) || self.agrees(record_of(table, first + 1))
    }

    // The words of the record, with the next numbers 0.
    #[tactic(auto, unfolding(crate::specs::inner::Records::fresh_by, crate::specs::inner::Records::fresh_record, crate::specs::Tables::record_with, crate::specs::Tables::as_words))]
    fn words(self) -> Record
        ensures { result ≡ fresh_by self }
    {
        let TestWords {
            kind,
            field,
            mask,
            value,
        } = self.asked;
        let [sure_low, sure_high] = halves(self.sure);
        let [out_low, out_high] = halves(self.out);
        [
            kind, field, mask, value, 0, 0, 0, sure_low, sure_high, out_low, out_high,
        ]
    }
}

// Writes a record with no next numbers yet into the front of the words.
pub fn write_fresh(words: &mut [u32], fresh: Fresh)
    requires { record_words ≤ length words.old }
    ensures { words.new ≡ fresh_by fresh ++ drop record_words words.old }
{
    words[..RECORD_WORDS].copy_from_slice(&fresh.words());
}

// The first record from a place on, before an end, that has the question and the sets of a fresh one; none where no record has. Two
// records a turn, since turning costs as much as looking. A call of its own: a copy in the caller would count the caller's own places
// with each record.
#[inline(never)]
pub fn agreeing(table: &[u32], from: usize, end: usize, fresh: Fresh) -> Option<usize>
    requires from_le_end { from ≤ end }
    requires end_in_bounds { record_words * end ≤ length table.now }
    ensures { result ≡ agreeing_from (end - from) from table.now (fresh_by fresh) }
{
    // First the pair with one that agrees, then the one of the pair; where no pair has one, a record at most is left. One `find` over
    // the records would look at one a turn, with half as many instructions again.
    let pairs = (end - from) / 2;
    let pair = (0..pairs).find(|i| fresh.agrees_in_pair(table, from + 2 * *i));
    let first = from + 2 * pair.unwrap_or(pairs);
    (first..end).find(|n| fresh.agrees(record_of(table, *n)))
}
