// A state as the words of one slot: as many words for each filter, its remaining tests first, zeros behind (specs/Words).
// A state's slice holds the words of its filters and of nothing else.
#![tactic(auto)]

ghost use Rattle.std.specs.Prelude.{◌≡◌, ◌≤◌, map, length, find};
ghost use Rattle.std.specs.Option.{option_copied};
ghost use Rattle.std.specs.Simd.{first_chunks};
ghost use Rattle.lists.specs.Filters.{filters_of, item_of};
ghost use Rattle.lists.specs.Words.{test_list};
ghost use Rattle.states.specs.States.{all_left};
ghost use Rattle.slots.specs.Words.{filter_slot};
ghost use Rattle.slots.specs.inner.Words.{written};
ghost use Rattle.slots.specs.inner.Slots.{held_set, out_set_in, sure_set_in, closed_in, closed_words, cut_words, step_question, start_words, same_words};
ghost use Rattle.slots.specs.Asking.{question_in, has_test, filters_in};
ghost use Rattle.slots.specs.inner.Steps.{marked_set, StateWords, Both, Starts};

use filter::OUT;
use lists::{Filters, HEAD_WORDS, MAX_FILTERS, MAX_TESTS, TEST_WORDS, TestWords};
use residue::{Outcome, Test};
use sets::Set;

mod filter;

// The words of a filter, and of a slot.
pub const FILTER_WORDS: usize = MAX_TESTS * TEST_WORDS;

pub const SLOT_WORDS: usize = MAX_FILTERS * FILTER_WORDS;
// The first word of a held filter.
const HELD: u32 = 0;

// The words of each filter of a state.
fn filters(state: &[u32]) -> &[[u32; FILTER_WORDS]]
    ensures words { result.now ≡ first_chunks filter_slot (filters_in state.now) state.now }
    ensures count { length result.now ≡ filters_in state.now }
{
    state.as_chunks().0
}

// The filters whose first word is a mark.
#[tactic(auto, using(crate::proofs::Sets::filter_marks))]
fn marked(state: &[u32], mark: u32) -> Set
    requires { StateWords state.now }
    ensures { result ≡ marked_set (filters_in state.now) mark state.now }
{
    let mut set = sets::EMPTY;
    for (i, filter) in filters(state).iter().enumerate() {
        set = sets::put(set, i as u32, filter[0] == mark);
    }
    set
}

// The held filters.
#[tactic(auto, unfolding(crate::specs::inner::Slots::held_set, crate::specs::inner::Steps::marked_set))]
pub fn held_set(state: &[u32]) -> Set
    requires { StateWords state.now }
    ensures { result ≡ held_set (filters_in state.now) state.now }
{
    marked(state, HELD)
}

// The filters that are out.
#[tactic(auto, unfolding(crate::specs::inner::Slots::out_set_in, crate::specs::inner::Steps::marked_set))]
pub fn out_set(state: &[u32]) -> Set
    requires { StateWords state.now }
    ensures { result ≡ out_set_in (filters_in state.now) state.now }
{
    marked(state, OUT)
}

// Each filter that ranks below one of the held set made out.
fn close_by(state: &mut [u32], ranks: &[Set], held: Set)
    requires whole { StateWords state.old }
    requires ranked { filters_in state.old ≤ length ranks.now }
    ensures { state.new ≡ closed_in (filters_in state.old) ranks.now held 0 state.old }
{
    // By index: of a slice that chunks_exact_mut lent a proof knows the length alone.
    for i in 0..state.len() / FILTER_WORDS {
        if ranks[i] & held != 0 {
            let at = FILTER_WORDS * i;
            filter::set_out(&mut state[at..at + FILTER_WORDS]);
        }
    }
}

// Each filter that ranks below a held one made out. Of most states no filter is held.
#[tactic(auto, using(crate::proofs::Parts::closed_by_none), unfolding(crate::specs::inner::Slots::closed_words))]
pub fn close(state: &mut [u32], ranks: &[Set])
    requires whole { StateWords state.old }
    requires ranked { filters_in state.old ≤ length ranks.now }
    ensures { state.new ≡ closed_words (filters_in state.old) ranks.now state.old }
{
    let held = held_set(state);
    if held == sets::EMPTY {
        return;
    }
    close_by(state, ranks, held);
}

// What a fact about a field leaves of each filter.
fn cut_all(src: &[u32], dst: &mut [u32], field: u32, fact: Option<Test>)
    requires { Both src.now dst.old }
    ensures { dst.new ≡ cut_words (filters_in src.now) field fact src.now }
{
    // Written by index: of a slice that chunks_exact_mut lent a proof knows the length alone.
    for (i, filter) in filters(src).iter().enumerate() {
        let at = FILTER_WORDS * i;
        filter::cut_filter(filter, &mut dst[at..at + FILTER_WORDS], field, fact);
    }
}

// Held, and every filter that ranks above it is in the out set.
#[tactic(auto, using(crate::proofs::Sets::sure_marks))]
pub fn sure_set(state: &[u32], ranks: &[Set], out: Set) -> Set
    requires whole { StateWords state.now }
    requires ranked { filters_in state.now ≤ length ranks.now }
    requires out_value { out ≡ out_set_in (filters_in state.now) state.now }
    ensures { result ≡ sure_set_in (filters_in state.now) ranks.now state.now }
{
    let mut set = sets::EMPTY;
    for (i, filter) in filters(state).iter().enumerate() {
        let sure = (filter[0] == HELD) & (ranks[i] & !out == 0);
        set = sets::put(set, i as u32, sure);
    }
    set
}

// Whether a filter has tests left: its first word is then the kind of the first.
#[tactic(auto, unfolding(crate::specs::Asking::has_test))]
fn has_test(filter: &[u32; FILTER_WORDS]) -> bool
    ensures { result ≡ has_test filter.now }
{
    (filter[0] != HELD) & (filter[0] != OUT)
}

// The first filter that has tests left.
fn asking(state: &[u32]) -> Option<&[u32; FILTER_WORDS]>
    ensures { option_copied result ≡ find has_test (first_chunks filter_slot (filters_in state.now) state.now) }
{
    filters(state).iter().find(|filter| has_test(filter))
}

// The first test of the first filter that has any.
pub fn question_of(state: &[u32]) -> TestWords
    ensures { test_list result ≡ question_in (filters_in state.now) state.now }
{
    match asking(state) {
        Some(filter) => TestWords::at(filter, 0),
        None => TestWords::default(),
    }
}

// The state after a question, of src or any other, came to an outcome.
#[tactic(auto, unfolding(crate::specs::inner::Slots::step_question, lists::specs::Filters::item_of))]
pub fn step_by(src: &[u32], dst: &mut [u32], ranks: &[Set], asked: TestWords, outcome: Outcome)
    requires both { Both src.now dst.old }
    requires ranked { filters_in src.now ≤ length ranks.now }
    ensures { dst.new ≡ step_question (filters_in src.now) ranks.now outcome (item_of (test_list asked)) src.now }
{
    let field = asked.field;
    let fact = residue::fact_of(fields::full_of(field), outcome, asked.test());
    cut_all(src, dst, field, fact);
    close(dst, ranks);
}

// The same words, from the last filter back: stored states mostly differ near the end of the list.
pub fn same(a: &[u32], b: &[u32]) -> bool
    requires { length a.now ≡ length b.now }
    ensures { result ≡ same_words a.now b.now }
{
    let mut end = a.len();
    // By places: of the parts that rchunks lends a proof knows the run alone.
    while 0 < end {
        let at = end.saturating_sub(FILTER_WORDS);
        let is_same = &a[at..end] == &b[at..end];
        if !is_same {
            return false;
        }
        end = at;
    }
    true
}

// Every filter of an accepted list with all its tests.
fn fill_all(list: &[u32], dst: &mut [u32])
    requires { Starts list.now dst.old }
    ensures { dst.new ≡ written (map all_left (filters_of list.now)) }
{
    // Written by index: of a slice that chunks_exact_mut lent a proof knows the length alone.
    for (i, words) in Filters::new(list).enumerate() {
        let end = lists::filter_words(lists::count_at(words, 0));
        let at = FILTER_WORDS * i;
        filter::fill(&words[HEAD_WORDS..end], &mut dst[at..at + FILTER_WORDS]);
    }
}

// The start of an accepted list.
#[tactic(auto, unfolding(crate::specs::inner::Slots::start_words))]
pub fn start_into(list: &[u32], dst: &mut [u32], ranks: &[Set])
    requires starts { Starts list.now dst.old }
    requires ranked { filters_in dst.old ≤ length ranks.now }
    ensures { dst.new ≡ start_words (filters_in dst.old) ranks.now list.now }
{
    fill_all(list, dst);
    close(dst, ranks);
}
