// One filter's words.
ghost use Rattle.std.specs.Prelude.{◌≡◌, ◌+◌, ◌-◌, ◌≤◌, ◌++◌, length, replicate};
ghost use Rattle.lists.specs.Filters.{test_words, item_of};
ghost use Rattle.lists.specs.Words.{item_words, test_list};
ghost use Rattle.states.specs.States.{cut_standing};
ghost use Rattle.slots.specs.Words.{filter_slot};
ghost use Rattle.slots.specs.inner.Words.{out_words, written_filter, read_filter};
ghost use Rattle.slots.specs.inner.Steps.{over, item, left_of, Room, Kept, Cut};

use crate::FILTER_WORDS;
use lists::{TEST_WORDS, TestWords};
use residue::{Residue, Test};

// The first word of a filter that is out (specs/Words): no kind.
pub const OUT: u32 = lists::AT_LEAST + 1;

// The words of a test; at most and at least have no mask.
#[tactic(auto, unfolding(lists::specs::Words::item_words, lists::specs::Words::kind_of, lists::specs::Words::mask_of, lists::specs::Words::value_of))]
fn words_of(field: u32, test: Test) -> TestWords
    ensures { test_list result ≡ item_words (item field test) }
{
    let (kind, mask, value) = match test {
        Test::Equal(m, v) => (lists::EQUAL, m, v),
        Test::Differs(m, v) => (lists::DIFFERS, m, v),
        Test::AtMost(v) => (lists::AT_MOST, 0, v),
        Test::AtLeast(v) => (lists::AT_LEAST, 0, v),
    };
    TestWords {
        kind,
        field,
        mask,
        value,
    }
}

// The words of a test from a place on. With copy_from_slice a cut takes a sixth longer (measured) than with four stores.
#[tactic(auto, using(crate::proofs::Cutting::put_four))]
fn put_words(dst: &mut [u32], at: usize, words: TestWords)
    requires { at + test_words ≤ length dst.old }
    ensures { dst.new ≡ over at (test_list words) dst.old }
{
    dst[at] = words.kind;
    dst[at + lists::FIELD_AT] = words.field;
    dst[at + lists::MASK_AT] = words.mask;
    dst[at + lists::VALUE_AT] = words.value;
}

// A filter that is out: the mark, zeros behind.
#[tactic(auto, using(crate::proofs::Cutting::out_after))]
pub fn set_out(dst: &mut [u32])
    requires { length dst.old ≡ filter_slot }
    ensures { dst.new ≡ out_words }
{
    dst[0] = OUT;
    dst[1..].fill(0);
}

// What a fact about a field leaves of a test.
#[tactic(auto, unfolding(crate::specs::inner::Steps::left_of, lists::specs::Filters::item_of))]
fn left_of(words: TestWords, field: u32, fact: Option<Test>) -> Residue
    ensures { result ≡ left_of field fact (item_of (test_list words)) }
{
    if words.field == field {
        residue::residue_of(fields::full_of(field), fact, words.test())
    } else {
        Residue::Left(words.test())
    }
}

// One more test behind those kept so far: where the next one goes, or none where the filter is out.
#[tactic(auto, unfolding(crate::specs::inner::Steps::kept_words, crate::specs::inner::Steps::kept_at))]
fn put_rest(dst: &mut [u32], end: usize, field: u32, rest: Residue) -> Option<usize>
    requires { Room end dst.old }
    ensures { Kept end field rest dst.old dst.new result }
{
    match rest {
        Residue::True => Some(end),
        Residue::False => None,
        Residue::Left(test) => {
            put_words(dst, end, words_of(field, test));
            Some(end + TEST_WORDS)
        }
    }
}

// What a fact leaves of each test, closed up at the front: the place behind the last of them, or none where the filter is out.
fn cut_tests(
    src: &[u32; FILTER_WORDS],
    dst: &mut [u32],
    field: u32,
    fact: Option<Test>,
) -> Option<usize>
    requires { length dst.old ≡ filter_slot }
    ensures { Cut field fact src.now dst.new result }
{
    if src[0] == OUT {
        return None;
    }
    let mut end: usize = 0;
    for test in src.as_chunks::<TEST_WORDS>().0 {
        let words = TestWords::at(test, 0);
        if words.kind == 0 {
            return Some(end);
        }
        end = put_rest(dst, end, words.field, left_of(words, field, fact))?;
    }
    Some(end)
}

// What a fact about a field leaves of one filter.
#[tactic(auto, unfolding(crate::specs::inner::Steps::finish))]
pub fn cut_filter(src: &[u32; FILTER_WORDS], dst: &mut [u32], field: u32, fact: Option<Test>)
    requires { length dst.old ≡ filter_slot }
    ensures { dst.new ≡ written_filter (cut_standing field fact (read_filter src.now)) }
{
    match cut_tests(src, dst, field, fact) {
        Some(end) => dst[end..].fill(0),
        None => set_out(dst),
    }
}

// A filter at the start: the words of its tests, zeros behind.
pub fn fill(tests: &[u32], dst: &mut [u32])
    requires few { length tests.now ≤ filter_slot }
    requires one { length dst.old ≡ filter_slot }
    ensures { dst.new ≡ tests.now ++ replicate (filter_slot - length tests.now) 0 }
{
    words::copy_into(dst, tests);
    dst[tests.len()..].fill(0);
}
