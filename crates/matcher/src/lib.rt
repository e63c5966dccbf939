// A frame is walked through a table (document 01, "Refusal numbers", the paragraph on classifying).
#![tactic(auto)]

ghost use Rattle.std.specs.Prelude.{◌≡◌, ◌<◌, cond, false, ltb, get_or};
ghost use Rattle.residue.specs.Tests.{holds};
ghost use Rattle.fields.specs.Header.{HeaderOf, blank};
ghost use Rattle.fields.specs.Fields.{field};
ghost use Rattle.fields.specs.Seen.{seen};
ghost use Rattle.fields.specs.Widths.{field_count};
ghost use Rattle.fields.specs.inner.Sight.{cut_set};
ghost use Rattle.lists.specs.Filters.{test_of, kind_at, mask_at, value_at};
ghost use Rattle.matcher.specs.Walk.{walk_from, walk};
ghost use Rattle.matcher.specs.inner.Records.{ends_at, end_at, meets};
ghost use Rattle.matcher.specs.inner.Chains.{links_at, Chained};

use fields::{Header, LAST_FIELD, MAX_FRAME};
use lists::{AT_LEAST, AT_MOST, DIFFERS, EQUAL};
use refusals::Refusal;
use sets::Set;
use tables::{
    ABSENT_AT, FAILS_AT, FIELD_AT, HOLDS_AT, KIND_AT, MASK_AT, OUT_AT, Record, SURE_AT, Table,
    VALUE_AT,
};

// What the record shows that a walk ended at: its sure set and its out set; the questions asked; and whether some of them met
// a cut field.
#[derive(Clone, Copy, Debug, PartialEq, Eq)]
pub struct Found {
    pub sure: Set,
    pub out: Set,
    pub asked: u32,
    pub cut: bool,
}

// The end of a walk: at a final record, or with the allowance used, each with what was found.
#[derive(Clone, Copy, Debug, PartialEq, Eq)]
pub enum Walk {
    Done(Found),
    Stopped(Found),
}

// A frame, the box port that it came in at and its header, which was read off it.
#[derive(Clone, Copy)]
struct Sight<'a> {
    frame: &'a [u8],
    port: u8,
    header: &'a Header,
    ghost is_read: { HeaderOf frame.now port blank header.now },
}

impl Sight<'_> {
    // What the frame has in a field.
    fn reading(&self, number: u32) -> Option<u32>
        ensures { result ≡ field self.now.frame.now self.now.port number }
    {
        self.header.reading(number)
    }

    // Whether one of the absent fields that questions met is cut. Most walks meet none, and the frame is not looked at again. Their
    // set is wider than the set of the fields present so that no bit is made for both, which each question would pay for.
    #[tactic(auto, using(crate::proofs::Meeting::unmet, fields::proofs::laws::CutSet::cut_set_lem), unfolding(crate::specs::inner::Records::meets))]
    fn marked(&self, met: u64) -> bool
        ensures { result ≡ meets (cut_set self.now.frame.now self.now.port) met }
    {
        met != 0 && self.header.cut_set(self.frame) as u64 & met != 0
    }
}

// Where a walk stands: at record s, with so many questions left of its allowance.
#[derive(Clone, Copy)]
struct Place {
    s: u32,
    left: u32,
}

// A field that was read, and its value.
#[derive(Clone, Copy)]
struct Read {
    field: u32,
    x: u32,
    ghost is_field: { field < field_count },
}

// Whether the test that a record asks holds of a number. A record that was checked has no kind but 1 to 4. By the record's words: a
// Test made of them and then asked takes up to 24 instructions more a frame in the bench.
#[tactic(auto, unfolding(residue::specs::Tests::holds, lists::specs::Filters::test_of))]
fn holds(words: &Record, x: u32) -> bool
    ensures { result ≡ holds (test_of (get_or words.now kind_at 0) (get_or words.now mask_at 0) (get_or words.now value_at 0)) x }
{
    match words[KIND_AT] {
        EQUAL => x & words[MASK_AT] == words[VALUE_AT],
        DIFFERS => x & words[MASK_AT] != words[VALUE_AT],
        AT_MOST => x <= words[VALUE_AT],
        _ => words[VALUE_AT] <= x,
    }
}

// Whether the walk goes no further than a record. Each test is a branch that is seldom taken.
#[tactic(auto, unfolding(crate::specs::inner::Records::ends_at))]
fn ends(words: &Record, left: u32) -> bool
    ensures { result ≡ ends_at words.now left }
{
    let kind = words[KIND_AT];
    kind == 0 || AT_LEAST < kind || LAST_FIELD < words[FIELD_AT] || left == 0
}

// The answer at such a record. Damage comes before the allowance; the field of a final record is not looked at.
#[tactic(auto, unfolding(crate::specs::inner::Records::end_at, crate::specs::inner::Records::found_in, crate::specs::Walk::arrive))]
fn end(words: &Record, asked: u32, cut: bool) -> Result<Walk, Refusal>
    ensures { result ≡ end_at words.now asked cut }
{
    let found = Found {
        sure: tables::set_at(words, SURE_AT),
        out: tables::set_at(words, OUT_AT),
        asked,
        cut,
    };
    if words[KIND_AT] == 0 {
        return Ok(Walk::Done(found));
    }
    if AT_LEAST < words[KIND_AT] || LAST_FIELD < words[FIELD_AT] {
        return Err(Refusal::Table);
    }
    Ok(Walk::Stopped(found))
}

// Whether a record asks the field by an equality that misses its value and leads to record next.
#[tactic(auto, unfolding(crate::specs::inner::Chains::links_at))]
fn links(words: &Record, read: Read, next: u32) -> bool
    ensures { result ≡ links_at words.now read.field read.x next }
{
    words[KIND_AT] == EQUAL
        && words[FIELD_AT] == read.field
        && read.x & words[MASK_AT] != words[VALUE_AT]
        && words[FAILS_AT] == next
}

// Passes such links from a place on, each two further than the one before, with a question each, and none beyond the states. A table
// that asks one field for many values is a chain of them; adding two goes on without waiting for the next number of each. It goes by the
// numbers of states.
fn chain(table: &Table, from: Place, read: Read) -> Place
    requires { from.s < table.now.states }
    ensures { Chained table.now.words.now table.now.states read.field read.x from.left from.s result.left result.s }
{
    let mut place = from;
    let stop = place.left.saturating_sub((table.states - 1 - place.s) / 2);
    while stop < place.left && links(table.record(place.s), read, place.s + 2) {
        place.s += 2;
        place.left -= 1;
    }
    place
}

// The place behind one whose question failed and led to next. A chain is looked for only where that is two further on: in most tables it seldom is.
fn follow(table: &Table, at: Place, next: u32, read: Read) -> Place
    requires inside { at.s < table.now.states }
    requires next_inside { next < table.now.states }
    ensures { Chained table.now.words.now table.now.states read.field read.x at.left next result.left result.s }
{
    let place = Place { s: next, ..at };
    if next == at.s + 2 {
        return chain(table, place, read);
    }
    place
}

// A next number of which the table has a record.
fn inside(table: &Table, next: u32) -> Result<u32, Refusal>
    ensures { result ≡ cond (ltb next table.now.states) (Ok next) (Err Refusal.Table) }
{
    if table.states <= next {
        return Err(Refusal::Table);
    }
    Ok(next)
}

// The walk from record 0 on, by the numbers of states. Each way has its own load and its own test:
// one `next` for all ways would make each record wait for the one before it.
fn walk_from(sight: &Sight, table: &Table, allowance: u32) -> Result<Walk, Refusal>
    ensures { result ≡ walk_from table.now.words.now table.now.states (seen sight.now.frame.now sight.now.port) allowance 0 false 0 }
{
    let mut at = Place {
        s: 0,
        left: allowance,
    };
    let mut met: u64 = 0;
    loop {
        let words = table.record(at.s);
        if ends(words, at.left) {
            return end(words, allowance - at.left, sight.marked(met));
        }
        at.left -= 1;
        let Some(x) = sight.reading(words[FIELD_AT]) else {
            met |= 1 << words[FIELD_AT];
            at.s = inside(table, words[ABSENT_AT])?;
            continue;
        };
        if holds(words, x) {
            at.s = inside(table, words[HOLDS_AT])?;
            continue;
        }
        let next = inside(table, words[FAILS_AT])?;
        let field = words[FIELD_AT];
        at = follow(table, at, next, Read { field, x });
    }
}

// The answer for any frame, words of a table and number of states.
#[tactic(auto, unfolding(crate::specs::Walk::walk))]
pub fn classify(
    frame: &[u8],
    port: u8,
    table: &[u32],
    states: u32,
    allowance: u32,
) -> Result<Walk, Refusal>
    ensures { result ≡ walk frame.now port table.now states allowance }
{
    if MAX_FRAME < frame.len() {
        return Err(Refusal::LongFrame);
    }
    let table = Table::new(table, states).ok_or(Refusal::Table)?;
    let mut header = Header::new();
    header.read(frame, port);
    let sight = Sight {
        frame,
        port,
        header: &header,
    };
    walk_from(&sight, &table, allowance)
}
