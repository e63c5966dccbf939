// The activity lamp: whether any filter matches a frame, without saying which (change request P4).
#![tactic(auto)]

ghost use Rattle.std.specs.Prelude.{◌≡◌, Ok};
ghost use Rattle.fields.specs.Header.{reading_at};
ghost use Rattle.lists.specs.Filters.{item_of, filters_of, tests_in};
ghost use Rattle.lists.specs.Ranks.{rank_sets};
ghost use Rattle.lists.specs.Refusals.{listed};
ghost use Rattle.lists.specs.Words.{test_list};
ghost use Rattle.states.specs.Runs.{way_of};
ghost use Rattle.states.specs.States.{start};
ghost use Rattle.lamp.specs.Lamp.{lamp_from, lamp_of};
ghost use Rattle.lamp.specs.inner.Records.{record_asks, Lighting};

use fields::{Header, MAX_FRAME};
use lists::{Counts, MAX_FILTERS, TestWords};
use refusals::{Refusal, Refused};
use residue::Outcome;
use sets::Set;
use slots::{FILTER_WORDS, SLOT_WORDS};
use tables::{KIND_AT, Record, Table};

// What the lamp shows, lit or dark, with the questions asked.
#[derive(Clone, Copy, Debug, PartialEq, Eq)]
pub enum Lamp {
    Lit(u32),
    Dark(u32),
}

// Whether a record asks a question. Where there is none to ask the record's kind alone counts.
#[tactic(auto, unfolding(crate::specs::inner::Records::record_asks, lists::specs::Words::words_of))]
fn asks(words: &Record, question: TestWords) -> bool
    ensures { result ≡ record_asks words.now question }
{
    let asked = TestWords::at(words, KIND_AT);
    if question.kind == 0 {
        asked.kind == 0
    } else {
        asked == question
    }
}

// What a question comes to.
#[tactic(auto, unfolding(states::specs::Runs::way_of, residue::specs::Facts::outcome_of, lists::specs::Filters::item_of))]
fn way_of(header: &Header, question: TestWords) -> Outcome
    ensures { result ≡ way_of (reading_at header.now.present header.now.values) (item_of (test_list question)) }
{
    match header.reading(question.field) {
        Some(x) if residue::test_holds(question.test(), x) => Outcome::Holds,
        Some(_) => Outcome::Fails,
        None => Outcome::Absent,
    }
}

// The walk from record 0 and the start of an accepted list on, over a header that was read. The state is made in lent words, each next one in the room beside it.
fn lamp_from(
    list: &[u32],
    ranks: &[Set; MAX_FILTERS],
    header: &Header,
    table: &Table,
    state: &mut [u32],
    room: &mut [u32],
) -> Result<Lamp, Refused<u32>>
    requires lighting { Lighting list.now state.old room.old }
    requires ranked { ranks.now ≡ rank_sets (filters_of list.now) }
    ensures { result ≡ lamp_from (filters_of list.now) table.now.words.now table.now.states (reading_at header.now.present header.now.values) (tests_in (filters_of list.now)) 0 0 (start (filters_of list.now)) }
{
    slots::start_into(list, state, ranks);
    let mut at: u32 = 0;
    let mut asked: u32 = 0;
    loop {
        let question = slots::question_of(state);
        let held = slots::held_set(state);
        let record = table.record(at);
        let right = asks(record, question);
        let is_other = !right;
        if is_other {
            return Err(Refusal::Table.into());
        }
        let is_lit = held != sets::EMPTY;
        if is_lit {
            return Ok(Lamp::Lit(asked));
        }
        if question.kind == 0 {
            return Ok(Lamp::Dark(asked));
        }
        let way = way_of(header, question);
        at = record[tables::next_at(way)];
        if table.states <= at {
            return Err(Refusal::Table.into());
        }
        slots::step_by(state, room, ranks, question, way);
        words::copy_into(state, room);
        asked += 1;
    }
}

// The lamp for an accepted list: the words of two states and the rank sets are its own.
fn light_accepted(
    list: &[u32],
    counts: Counts,
    header: &Header,
    table: &Table,
) -> Result<Lamp, Refused<u32>>
    requires { listed list.now ≡ Ok counts }
    ensures { result ≡ lamp_from (filters_of list.now) table.now.words.now table.now.states (reading_at header.now.present header.now.values) (tests_in (filters_of list.now)) 0 0 (start (filters_of list.now)) }
{
    // First of all, since the compiler makes words zero twice whose place in the code is further down.
    let mut state = [0u32; SLOT_WORDS];
    let mut room = [0u32; SLOT_WORDS];
    let mut ranks = [sets::EMPTY; MAX_FILTERS];
    lists::rank_sets(list, &mut ranks);
    let width = FILTER_WORDS * counts.filters as usize;
    lamp_from(
        list,
        &ranks,
        header,
        table,
        &mut state[..width],
        &mut room[..width],
    )
}

// Whether anything matches, for any list, frame, table and number of states.
#[tactic(auto, using(fields::proofs::laws::Header::read_once), unfolding(crate::specs::Lamp::lamp_of, crate::specs::Lamp::lamp_by))]
pub fn light(
    list: &[u32],
    frame: &[u8],
    port: u8,
    table: &[u32],
    states: u32,
) -> Result<Lamp, Refused<u32>>
    ensures { result ≡ lamp_of list.now frame.now port table.now states }
{
    let counts = lists::check(list)?;
    if MAX_FRAME < frame.len() {
        return Err(Refusal::LongFrame.into());
    }
    let table = Table::new(table, states).ok_or(Refusal::Table)?;
    let mut header = Header::new();
    header.read(frame, port);
    light_accepted(list, counts, &header, &table)
}
