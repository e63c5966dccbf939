// A list is compiled into a lent table (document 01, "States and the table" and "Refusal numbers").
#![tactic(auto)]

ghost use Rattle.std.specs.Prelude.{◌≡◌, ℕ, Ok};
ghost use Rattle.lists.specs.Filters.{filters_of};
ghost use Rattle.lists.specs.Refusals.{listed, counts};
ghost use Rattle.builder.specs.Outcome.{Answered, by_room, outcome};

use lists::MAX_FILTERS;
use refusals::{Refusal, Refused};
use slots::SLOT_WORDS;
use tables::RECORD_WORDS;

mod meet;
mod place;
mod rooms;
mod start;

// What meeting a state comes to: it stands at a place already, or it is new and now stored. An Option of an Option would say less.
#[derive(Clone, Copy)]
pub enum Met {
    Old(usize),
    New,
}

// Compiles an accepted list of n filters: the number of states.
fn build_accepted(
    list: &[u32],
    n: usize,
    table: &mut [u32],
    scratch: &mut [u32],
) -> Result<u32, Refused<u32>>
    requires { (k : ℕ) × (listed list.now ≡ Ok (counts n k)) }
    ensures { Answered (by_room (filters_of list.now) table.old scratch.old) result table.new scratch.new }
{
    let slots = tables::slots_of(table.len());
    if scratch.len() < SLOT_WORDS * slots {
        return Err(Refusal::ScratchRoom.into());
    }
    let mut ranks = [sets::EMPTY; MAX_FILTERS];
    lists::rank_sets(list, &mut ranks);
    let placed = start::place_start(&ranks, list, n, slots, table, scratch);
    words::clear(scratch, SLOT_WORDS * slots);
    let Some(states) = placed else {
        words::clear(table, RECORD_WORDS * slots);
        return Err(Refusal::TableRoom.into());
    };
    Ok(states as u32)
}

// Compiles a list into the lent table, with the lent scratch: the number of states, or a refusal with the filter's number or 0.
// Every list, table and scratch is fine.
pub fn build(list: &[u32], table: &mut [u32], scratch: &mut [u32]) -> Result<u32, Refused<u32>>
    ensures { Answered (outcome list.now table.old scratch.old) result table.new scratch.new }
{
    let counts = lists::check(list)?;
    build_accepted(list, counts.filters as usize, table, scratch)
}
