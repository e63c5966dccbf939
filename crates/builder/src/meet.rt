// The state that an outcome leads to is looked for among those met, and stored where it is new.
ghost use Rattle.std.specs.Prelude.{◌≡◌};
ghost use Rattle.slots.specs.inner.Slots.{step_words};
ghost use Rattle.slots.specs.Asking.{filters_in};
ghost use Rattle.builder.specs.inner.Memory.{slot_at};
ghost use Rattle.builder.specs.inner.Promises.{Stepping};

use crate::Met;
use crate::rooms::Builder;
use lists::MAX_FILTERS;
use residue::Outcome;
use sets::Set;
use slots::SLOT_WORDS;
use tables::{Fresh, RECORD_WORDS};

// The state after the question of the state in slot `at` came to an outcome.
fn step_into(
    scratch: &[u32],
    at: usize,
    words: &mut [u32],
    ranks: &[Set; MAX_FILTERS],
    outcome: Outcome,
)
    requires { Stepping at scratch.now words.old }
    ensures { words.new ≡ step_words (filters_in words.old) ranks.now outcome (slot_at (filters_in words.old) scratch.now at) }
{
    let from = SLOT_WORDS * at;
    let state = &scratch[from..from + words.len()];
    slots::step_by(state, words, ranks, slots::question_of(state), outcome);
}

impl Builder<'_> {
    ghost use Rattle.std.specs.Prelude.{◌≡◌, ◌<◌};
    ghost use Rattle.tables.specs.inner.Records.{fresh_by};
    ghost use Rattle.slots.specs.inner.Slots.{step_words, asks_in};
    ghost use Rattle.automaton.specs.inner.Placing.{fresh_of};
    ghost use Rattle.builder.specs.inner.Memory.{states_in, sought_in};
    ghost use Rattle.builder.specs.inner.Builders.{filters, machine, Same, Made, state_at, Search, ReadyIn, MeetingIn, StoredIn};

    // The state in slot `at`.
    fn slot(&self, at: usize) -> &[u32]
        requires { at < self.now.slots }
        ensures { result.now ≡ state_at self.now at }
    {
        let from = SLOT_WORDS * at;
        &self.scratch[from..from + self.words.len()]
    }

    // Whether the state in slot `at` has a question.
    pub fn asks(&self, at: usize) -> bool
        requires { at < self.now.slots }
        ensures { result ≡ asks_in (filters self.now) (state_at self.now at) }
    {
        slots::question_of(self.slot(at)).kind != 0
    }

    // The record of the state that was made last, with no next numbers yet.
    pub fn fresh(&self) -> Fresh
        ensures { fresh_by result ≡ fresh_of (machine self.now) self.now.words.now }
    {
        let ranks = self.ranks;
        let out = slots::out_set(self.words);
        Fresh {
            out,
            sure: slots::sure_set(self.words, ranks, out),
            asked: slots::question_of(self.words),
        }
    }

    // Where the state made last stands among those of the slots used; fresh is its record. A state whose record has another question or other sets is another: its slot is not looked at.
    fn find(&self, fresh: Fresh, used: usize) -> Option<usize>
        requires { Search self.now used fresh }
        ensures { result ≡ sought_in (filters self.now) self.now.ranks.now (states_in (filters self.now) used self.now.scratch.now) self.now.words.now }
    {
        let mut from = 0;
        while let Some(next) = tables::agreeing(self.table, from, used, fresh) {
            let is_same = slots::same(self.slot(next), self.words);
            if is_same {
                return Some(next);
            }
            from = next + 1;
        }
        None
    }

    // Stores the state made last in the next slot, and its record behind those already placed.
    pub fn store(&mut self, fresh: Fresh, used: usize)
        requires { used < self.old.slots }
        ensures same { Same self.old self.new }
        ensures stored { fresh_by fresh ≡ fresh_of (machine self.old) self.old.words.now → StoredIn self.old used self.new }
    {
        words::copy_into(&mut self.scratch[SLOT_WORDS * used..], self.words);
        tables::write_fresh(&mut self.table[RECORD_WORDS * used..], fresh);
    }

    // Makes the state after the question of the state in slot `at` came to an outcome. By a function of its own over the whole slots:
    // of a slice behind `self` that a call is lent a part of, a proof knows no more than the length afterwards.
    fn step(&mut self, at: usize, outcome: Outcome)
        requires { at < self.old.slots }
        ensures { Made self.old (step_words (filters self.old) self.old.ranks.now outcome (state_at self.old at)) self.new }
    {
        let scratch = &mut *self.scratch;
        let words = &mut *self.words;
        step_into(scratch, at, words, self.ranks, outcome);
    }

    // Meets the state that an outcome leads to from the state in slot `at`. It is made outside the slots: where all are used an old state is still recognised, and a new one comes to nothing.
    pub fn meet(&mut self, at: usize, o: Outcome, used: usize) -> Option<Met>
        requires { ReadyIn self.old at used }
        ensures same { Same self.old self.new }
        ensures met { MeetingIn self.old o at used result self.new }
    {
        self.step(at, o);
        let fresh = self.fresh();
        if let Some(number) = self.find(fresh, used) {
            return Some(Met::Old(number));
        }
        let all_used = used == self.slots;
        if all_used {
            return None;
        }
        self.store(fresh, used);
        Some(Met::New)
    }
}
