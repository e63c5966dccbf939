// What placing states has at hand.
ghost use Rattle.std.specs.Prelude.{◌≡◌, ◌*◌, ◌≤◌, length};
ghost use Rattle.lists.specs.Filters.{max_filters};
ghost use Rattle.tables.specs.Tables.{record_words, max_slots};
ghost use Rattle.slots.specs.Words.{filter_slot, slot_words};
ghost use Rattle.slots.specs.Asking.{filters_in};

use lists::MAX_FILTERS;
use sets::Set;

// The rank sets of a list, a number of slots, and the lent words: the table has the records of the slots used, the scratch their
// states. The next state is made in `words`, outside the slots: these are lent too, and have the length of a state. An array of its own
// in `meet` or `step` would stand in each frame of the recursion.
#[derive(Drop)]
pub struct Builder<'a> {
    pub ranks: &'a [Set; MAX_FILTERS],
    pub slots: usize,
    pub table: &'a mut [u32],
    pub scratch: &'a mut [u32],
    pub words: &'a mut [u32],
    ghost few: { slots ≤ max_slots },
    ghost tabled: { record_words * slots ≤ length table.now },
    ghost scratched: { slot_words * slots ≤ length scratch.now },
    ghost filters: { filters_in words.now ≤ max_filters },
    ghost whole: { length words.now ≡ filter_slot * filters_in words.now },
}
