// The start of a list is placed as state 0, and from it every state that follows.
ghost use Rattle.lists.specs.Filters.{filters_of};
ghost use Rattle.builder.specs.inner.Started.{Started, Startable};

use crate::rooms::Builder;
use lists::MAX_FILTERS;
use sets::Set;
use slots::{FILTER_WORDS, SLOT_WORDS};

impl Builder<'_> {
    ghost use Rattle.std.specs.Prelude.{◌≡◌, ℕ, Ok};
    ghost use Rattle.lists.specs.Refusals.{listed, counts};
    ghost use Rattle.slots.specs.inner.Slots.{start_words};
    ghost use Rattle.builder.specs.inner.Builders.{filters, Made};

    // Makes the start of the list.
    fn begin(&mut self, list: &[u32])
        requires { (k : ℕ) × (listed list.now ≡ Ok (counts (filters self.old) k)) }
        ensures { Made self.old (start_words (filters self.old) self.old.ranks.now list.now) self.new }
    {
        let ranks = self.ranks;
        slots::start_into(list, self.words, ranks);
    }
}

// Places the start and its ways; says how many slots are used then, and nothing where a state found none. The struct of what placing
// has at hand is made here.
pub fn place_start(
    ranks: &[Set; MAX_FILTERS],
    list: &[u32],
    n: usize,
    slots: usize,
    table: &mut [u32],
    scratch: &mut [u32],
) -> Option<usize>
    requires { Startable n slots ranks.now list.now table.old scratch.old }
    ensures { Started n slots ranks.now (filters_of list.now) table.old scratch.old result table.new scratch.new }
{
    let no_slots = slots == 0;
    if no_slots {
        return None;
    }
    let mut words = [0u32; SLOT_WORDS];
    let mut builder = Builder {
        ranks,
        slots,
        table,
        scratch,
        words: &mut words[..FILTER_WORDS * n],
    };
    builder.begin(list);
    let fresh = builder.fresh();
    builder.store(fresh, 0);
    builder.place_state(0, 1)
}
