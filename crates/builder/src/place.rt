// States are met and placed: each state builds its ways and each way builds its state.
use crate::Met;
use crate::rooms::Builder;
use residue::Outcome;

impl Builder<'_> {
    ghost use Rattle.builder.specs.inner.Builders.{Same, ReadyIn, AskingIn, GoodIn, StatePlacedIn, WayPlacedIn};

    // Builds the way of an outcome from the state in slot `at`, which has a question: its state, and that state's ways if it is new; says how many slots are used then, and nothing where a new state found none. Fewer tests remain in the new state, so this ends.
    #[cycle(place_state_place_way)]
    fn place_way(&mut self, at: usize, o: Outcome, used: usize) -> Option<usize>
        requires ready { ReadyIn self.old at used }
        requires asking { AskingIn self.old at }
        ensures same { Same self.old self.new }
        ensures placed { WayPlacedIn self.old o at used result self.new }
    {
        match self.meet(at, o, used)? {
            Met::Old(number) => {
                tables::put_next(self.table, at, o, number as u32);
                Some(used)
            }
            Met::New => {
                let now = self.place_state(used, used + 1)?;
                tables::put_next(self.table, at, o, used as u32);
                Some(now)
            }
        }
    }

    // Builds the ways of the state in slot `at`, each to its end before the next, and says how many slots are used then; nothing where a new state found none.
    #[cycle(place_state_place_way)]
    pub fn place_state(&mut self, at: usize, used: usize) -> Option<usize>
        requires ready { ReadyIn self.old at used }
        requires good { GoodIn self.old at }
        ensures same { Same self.old self.new }
        ensures placed { StatePlacedIn self.old at used result self.new }
    {
        if !self.asks(at) {
            return Some(used);
        }
        let first = self.place_way(at, Outcome::Holds, used)?;
        let second = self.place_way(at, Outcome::Fails, first)?;
        self.place_way(at, Outcome::Absent, second)
    }
}
