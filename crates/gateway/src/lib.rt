// The gateway: a verdict for each frame, and a tally of what gave it (change request P5). It knows the matcher by its promises alone.
#![tactic(auto)]

ghost use Rattle.std.specs.Prelude.{◌≡◌, ◌<◌, length, get_or};
ghost use Rattle.gateway.specs.Gateway.{lowest_of, all_verdicts, verdicts_fit, judgement_of, counted_at, judged, emptied};

use lists::{MAX_FILTERS, MAX_TESTS};
use matcher::Walk;
use refusals::Refusal;
use sets::Set;

// A tally for each filter, and the last for frames that match none.
pub const TALLIES: usize = MAX_FILTERS + 1;

// The questions that a walk may ask: the most tests that a list can have.
pub const ALLOWANCE: u32 = MAX_FILTERS as u32 * MAX_TESTS as u32;

// The verdicts.
pub const PASS: u32 = 0;

pub const DROP: u32 = 1;

pub const DIVERT: u32 = 2;

// A tally that cannot be counted up.
const FULL: u32 = u32::MAX;

// A verdict for each filter, and the standing verdict for a frame that matches none. They are words: C lends the table of them.
#[derive(Clone, Copy)]
struct Verdicts<'a> {
    entries: &'a [u32],
    standing: u32,
}

// The number of the lowest-numbered filter in a set; that of the last tally where the set is empty: so many zeros stand below the
// lowest bit.
#[tactic(auto, using(crate::proofs::Zeros::zeros_lowest))]
fn lowest_of(set: Set) -> u32
    ensures { result ≡ lowest_of set }
{
    sets::zeros_below(set)
}

// Whether each entry of a verdict table is a verdict.
#[tactic(auto, unfolding(crate::specs::Gateway::all_verdicts))]
fn all_verdicts(verdicts: &[u32]) -> bool
    ensures { result ≡ all_verdicts verdicts.now }
{
    verdicts.iter().all(|verdict| *verdict <= DIVERT)
}

impl Verdicts<'_> {
    // Whether the table has an entry for each filter, and it and the standing verdict have verdicts alone.
    #[tactic(auto, unfolding(crate::specs::Gateway::verdicts_fit))]
    fn fit(&self) -> bool
        ensures { result ≡ verdicts_fit self.now.entries.now self.now.standing }
    {
        self.entries.len() == MAX_FILTERS && self.standing <= DIVERT && all_verdicts(self.entries)
    }

    // The verdict at a place of the table; the standing one behind its end.
    fn at(&self, place: usize) -> u32
        ensures { result ≡ get_or self.now.entries.now place self.now.standing }
    {
        self.entries.get(place).copied().unwrap_or(self.standing)
    }

    // Counts the frame at a place and answers the verdict there. A full tally refuses the frame.
    #[tactic(auto, unfolding(crate::specs::Gateway::counted_at))]
    fn count_frame(&self, place: usize, tallies: &mut [u32]) -> Result<u32, Refusal>
        requires { place < length tallies.old }
        ensures { judgement_of result tallies.new ≡ counted_at place self.now.entries.now self.now.standing tallies.old }
    {
        let before = tallies[place];
        if before == FULL {
            return Err(Refusal::FullTally);
        }
        tallies[place] = before + 1;
        Ok(self.at(place))
    }
}

// Judges a frame, which came in at a box port, by a table of so many states, a verdict for each filter and the standing verdict for
// a frame that matches none. Counts it in the tally of the filter that gave the verdict, or in the last tally. A walk that was stopped
// is refused, and a refusal changes no tally.
#[tactic(auto, using(crate::proofs::laws::Lowest::lowest_below), unfolding(crate::specs::Gateway::judged, crate::specs::Gateway::judged_by))]
pub fn judge(
    frame: &[u8],
    port: u8,
    table: &[u32],
    states: u32,
    verdicts: &[u32],
    standing: u32,
    tallies: &mut [u32],
) -> Result<u32, Refusal>
    ensures { judgement_of result tallies.new ≡ judged frame.now port table.now states verdicts.now standing tallies.old }
{
    if tallies.len() != TALLIES {
        return Err(Refusal::Tallies);
    }
    let verdicts = Verdicts {
        entries: verdicts,
        standing,
    };
    if !verdicts.fit() {
        return Err(Refusal::Verdicts);
    }
    match matcher::classify(frame, port, table, states, ALLOWANCE)? {
        Walk::Done(found) => verdicts.count_frame(lowest_of(found.sure) as usize, tallies),
        Walk::Stopped(_) => Err(Refusal::Table),
    }
}

// Makes every tally 0. A room of any length will do.
pub fn clear(tallies: &mut [u32])
    ensures { tallies.new ≡ emptied tallies.old }
{
    tallies.fill(0);
}
