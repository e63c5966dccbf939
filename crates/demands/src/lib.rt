// The customer's demands, stated and proved from the promises of the public calls (specs/Demands.antt), and both calls as one.
#![tactic(auto)]

ghost use Rattle.builder.specs.Outcome.{outcome};
ghost use Rattle.demands.specs.Whole.{Whole, Rooms};

use matcher::Walk;
use refusals::Refusal;

// Builds the list and walks the frame through what was built. A refusal of either call is the answer; the filter that has a list's fault is not told.
#[tactic(auto, using(crate::specs::laws::Whole::whole_refused))]
pub fn build_and_classify(
    list: &[u32],
    table: &mut [u32],
    scratch: &mut [u32],
    frame: &[u8],
    port: u8,
    allowance: u32,
) -> Result<Walk, Refusal>
    ensures whole { Whole list.now table.old scratch.old frame.now port allowance result }
    ensures rooms { Rooms (outcome list.now table.old scratch.old) table.new scratch.new }
{
    match builder::build(list, table, scratch) {
        Ok(states) => matcher::classify(frame, port, table, states, allowance),
        Err(refused) => Err(refused.refusal),
    }
}
