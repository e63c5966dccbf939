// A list that stands as text is compiled into a lent table (document 01, "Numbers to try", the paragraph on the program).
#![tactic(auto)]

ghost use Rattle.builder.specs.Outcome.{Answered};
ghost use Rattle.text_builder.specs.Outcome.{text_outcome};

use refusals::Refused;
use text::MAX_ITEMS;

// Compiles a list that stands as text into the lent table, with the lent scratch; every text, table and scratch is fine.
pub fn build_text(text: &[u8], table: &mut [u32], scratch: &mut [u32]) -> Result<u32, Refused<u32>>
    ensures { Answered (text_outcome text.now table.old scratch.old) result table.new scratch.new }
{
    let mut words = [0u32; MAX_ITEMS];
    // Not by `?`: each answer has its place, so that a wrong one is refused for what it says.
    match text::read_words(text, &mut words) {
        Ok(count) => builder::build(&words[..count], table, scratch),
        Err(refusal) => Err(refusal.into()),
    }
}
