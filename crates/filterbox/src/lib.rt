// The static library: the public calls under C names (include/filterbox.h).
#![tactic(auto)]

ghost use Rattle.std.specs.Prelude.{◌≡◌};
ghost use Rattle.slots.specs.Words.{slot_words};
ghost use Rattle.builder.specs.Outcome.{outcome};
ghost use Rattle.matcher.specs.Walk.{walk};
ghost use Rattle.fields.specs.Seen.{seen};
ghost use Rattle.scanner.specs.Scan.{scanned};
ghost use Rattle.lamp.specs.Lamp.{numbers_of, lamp_of};
ghost use Rattle.gateway.specs.Gateway.{judged, emptied};
ghost use Rattle.filterbox.specs.Numbers.{built_with, Compiled, ended_with, classified, matched, field_with, lamp_with, verdict_of, Tallied};

use fields::Seen;
use lamp::Lamp;
use matcher::{Found, Walk};
use refusals::{Refusal, Refused};
use sets::Set;

// The words of a slot, as a C caller gets them.
const SCRATCH_WORDS: u32 = slots::SLOT_WORDS as u32;

// The refusal's number, 0 where the table was built; and the number of states, or the filter's number.
#[repr(C)]
#[derive(Clone, Copy)]
pub struct FilterboxBuilt {
    pub refusal: u32,
    pub number: u32,
}

impl From<Result<u32, Refused<u32>>> for FilterboxBuilt {
    ghost from_gives = { λ built numbers. numbers ≡ built_with built };

    #[tactic(auto, unfolding(crate::specs::Numbers::built_with))]
    fn from(built: Result<u32, Refused<u32>>) -> FilterboxBuilt {
        match built {
            Ok(states) => FilterboxBuilt {
                refusal: 0,
                number: states,
            },
            Err(refused) => FilterboxBuilt {
                refusal: refused.refusal.number(),
                number: refused.place,
            },
        }
    }
}

// Compiles a list into the table, with the scratch, of which each slot of the table needs so many words as filterbox_scratch_words says.
#[unsafe(no_mangle)]
pub extern "C" fn filterbox_build(
    list: &[u32],
    table: &mut [u32],
    scratch: &mut [u32],
) -> FilterboxBuilt
    ensures { Compiled (outcome list.now table.old scratch.old) result table.new scratch.new }
{
    builder::build(list, table, scratch).into()
}

// The scratch words that building takes for each slot of the table.
#[unsafe(no_mangle)]
pub extern "C" fn filterbox_scratch_words() -> u32
    ensures { result ≡ slot_words }
{
    SCRATCH_WORDS
}

// How a walk ended (0 refused, 1 done, 2 stopped), the refusal's number or 0, the sure set and the out set in two words each, the
// questions asked, and 1 where some of them met a cut field, else 0.
#[repr(C)]
#[derive(Clone, Copy)]
pub struct FilterboxAnswer {
    pub ended: u32,
    pub refusal: u32,
    pub sure_low: u32,
    pub sure_high: u32,
    pub out_low: u32,
    pub out_high: u32,
    pub asked: u32,
    pub cut: u32,
}

fn ended_with(ended: u32, refusal: u32, found: Found) -> FilterboxAnswer
    ensures { result ≡ ended_with ended refusal found }
{
    FilterboxAnswer {
        ended,
        refusal,
        sure_low: sets::low_half(found.sure),
        sure_high: sets::high_half(found.sure),
        out_low: sets::low_half(found.out),
        out_high: sets::high_half(found.out),
        asked: found.asked,
        cut: u32::from(found.cut),
    }
}

impl From<Result<Walk, Refusal>> for FilterboxAnswer {
    ghost from_gives = { λ walked numbers. numbers ≡ classified walked };

    #[tactic(auto, unfolding(crate::specs::Numbers::classified))]
    fn from(walked: Result<Walk, Refusal>) -> FilterboxAnswer {
        match walked {
            Ok(Walk::Done(found)) => ended_with(1, 0, found),
            Ok(Walk::Stopped(found)) => ended_with(2, 0, found),
            Err(refusal) => {
                let none = Found {
                    sure: 0,
                    out: 0,
                    asked: 0,
                    cut: false,
                };
                ended_with(0, refusal.number(), none)
            }
        }
    }
}

// Walks a frame, which came in at a box port, through a table of so many states, with at most `allowance` questions.
#[unsafe(no_mangle)]
pub extern "C" fn filterbox_classify(
    frame: &[u8],
    port: u8,
    table: &[u32],
    states: u32,
    allowance: u32,
) -> FilterboxAnswer
    ensures { result ≡ classified (walk frame.now port table.now states allowance) }
{
    matcher::classify(frame, port, table, states, allowance).into()
}

// The refusal's number or 0, the filter's number for refusals 1 to 9, and the match set in two words, which is empty where refused.
#[repr(C)]
#[derive(Clone, Copy)]
pub struct FilterboxScanned {
    pub refusal: u32,
    pub filter: u32,
    pub set_low: u32,
    pub set_high: u32,
}

impl From<Result<Set, Refused<u32>>> for FilterboxScanned {
    ghost from_gives = { λ scanned numbers. numbers ≡ matched scanned };

    #[tactic(auto, unfolding(crate::specs::Numbers::matched))]
    fn from(scanned: Result<Set, Refused<u32>>) -> FilterboxScanned {
        match scanned {
            Ok(set) => FilterboxScanned {
                refusal: 0,
                filter: 0,
                set_low: sets::low_half(set),
                set_high: sets::high_half(set),
            },
            Err(refused) => FilterboxScanned {
                refusal: refused.refusal.number(),
                filter: refused.place,
                set_low: 0,
                set_high: 0,
            },
        }
    }
}

// Asks each filter of a list in turn of a frame, which came in at a box port. No table is needed, and nothing is written.
#[unsafe(no_mangle)]
pub extern "C" fn filterbox_scan(list: &[u32], frame: &[u8], port: u8) -> FilterboxScanned
    ensures { result ≡ matched (scanned list.now frame.now port) }
{
    scanner::scan(list, frame, port).into()
}

// The refusal's number or 0, the filter's number for refusals 1 to 9, 1 where the lamp is lit, and the questions asked. A refusal has zeros for the last two.
#[repr(C)]
#[derive(Clone, Copy)]
pub struct FilterboxLamp {
    pub refusal: u32,
    pub filter: u32,
    pub lit: u32,
    pub asked: u32,
}

impl From<Result<Lamp, Refused<u32>>> for FilterboxLamp {
    ghost from_gives = { λ shown numbers. numbers ≡ lamp_with (numbers_of shown) };

    fn from(shown: Result<Lamp, Refused<u32>>) -> FilterboxLamp {
        match shown {
            Ok(Lamp::Lit(asked)) => FilterboxLamp {
                refusal: 0,
                filter: 0,
                lit: 1,
                asked,
            },
            Ok(Lamp::Dark(asked)) => FilterboxLamp {
                refusal: 0,
                filter: 0,
                lit: 0,
                asked,
            },
            Err(refused) => FilterboxLamp {
                refusal: refused.refusal.number(),
                filter: refused.place,
                lit: 0,
                asked: 0,
            },
        }
    }
}

// Whether any filter of a list matches a frame, which came in at a box port, by a walk through a table of so many states that was built from the list.
#[unsafe(no_mangle)]
pub extern "C" fn filterbox_lamp(
    list: &[u32],
    frame: &[u8],
    port: u8,
    table: &[u32],
    states: u32,
) -> FilterboxLamp
    ensures { result ≡ lamp_with (numbers_of (lamp_of list.now frame.now port table.now states)) }
{
    lamp::light(list, frame, port, table, states).into()
}

// The refusal's number, 0 where the frame was judged; and the verdict, 0 where refused.
#[repr(C)]
#[derive(Clone, Copy)]
pub struct FilterboxJudged {
    pub refusal: u32,
    pub verdict: u32,
}

impl From<Result<u32, Refusal>> for FilterboxJudged {
    ghost from_gives = { λ judged numbers. numbers ≡ verdict_of judged };

    #[tactic(auto, unfolding(crate::specs::Numbers::verdict_of))]
    fn from(judged: Result<u32, Refusal>) -> FilterboxJudged {
        match judged {
            Ok(verdict) => FilterboxJudged {
                refusal: 0,
                verdict,
            },
            Err(refusal) => FilterboxJudged {
                refusal: refusal.number(),
                verdict: 0,
            },
        }
    }
}

// Judges a frame, which came in at a box port, by a table of so many states, a verdict for each filter and a standing one, and counts
// it in the tallies.
#[unsafe(no_mangle)]
pub extern "C" fn filterbox_judge(
    frame: &[u8],
    port: u8,
    table: &[u32],
    states: u32,
    verdicts: &[u32],
    standing: u32,
    tallies: &mut [u32],
) -> FilterboxJudged
    ensures { Tallied (judged frame.now port table.now states verdicts.now standing tallies.old) result tallies.new }
{
    gateway::judge(frame, port, table, states, verdicts, standing, tallies).into()
}

// Makes every tally 0.
#[unsafe(no_mangle)]
pub extern "C" fn filterbox_clear(tallies: &mut [u32])
    ensures { tallies.new ≡ emptied tallies.old }
{
    gateway::clear(tallies);
}

// Whether a field is there (0 none, 1 value, 2 cut), and its value, 0 where it is not.
#[repr(C)]
#[derive(Clone, Copy)]
pub struct FilterboxField {
    pub kind: u32,
    pub value: u32,
}

impl From<Seen> for FilterboxField {
    ghost from_gives = { λ seen numbers. numbers ≡ field_with seen };

    #[tactic(auto, unfolding(crate::specs::Numbers::field_with))]
    fn from(seen: Seen) -> FilterboxField {
        match seen {
            Seen::Has(x) => FilterboxField { kind: 1, value: x },
            Seen::None => FilterboxField { kind: 0, value: 0 },
            Seen::Cut => FilterboxField { kind: 2, value: 0 },
        }
    }
}

// Reads field `number` of a frame of any length, which came in at a box port; none above the last number.
#[unsafe(no_mangle)]
pub extern "C" fn filterbox_field(frame: &[u8], port: u8, number: u32) -> FilterboxField
    ensures { result ≡ field_with (seen frame.now port number) }
{
    fields::read_field(frame, port, number).into()
}
