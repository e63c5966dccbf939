// A text of list words: decimal numbers that stand apart by spaces or line ends (document 01, "Numbers to try" and refusal 14).
#![tactic(auto)]

ghost use Rattle.std.specs.Prelude.{◌≡◌, ◌≤◌, IfOk, length, take};
ghost use Rattle.text.specs.Text.{max_text, separates, Reads};
ghost use Rattle.text.specs.inner.Items.{max_items};
ghost use Rattle.text.specs.inner.Steps.{more, step};

use refusals::Refusal;
use std::io;
use std::io::Read;

// The most bytes of a text.
pub const MAX_TEXT: usize = 16384;

// The most words that it can have.
pub const MAX_ITEMS: usize = 8192;

// What a byte does: it leaves the reading between items, or inside one with the number that its bytes spell so far, or ends an item.
#[derive(Clone, Copy)]
enum Step {
    Skip,
    Digit(u32),
    Word(u32),
}

// Whether a byte stands between items.
#[tactic(auto, unfolding(crate::specs::Text::separates))]
fn is_separator(byte: u8) -> bool
    ensures { result ≡ separates byte }
{
    byte == b' ' || byte == b'\n'
}

// One more byte of an item. The sum is made in 64 bits, where it can't wrap.
#[tactic(auto, unfolding(crate::specs::inner::Steps::more, crate::specs::Text::is_digit))]
fn more_of(value: u32, byte: u8) -> Result<Step, Refusal>
    ensures { result ≡ more value byte }
{
    if !byte.is_ascii_digit() {
        return Err(Refusal::Text);
    }
    let longer = u64::from(value) * 10 + u64::from(byte - b'0');
    match u32::try_from(longer) {
        Ok(value) => Ok(Step::Digit(value)),
        Err(_) => Err(Refusal::Text),
    }
}

// What a byte does at a place: behind the bytes of an item that spell a number, or between items. An item's first digit goes behind 0.
#[tactic(auto, unfolding(crate::specs::inner::Steps::step))]
fn step_by(place: Option<u32>, byte: u8) -> Result<Step, Refusal>
    ensures { result ≡ step place byte }
{
    if is_separator(byte) {
        return Ok(place.map_or(Step::Skip, Step::Word));
    }
    more_of(place.unwrap_or(0), byte)
}

// The items of a text that is not too long. There are at most 8,192, since a separator stands between two.
fn read_items(text: &[u8], words: &mut [u32]) -> Result<usize, Refusal>
    requires short { length text.now ≤ max_text }
    requires room { max_items ≤ length words.old }
    ensures { Reads text.now words.old words.new result }
{
    let mut count = 0;
    let mut place = None;
    for &byte in text {
        // Not by `?`: the refusal is named where it is answered, so that a wrong answer there is refused for what it says.
        let Ok(step) = step_by(place, byte) else {
            return Err(Refusal::Text);
        };
        place = match step {
            Step::Skip => None,
            Step::Digit(value) => Some(value),
            Step::Word(value) => {
                words[count] = value;
                count += 1;
                None
            }
        };
    }
    let Some(value) = place else {
        return Ok(count);
    };
    words[count] = value;
    Ok(count + 1)
}

// Reads a text's items into the words; the words behind them stay as they are.
pub fn read_words(text: &[u8], words: &mut [u32; MAX_ITEMS]) -> Result<usize, Refusal>
    ensures { Reads text.now words.old words.new result }
{
    let is_too_long = MAX_TEXT < text.len();
    if is_too_long {
        return Err(Refusal::Text);
    }
    read_items(text, words)
}

// Reads behind the bytes held until the room is full or the input ends, and tells where. The bytes held stay, also where a read fails.
// A loop of its own: `read_exact` does not tell how many bytes came, and `read_to_end` wants a heap.
pub fn fill(input: &mut impl Read, room: &mut [u8], held: usize) -> io::Result<usize>
    requires { held ≤ length room.old }
    ensures kept { take held room.new ≡ take held room.old }
    ensures within { IfOk result (λ end. (held ≤ end) × (end ≤ length room.new)) }
{
    let mut end = held;
    while end < room.len() {
        match input.read(&mut room[end..])? {
            0 => break,
            more => end += more,
        }
    }
    Ok(end)
}
