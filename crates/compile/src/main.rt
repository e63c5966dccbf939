// Compiles the list that stands as text on standard input, and prints its table or the refusal (document 01, "Numbers to try").
#![tactic(auto)]

ghost use Rattle.std.specs.Prelude.{◌≡◌, length};
ghost use Rattle.tables.specs.Tables.{record_words};

use slots::SLOT_WORDS;
use std::io;
use tables::RECORD_WORDS;
use text::MAX_TEXT;

// The table that is lent has so many slots.
const SLOTS: usize = 16;

// One byte more than a text may have is kept, so that a longer one is seen.
const ROOM: usize = MAX_TEXT + 1;

// The words, each behind a space, and the line's end.
fn print_words(rt: &impl Print, words: &[u32]) -> io::Result<()> {
    for word in words {
        print!(rt; " {word}")?;
    }
    println!(rt;)
}

// A state's line: its number and the words of its record.
fn print_state(rt: &impl Print, n: usize, record: &[u32]) -> io::Result<()>
    requires { length record.now ≡ record_words }
{
    print!(rt; "{n}")?;
    print_words(rt, record)
}

// One line a state.
fn print_states(rt: &impl Print, records: &[u32]) -> io::Result<()> {
    for (n, record) in records.chunks_exact(RECORD_WORDS).enumerate() {
        print_state(rt, n, record)?;
    }
    Ok(())
}

// Compiles a list that stands as text, and prints what that comes to.
fn compile(rt: &impl Print, text: &[u8]) -> io::Result<()> {
    let mut table = [0u32; SLOTS * RECORD_WORDS];
    let mut scratch = [0u32; SLOTS * SLOT_WORDS];
    match text_builder::build_text(text, &mut table, &mut scratch) {
        Ok(states) => {
            println!(rt; "states {states}")?;
            print_states(rt, &table[..RECORD_WORDS * states as usize])
        }
        Err(refused) => println!(rt; "{refused}"),
    }
}

fn main(rt: HostRuntime) -> io::Result<()> {
    let mut room = [0u8; ROOM];
    let end = text::fill(&mut rt.reader(), &mut room, 0)?;
    compile(&rt, &room[..end])
}
