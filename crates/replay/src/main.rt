// Replays the capture that the second argument names through the list of the first, and prints the tallies or the refusal
// (change request P10).
#![tactic(auto)]

ghost use Rattle.std.specs.Prelude.{◌≡◌, ◌≤◌, IfOk, length, replicate};
ghost use Rattle.replay.specs.inner.Reads.{all_tallies, Answers, TextAnswers};

use captures::{LAST_TALLIES, Numbered, Pause, Stand};
use lists::MAX_FILTERS;
use std::env::{Env, FillError};
use std::fs::Files;
use std::io::{ErrorKind, Read};
use std::{fs, io};
use text::{MAX_ITEMS, MAX_TEXT};

// The bytes that are held of a capture.
const BUFFER: usize = 65536;

// The longest name of a file that an argument may give.
const NAME: usize = 4096;

// One byte more than a text may have is kept, so that a longer one is seen.
const TEXT: usize = MAX_TEXT + 1;

// The tallies of the longest list.
const TALLIES: usize = MAX_FILTERS + LAST_TALLIES;

// A proved loop has to end, and nothing says that a file does. So many parts no run uses up.
const PARTS: u64 = u64::MAX;

// The answer to a capture: so many records, or a refusal with the record's number.
type Answer = Result<u64, Numbered>;

// A file can't be read, and a line on standard error has said why.
#[derive(Clone, Copy)]
struct Unread;

// A file that was opened, and the bytes of its name.
#[derive(Drop)]
struct Opened<F> {
    file: F,
    name: usize,
}

// What a replay comes to, in so many tallies.
#[derive(Clone, Copy)]
struct Ended {
    answer: Answer,
    tallies: usize,
}

// The numbers, one a line.
fn print_lines(rt: &impl Print, numbers: &[u64]) -> io::Result<()> {
    for number in numbers {
        println!(rt; "{number}")?;
    }
    Ok(())
}

// The tallies, or the refusal.
fn print_answer(rt: &impl Print, answer: Answer, counts: &[u64]) -> io::Result<()> {
    match answer {
        Ok(_) => print_lines(rt, counts),
        Err(refused) => println!(rt; "{refused}"),
    }
}

// Writes a line to standard error: the file's name and what failed.
fn fail(rt: &impl Eprint, name: &[u8], error: io::Error) -> Unread {
    let _ = match str::from_utf8(name) {
        Ok(text) => eprintln!(rt; "{text}: {error}"),
        Err(_) => eprintln!(rt; "{}: {error}", name.escape_ascii()),
    };
    Unread
}

// Opens the file of a name, which has to be text, or says why it can't.
fn open<R: Eprint + Files>(rt: &R, name: &[u8]) -> Result<R::File, Unread> {
    let file = match str::from_utf8(name) {
        Ok(text) => fs::open(rt, text),
        Err(_) => Err(io::Error::new(ErrorKind::InvalidInput, "the name is no UTF-8 text")),
    };
    file.map_err(|error| fail(rt, name, error))
}

// Why an argument gives no file's name. Both types are the library's, so no `From` of this crate can say it.
fn unnamed(error: FillError) -> io::Error {
    match error {
        FillError::NotPresent => io::Error::new(ErrorKind::InvalidInput, "Invalid argument"),
        FillError::TooLong => io::Error::new(ErrorKind::InvalidFilename, "File name too long"),
    }
}

// Opens the file that an argument names, or says why it can't.
fn open_named<R: Env + Eprint + Files>(
    rt: &R,
    argument: usize,
    path: &mut [u8],
) -> Result<Opened<R::File>, Unread>
    ensures { IfOk result (λ opened. opened.name ≤ length path.new) }
{
    let name = rt
        .arg(argument, path)
        .map_err(|error| fail(rt, b"replay: file name", unnamed(error)))?;
    let file = open(rt, &path[..name])?;
    Ok(Opened { file, name })
}

// Reads a capture to its end. At a refusal no more needs to be read.
fn replay(
    list: &[u32],
    file: &mut impl Read,
    buffer: &mut [u8],
    counts: &mut [u64],
) -> io::Result<Answer>
    ensures { Answers list.now counts.old result counts.new }
{
    let mut pause = Pause {
        stand: Stand::Start,
        held: 0,
    };
    for _ in 0..PARTS {
        let end = text::fill(file, buffer, pause.held)?;
        pause = captures::go_on(list, pause.stand, buffer, end, counts);
        if end < buffer.len() || matches!(pause.stand, Stand::Refusing(_)) {
            return Ok(captures::finish(pause.stand, pause.held));
        }
    }
    Err(io::Error::other("too many parts"))
}

// Reads the file that an argument names, as far as the room reaches; or says why it can't.
fn read_named(
    rt: &(impl Env + Eprint + Files),
    argument: usize,
    room: &mut [u8],
) -> Result<usize, Unread>
    ensures { IfOk result (λ end. end ≤ length room.new) }
{
    let mut path = [0u8; NAME];
    let Opened { mut file, name } = open_named(rt, argument, &mut path)?;
    text::fill(&mut file, room, 0).map_err(|error| fail(rt, &path[..name], error))
}

// Replays the capture that an argument names, or says why it can't.
fn replay_named(
    rt: &(impl Env + Eprint + Files),
    argument: usize,
    list: &[u32],
    counts: &mut [u64],
) -> Result<Answer, Unread>
    ensures { Answers list.now counts.old result counts.new }
{
    let mut path = [0u8; NAME];
    let Opened { mut file, name } = open_named(rt, argument, &mut path)?;
    let mut buffer = [0u8; BUFFER];
    replay(list, &mut file, &mut buffer, counts).map_err(|error| fail(rt, &path[..name], error))
}

// Replays the capture through the list that stands as text. Its tallies come to the front of the counts.
fn replay_text(
    rt: &(impl Env + Eprint + Files),
    text: &[u8],
    counts: &mut [u64],
) -> Result<Ended, Unread>
    requires { counts.old ≡ replicate all_tallies 0 }
    ensures { TextAnswers text.now result counts.new }
{
    let mut words = [0u32; MAX_ITEMS];
    match captures::begin(text, &mut words) {
        Err(refused) => Ok(Ended {
            answer: Err(refused.into()),
            tallies: 0,
        }),
        Ok(ready) => {
            let list = &words[..ready.words];
            let tallies = &mut counts[..ready.tallies];
            let answer = replay_named(rt, 2, list, tallies)?;
            Ok(Ended {
                answer,
                tallies: ready.tallies,
            })
        }
    }
}

// Whether there is such an argument, of any length.
fn is_given(rt: &impl Env, argument: usize) -> bool {
    let mut first = [0u8; 1];
    !matches!(rt.arg(argument, &mut first), Err(FillError::NotPresent))
}

fn main(rt: HostRuntime) -> io::Result<()> {
    if !is_given(&rt, 2) || is_given(&rt, 3) {
        let _ = rt.eprintln("replay: two file names are needed, a list and a capture");
        return Ok(());
    }
    let mut text = [0u8; TEXT];
    let Ok(end) = read_named(&rt, 1, &mut text) else {
        return Ok(());
    };
    let mut counts = [0u64; TALLIES];
    match replay_text(&rt, &text[..end], &mut counts) {
        Ok(ended) => print_answer(&rt, ended.answer, &counts[..ended.tallies]),
        Err(Unread) => Ok(()),
    }
}
