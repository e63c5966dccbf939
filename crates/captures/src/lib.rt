// A capture (a classic libpcap file) is replayed through a list, part after part: where the parts end does not matter (change request P10).
#![tactic(auto)]

ghost use Rattle.std.specs.Prelude.{◌≡◌, ◌++◌, ℕ, ◌+◌, ◌≤◌, ◌<◌, List, length, take, drop, codes, decimal, Some, Ok};
ghost use Rattle.lists.specs.Filters.{max_filters, Filter, filters_of};
ghost use Rattle.lists.specs.Refusals.{listed};
ghost use Rattle.text.specs.Text.{words_of};
ghost use Rattle.captures.specs.Files.{file_header, record_header, word_of, begins};
ghost use Rattle.captures.specs.Replay.{next_count, tally_room, last_tallies, count_up, count_set, counted, numbered};
ghost use Rattle.captures.specs.Parts.{amid, paused, ran, went_on, WentOn, ending, begun_by};
ghost use Rattle.captures.specs.inner.Steps.{gone, opened, Skipped, Went, fitted};
ghost use Rattle.captures.specs.declared.Stand.TheVariants.{Start, Within};
ghost use Rattle.refusals.specs.Numbers.{refused};
ghost use Rattle.refusals.specs.declared.Refusal.TheVariants.{CutRecord};

use fields::MAX_FRAME;
use lists::Counts;
use refusals::{Refusal, Refused};
use sets::Set;
use std::fmt;
use text::MAX_ITEMS;

// The bytes of the file's header and of a record's, and where the link type and the two lengths stand in them.
const FILE_HEADER: usize = 24;

const RECORD_HEADER: usize = 16;

const LINK_AT: usize = 20;

const CAPTURED_AT: usize = 8;

const ORIGINAL_AT: usize = 12;

// The numbers that such a file begins with, by its stamps, and the one link type.
const MICROSECONDS: u32 = 0xa1b2c3d4;

const NANOSECONDS: u32 = 0xa1b23c4d;

const ETHERNET: u32 = 1;

const LONGEST: u32 = MAX_FRAME as u32;

// Behind the tallies of the filters stands that of the frames with a match, and so far behind it those of the frames
// unmatched, captured short and too long.
const UNMATCHED: usize = 1;

const SHORT: usize = 2;

const LONG: usize = 3;

// So many tallies in all stand behind those of the filters.
pub const LAST_TALLIES: usize = 4;

// The order in which the bytes of a file's numbers stand: the highest first, or last.
#[derive(Clone, Copy, Debug, PartialEq, Eq)]
pub enum Order {
    Big,
    Little,
}

// What the text of an accepted list comes to: so many words, and so many tallies for its filters and behind them.
#[derive(Clone, Copy, Debug, PartialEq, Eq)]
pub struct Ready {
    pub words: usize,
    pub tallies: usize,
}

// A place within the records: the order of the file's numbers, so many bytes to skip of the record that was counted last,
// and so many records begun.
#[derive(Clone, Copy, Debug, PartialEq, Eq)]
pub struct Reading {
    pub order: Order,
    pub left: u32,
    pub number: u64,
}

// A refusal by its number, and the number of the filter or record that it names, 0 where none is. A standing that a caller hands
// over may hold any number.
#[derive(Clone, Copy, Debug, PartialEq, Eq)]
pub struct Numbered {
    pub number: u32,
    pub place: u64,
}

impl From<Refused<u64>> for Numbered {
    ghost from_gives = { λ refused answer. answer ≡ numbered refused };

    fn from(refused: Refused<u64>) -> Numbered {
        Numbered {
            number: refused.refusal.number(),
            place: refused.place,
        }
    }
}

// As the program prints it: the number, and the place.
impl fmt::Display for Numbered {
    ghost output = { λ refusal. Some (codes "refused " ++ decimal refusal.number ++ codes " " ++ decimal refusal.place) };

    fn fmt<W: fmt::Write>(&self, f: &mut fmt::Formatter<W>) -> fmt::Result {
        write!(f, "refused {} {}", self.number, self.place)
    }
}

// Where a replay stands: before the file's header, within the records, or at a refusal.
#[derive(Clone, Copy, Debug, PartialEq, Eq)]
pub enum Stand {
    Start,
    Within(Reading),
    Refusing(Numbered),
}

// So many bytes are taken, and where the replay stands behind them. The bytes are lent, so that their number is told.
#[derive(Clone, Copy)]
struct Gone {
    taken: usize,
    stand: Stand,
}

// Where a replay stands, and how many bytes at the front of the buffer, which is lent, wait for more.
#[derive(Clone, Copy, Debug, PartialEq, Eq)]
pub struct Pause {
    pub stand: Stand,
    pub held: usize,
}

// A list that was accepted, what checking it answered, and as many tallies as it takes.
#[derive(Drop)]
struct Counting<'a> {
    list: &'a [u32],
    checked: Counts,
    counts: &'a mut [u64],
    ghost accepted: { listed list.now ≡ Ok checked },
    ghost room: { length counts.now ≡ tally_room checked.filters },
}

// The number at a place, in a byte order.
#[tactic(auto, unfolding(crate::specs::Files::word_of, crate::specs::Files::spelt))]
fn word_at(s: &[u8], at: usize, order: Order) -> u32
    requires { at + 4 ≤ length s.now }
    ensures { result ≡ word_of order s.now at }
{
    let bytes = [s[at], s[at + 1], s[at + 2], s[at + 3]];
    match order {
        Order::Big => u32::from_be_bytes(bytes),
        Order::Little => u32::from_le_bytes(bytes),
    }
}

// Whether the bytes begin as a file of that order does.
#[tactic(auto, unfolding(crate::specs::Files::begins, crate::specs::Files::is_magic))]
fn begins_so(s: &[u8], order: Order) -> bool
    requires { file_header ≤ length s.now }
    ensures { result ≡ begins order s.now }
{
    let magic = word_at(s, 0, order);
    magic == MICROSECONDS || magic == NANOSECONDS
}

// Where a replay stands behind the file's header. Its version is not looked at.
#[tactic(auto, unfolding(crate::specs::inner::Steps::opened, crate::specs::Files::linked, crate::specs::Files::order_of))]
fn opened(s: &[u8]) -> Stand
    requires { file_header ≤ length s.now }
    ensures { result ≡ opened s.now }
{
    let order = if begins_so(s, Order::Big) {
        Order::Big
    } else {
        Order::Little
    };
    if begins_so(s, order) && word_at(s, LINK_AT, order) == ETHERNET {
        return Stand::Within(Reading {
            order,
            left: 0,
            number: 0,
        });
    }
    Stand::Refusing(Refused::<u64>::from(Refusal::Capture).into())
}

// A count goes up by one; the greatest stays as it is.
#[tactic(auto, unfolding(crate::specs::Replay::next_count))]
fn next_count(x: u64) -> u64
    ensures { result ≡ next_count x }
{
    x.saturating_add(1)
}

// Counts up the tally at a place.
#[tactic(auto, unfolding(crate::specs::Replay::count_up))]
fn count_up(counts: &mut [u64], i: usize)
    requires { i < length counts.old }
    ensures { counts.new ≡ count_up i counts.old }
{
    counts[i] = next_count(counts[i]);
}

// Counts each of the first n filters that is in a set.
#[tactic(auto, using(crate::specs::laws::Tallies::set_turn), unfolding(crate::specs::Replay::count_set))]
fn count_set(counts: &mut [u64], n: usize, set: Set)
    requires n_in_bounds { n ≤ length counts.old }
    requires few { n ≤ max_filters }
    ensures { counts.new ≡ count_set n set counts.old }
{
    for i in 0..n {
        if sets::has(set, i as u32) {
            count_up(counts, i);
        }
    }
}

// Takes the file's header; none where more bytes are needed.
fn open_file(s: &[u8]) -> Option<Gone>
    ensures { (fs : List Filter) (ts : List ℕ) → Went fs Start ts s.now result ts }
{
    if s.len() < FILE_HEADER {
        return None;
    }
    Some(Gone {
        taken: FILE_HEADER,
        stand: opened(s),
    })
}

impl Reading {
    // Where a replay stands behind one more record, of which so many bytes are left to skip.
    fn behind(self, left: u32) -> Stand
        ensures { result ≡ amid self.order left (next_count self.number) }
    {
        Stand::Within(Reading {
            order: self.order,
            left,
            number: next_count(self.number),
        })
    }

    // Passes what is left of a record that was counted, or as much of it as there is.
    fn skip(self, s: &[u8]) -> Gone
        requires left { 0 < self.left }
        requires some { 0 < length s.now }
        ensures { Skipped self s.now result }
    {
        let taken = s.len().min(self.left as usize);
        let left = self.left - taken as u32;
        Gone {
            taken,
            stand: Stand::Within(Reading { left, ..self }),
        }
    }
}

impl Counting<'_> {
    ghost use Rattle.captures.specs.inner.Kept.{Kept};

    // How many filters the list has.
    fn filters(&self) -> usize
        ensures value { result ≡ self.now.checked.filters }
        ensures few { result ≤ max_filters }
    {
        self.checked.filters as usize
    }

    // Counts a frame that was matched.
    #[tactic(auto, unfolding(crate::specs::Replay::counted))]
    fn count_frame(&mut self, set: Set)
        ensures kept { Kept self.old self.new }
        ensures counts { self.new.counts.now ≡ counted self.old.checked.filters set self.old.counts.now }
    {
        let n = self.filters();
        count_set(self.counts, n, set);
        let place = if set == sets::EMPTY { n + UNMATCHED } else { n };
        count_up(self.counts, place);
    }

    // Counts a record by its header alone, at so many tallies behind those of the filters. What was captured of it is left to skip.
    fn pass(&mut self, reading: Reading, captured: u32, place: usize) -> Gone
        requires { place < last_tallies }
        ensures kept { Kept self.old self.new }
        ensures counts { self.new.counts.now ≡ count_up (self.old.checked.filters + place) self.old.counts.now }
        ensures gone { result ≡ gone record_header (amid reading.order captured (next_count reading.number)) }
    {
        let n = self.filters();
        count_up(self.counts, n + place);
        Gone {
            taken: RECORD_HEADER,
            stand: reading.behind(captured),
        }
    }

    // A record's header, and its frame if it is to be matched; none where more bytes are needed.
    #[tactic(auto, using(crate::proofs::Goings::waiting))]
    fn record(&mut self, reading: Reading, s: &[u8]) -> Option<Gone>
        requires { reading.left ≡ 0 }
        ensures kept { Kept self.old self.new }
        ensures went { Went (filters_of self.old.list.now) (Within reading) self.old.counts.now s.now result self.new.counts.now }
    {
        if s.len() < RECORD_HEADER {
            return None;
        }
        let captured = word_at(s, CAPTURED_AT, reading.order);
        let original = word_at(s, ORIGINAL_AT, reading.order);
        let is_short = captured < original;
        if is_short {
            return Some(self.pass(reading, captured, SHORT));
        }
        let is_long = LONGEST < captured;
        if is_long {
            return Some(self.pass(reading, captured, LONG));
        }
        let end = RECORD_HEADER + captured as usize;
        if s.len() < end {
            return None;
        }
        let set = scanner::scan_accepted(self.list, self.filters(), &s[RECORD_HEADER..end], 0);
        self.count_frame(set);
        Some(Gone {
            taken: end,
            stand: reading.behind(0),
        })
    }

    // Goes on by one header, one record or one run of skipped bytes; none where more bytes are needed.
    fn step(&mut self, stand: Stand, s: &[u8]) -> Option<Gone>
        ensures kept { Kept self.old self.new }
        ensures went { Went (filters_of self.old.list.now) stand self.old.counts.now s.now result self.new.counts.now }
    {
        if s.is_empty() {
            return None;
        }
        match stand {
            Stand::Start => open_file(s),
            Stand::Within(reading) if reading.left == 0 => self.record(reading, s),
            Stand::Within(reading) => Some(reading.skip(s)),
            Stand::Refusing(_) => Some(Gone {
                taken: s.len(),
                stand,
            }),
        }
    }

    // Goes on as far as the bytes reach: each step says how many it took.
    fn run(&mut self, stand: Stand, s: &[u8]) -> Gone
        ensures kept { Kept self.old self.new }
        ensures within { result.taken ≤ length s.now }
        ensures stands { ran (filters_of self.old.list.now) stand self.old.counts.now s.now ≡ paused result.stand self.new.counts.now (drop result.taken s.now) }
    {
        let mut taken = 0;
        let mut here = stand;
        while let Some(gone) = self.step(here, &s[taken..]) {
            taken += gone.taken;
            here = gone.stand;
        }
        Gone { taken, stand: here }
    }

    // Goes on with the bytes of the buffer up to an end. Those that wait for more come to its front.
    fn advance(&mut self, stand: Stand, buffer: &mut [u8], end: usize) -> Pause
        requires { end ≤ length buffer.old }
        ensures kept { Kept self.old self.new }
        ensures went { WentOn (ran (filters_of self.old.list.now) stand self.old.counts.now (take end buffer.old)) buffer.old result buffer.new self.new.counts.now }
    {
        let gone = self.run(stand, &buffer[..end]);
        buffer.copy_within(gone.taken..end, 0);
        Pause {
            stand: gone.stand,
            held: end - gone.taken,
        }
    }
}

// Checks a list. Where it is refused, the filter's number is as wide as a record's.
fn check(list: &[u32]) -> Result<Counts, Refused<u64>>
    ensures { result ≡ listed list.now }
{
    lists::check(list).map_err(|refused| Refused {
        refusal: refused.refusal,
        place: u64::from(refused.place),
    })
}

// Reads a list's text into the words, and checks it. The words behind them stay as they are.
#[tactic(auto, using(text::specs::laws::Reading::reads_fit))]
pub fn begin(text: &[u8], words: &mut [u32; MAX_ITEMS]) -> Result<Ready, Refused<u64>>
    ensures { (result ≡ begun_by text.now) × (words.new ≡ words_of text.now ++ drop (length (words_of text.now)) words.old) }
{
    let count = text::read_words(text, words)?;
    let list = &words[..count];
    let checked = check(list)?;
    Ok(Ready {
        words: count,
        tallies: checked.filters as usize + LAST_TALLIES,
    })
}

// Checks a list, and that there are as many tallies as it takes.
#[tactic(auto, unfolding(crate::specs::inner::Steps::fitted))]
fn check_fit(list: &[u32], tallies: usize) -> Result<Counts, Refused<u64>>
    ensures { result ≡ fitted list.now tallies }
{
    let checked = check(list)?;
    if tallies != checked.filters as usize + LAST_TALLIES {
        return Err(Refusal::Tallies.into());
    }
    Ok(checked)
}

// Goes on with so many bytes at the front of the buffer, or all where it has fewer; those that wait for more come to its front,
// always fewer than a record of the longest frame. Any list, standing and tallies will do: a list is checked each time,
// and tallies of another number than it takes are refused with 24.
pub fn go_on(
    list: &[u32],
    stand: Stand,
    buffer: &mut [u8],
    held: usize,
    counts: &mut [u64],
) -> Pause
    ensures { WentOn (went_on list.now stand counts.old (take held buffer.old)) buffer.old result buffer.new counts.new }
{
    match check_fit(list, counts.len()) {
        Ok(checked) => {
            let end = held.min(buffer.len());
            let mut counting = Counting {
                list,
                checked,
                counts,
            };
            counting.advance(stand, buffer, end)
        }
        Err(refused) => Pause {
            stand: Stand::Refusing(refused.into()),
            held: 0,
        },
    }
}

// The answer at the end of the file, where so many bytes wait: so many records, or a refusal with the record's number.
#[tactic(auto, unfolding(crate::specs::Parts::ending))]
pub fn finish(stand: Stand, held: usize) -> Result<u64, Numbered>
    ensures { result ≡ ending stand held }
{
    match stand {
        Stand::Start => Err(Refused::<u64>::from(Refusal::Capture).into()),
        Stand::Within(reading) => {
            let number = reading.number;
            if reading.left != 0 {
                return Err(cut_at(number));
            }
            if held != 0 {
                return Err(cut_at(next_count(number)));
            }
            Ok(number)
        }
        Stand::Refusing(refused) => Err(refused),
    }
}

// The end of the file cuts the record that is named.
fn cut_at(place: u64) -> Numbered
    ensures { result ≡ numbered (refused CutRecord place) }
{
    Refused {
        refusal: Refusal::CutRecord,
        place,
    }
    .into()
}
