// The header fields of a frame (document 01, "Fields"): a module for each header, and what they share.
#![tactic(auto)]

ghost use Rattle.std.specs.Prelude.{◌≡◌, ℕ, ◌<◌, ◌∷◌, []};
ghost use Rattle.sets.specs.Sets.{set_of, member};
ghost use Rattle.fields.specs.Widths.{field_count};
ghost use Rattle.fields.specs.Seen.{chances, seen};
ghost use Rattle.fields.specs.Header.{present_set, reading_at, blank, HeaderOf};
ghost use Rattle.fields.specs.inner.Sight.{seen_at};
ghost use Rattle.fields.specs.inner.Parts.{Added, lacking};

use bytes::byte_at;
use ethernet::ETHER_TYPE;
use ipv4::{PROTOCOL, PROTOCOL_AT};
use transport::{DESTINATION_PORT, ICMP_CODE, TCP, TCP_FLAGS};

mod bytes;
mod ethernet;
mod ipv4;
mod transport;
mod widths;

pub use ipv4::Part;
pub use widths::full_of;

// How many fields there are, and the last one's number.
pub const FIELDS: usize = 14;

pub const LAST_FIELD: u32 = FIELDS as u32 - 1;
// The bytes of the longest frame that is not refused.
pub const MAX_FRAME: usize = 1522;
// The number of the box port, the one field that comes from outside the frame.
const BOX_PORT: u32 = 13;

// A word for each field.
pub type Values = [u32; FIELDS];

// The header of a frame, read once: the set of the fields that the frame has (field i is bit i), and a word for each field.
#[derive(Clone, Copy, Debug, PartialEq, Eq)]
pub struct Header {
    pub present: u32,
    pub values: Values,
}

// What reading a field answers: its value; none; or cut, where a frame that goes on could have it.
#[derive(Clone, Copy, Debug, PartialEq, Eq)]
pub enum Seen {
    Has(u32),
    None,
    Cut,
}

// The set of the fields that a frame could have that begins with these bytes.
#[tactic(auto, using(crate::proofs::laws::Cut::packet_type), unfolding(crate::specs::Seen::chances, crate::specs::Seen::may_carry, crate::specs::inner::Parts::carried, crate::specs::Seen::could, sets::specs::Sets::set_of))]
fn possible_set(frame: &[u8]) -> u32
    ensures { result ≡ set_of (chances frame.now) }
{
    if !ethernet::may_be_type(frame) {
        return 1 << BOX_PORT;
    }
    if !ipv4::may_be_packet(frame) {
        return (1 << BOX_PORT) + (1 << ETHER_TYPE);
    }
    let header = (1 << BOX_PORT) + (1 << ETHER_TYPE) + ipv4::HEADER_SET;
    if !ipv4::may_begin(frame) {
        return header;
    }
    header + transport::carried_set(frame, PROTOCOL_AT)
}

impl Header {
    // What becomes of a field that is found: its value goes into its word, and its number into the set of the fields present.
    #[tactic(auto, unfolding(crate::specs::Header::noted, crate::specs::Header::filled))]
    fn put(&mut self, number: u32, value: u32)
        requires { number < field_count }
        ensures { Added ((number, value) ∷ []) self.old self.new }
    {
        self.values[number as usize] = value;
        self.present |= 1 << number;
    }

    // Whether the frame has a field. By the word itself: made as wide as a set it takes more than one instruction to look at a bit.
    #[tactic(auto, unfolding(sets::specs::Sets::member))]
    fn has(&self, number: u32) -> bool
        requires { number < field_count }
        ensures { result ≡ member number self.now.present }
    {
        (self.present >> number) % 2 == 1
    }

    // No field, and all words 0.
    pub fn new() -> Header
        ensures { result ≡ blank }
    {
        Header {
            present: 0,
            values: [0; FIELDS],
        }
    }

    // Puts the value of each field that the frame has into its word, leaves the other words, and has the set of these fields alone.
    // Any frame will do, an empty one too. A copy of this stands in each caller, where the set is kept in a register.
    #[inline(always)]
    #[tactic(auto, using(crate::proofs::laws::Filling::noted_append, crate::proofs::laws::Filling::filled_append), unfolding(crate::specs::Header::present_set, crate::specs::Header::noted, crate::specs::Header::filled, crate::specs::Fields::puts, crate::specs::Ethernet::ethernet, crate::specs::Ipv4::internet, crate::specs::Ipv4::protocol, crate::specs::Ipv4::transport, crate::specs::Ipv4::transport_start, crate::specs::Ipv4::transport_end, crate::specs::Ipv4::header_length, crate::specs::Ipv4::total_length))]
    pub fn read(&mut self, frame: &[u8], port: u8)
        ensures { HeaderOf frame.now port self.old self.new }
    {
        self.present = 0;
        self.put(BOX_PORT, u32::from(port));
        let Some(ether_type) = ethernet::type_in(frame) else {
            return;
        };
        // Looked for before the next store, so that the compiler need not load again what was just read.
        let packet = ipv4::packet_in(frame);
        self.put(ETHER_TYPE, ether_type);
        let Some(part) = packet else {
            return;
        };
        self.fill_internet(frame);
        self.fill_transport(&frame[part.start..part.end], byte_at(frame, PROTOCOL_AT));
    }

    // Field `number`: a bit of the set and a word.
    #[tactic(auto, unfolding(crate::specs::Header::reading_at))]
    pub fn reading(&self, number: u32) -> Option<u32>
        ensures { result ≡ reading_at self.now.present self.now.values number }
    {
        let value = self.values.get(number as usize)?;
        if self.has(number) { Some(*value) } else { None }
    }

    // The set of the fields that are cut, by those that are present. A part that has its protocol's last field has them all, and a
    // later fragment has no part: no frame could have more, so of most frames no more is looked at.
    pub fn cut_set(&self, frame: &[u8]) -> u32
        requires { (p : ℕ) × (self.now.present ≡ present_set frame.now p) }
        ensures { result ≡ lacking frame.now self.now.present }
    {
        // Lent anew: the compiler hands a slice over in registers only to a function that takes parts of it and does not pass it on.
        let whole = &frame[..];
        if self.has(TCP_FLAGS) {
            return 0;
        }
        if self.has(ICMP_CODE) {
            return 0;
        }
        if self.has(DESTINATION_PORT) && byte_at(whole, PROTOCOL_AT) != TCP {
            return 0;
        }
        if self.has(PROTOCOL) && !ipv4::may_begin(whole) {
            return 0;
        }
        possible_set(whole) & !self.present
    }

    // Field `number`, with none and cut apart, by the set of the fields that are cut.
    #[tactic(auto, unfolding(crate::specs::inner::Sight::seen_at, crate::specs::Seen::seen_of))]
    fn seen(&self, cut: u32, number: u32) -> Seen
        ensures { result ≡ seen_at self.now.present cut self.now.values number }
    {
        match self.reading(number) {
            Some(x) => Seen::Has(x),
            None if number <= LAST_FIELD && sets::has(u64::from(cut), number) => Seen::Cut,
            None => Seen::None,
        }
    }
}

// Field `number` of a frame; none above the last number.
pub fn read_field(frame: &[u8], port: u8, number: u32) -> Seen
    ensures { result ≡ seen frame.now port number }
{
    let mut header = Header::new();
    header.read(frame, port);
    header.seen(header.cut_set(frame), number)
}
