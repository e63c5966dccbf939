// The IPv4 header (RFC 791).
ghost use Rattle.std.specs.Prelude.{◌≡◌, ◌&&◌, ◌/◌, ◌%◌, ◌≤◌, leb, eqb, length};
ghost use Rattle.fields.specs.Ipv4.{internet_puts};
ghost use Rattle.fields.specs.Seen.{may_be_internet, may_begin};
ghost use Rattle.fields.specs.inner.Parts.{Added, packet_in};

use crate::Header;
use crate::bytes::{byte_at, four_at, two_at};
use crate::ethernet::{IP_START, TYPE_AT};

// The EtherType, and the bytes of the shortest header and of the shortest frame that has one.
const IPV4: u16 = 0x0800;

const LEAST_HEADER: usize = 20;

const LEAST_FIRST: u8 = 16 * 4 + LEAST_HEADER as u8 / 4;

const MOST_FIRST: u8 = 16 * 4 + 15;

const LEAST_FRAME: usize = IP_START + LEAST_HEADER;
// Where the total length, the fragment's flags and offset, and the protocol stand.
const TOTAL_AT: usize = IP_START + 2;

const FRAGMENT_AT: usize = IP_START + 6;

pub const PROTOCOL_AT: usize = IP_START + 9;
// The fields of this header, by their numbers.
const TYPE_OF_SERVICE: u32 = 1;

const TOTAL_LENGTH: u32 = 2;

const FRAGMENT: u32 = 3;

const TIME_TO_LIVE: u32 = 4;

pub const PROTOCOL: u32 = 5;

const SOURCE: u32 = 6;

const DESTINATION: u32 = 7;
// All of them, as a set.
pub const HEADER_SET: u32 = (2 << DESTINATION) - (1 << TYPE_OF_SERVICE);

// Where the transport part of a whole packet starts and ends.
#[derive(Clone, Copy, Debug, PartialEq, Eq)]
pub struct Part {
    pub start: usize,
    pub end: usize,
}

// Whether this can be the first byte of a header: version 4 and a header length of five fours at the least, which is one range.
fn is_first(byte: u8) -> bool
    ensures { result ≡ (eqb (byte / 16) 4 && leb 5 (byte % 16)) }
{
    matches!(byte, LEAST_FIRST..=MOST_FIRST)
}

// The packet in a frame.
#[tactic(auto, unfolding(crate::specs::Ipv4::internet, crate::specs::Ipv4::version, crate::specs::Ipv4::header_length, crate::specs::Ipv4::total_length, crate::specs::Ipv4::transport_start, crate::specs::Ipv4::transport_end))]
pub fn packet_in(frame: &[u8]) -> Option<Part>
    ensures { result ≡ packet_in frame.now }
{
    if frame.len() < LEAST_FRAME || two_at(frame, TYPE_AT) != u32::from(IPV4) {
        return None;
    }
    let first = frame[IP_START];
    if !is_first(first) {
        return None;
    }
    let header = 4 * usize::from(first % 16);
    let total = two_at(frame, TOTAL_AT) as usize;
    if total < header {
        return None;
    }
    let start = IP_START + header;
    let end = IP_START + total;
    if frame.len() < end {
        return None;
    }
    // Only the fragment with offset 0 begins with the transport header.
    if two_at(frame, FRAGMENT_AT) % 8192 != 0 {
        return Some(Part { start, end: start });
    }
    Some(Part { start, end })
}

// Whether a frame that begins with these bytes could have this header. Its total length may be any.
#[tactic(auto, unfolding(crate::specs::Seen::may_be_internet, crate::specs::Seen::could))]
pub fn may_be_packet(frame: &[u8]) -> bool
    ensures { result ≡ may_be_internet frame.now }
{
    let [high, low] = IPV4.to_be_bytes();
    frame.get(TYPE_AT).is_none_or(|byte| *byte == high)
        && frame.get(TYPE_AT + 1).is_none_or(|byte| *byte == low)
        && frame.get(IP_START).is_none_or(|byte| is_first(*byte))
}

// Whether a packet that begins with these bytes could have a transport part: its offset is 0 so far as it is there.
#[tactic(auto, unfolding(crate::specs::Seen::may_begin, crate::specs::Seen::could))]
pub fn may_begin(frame: &[u8]) -> bool
    ensures { result ≡ may_begin frame.now }
{
    frame.get(FRAGMENT_AT).is_none_or(|byte| *byte % 32 == 0)
        && frame.get(FRAGMENT_AT + 1).is_none_or(|byte| *byte == 0)
}

impl Header {
    // The packet's own fields.
    #[tactic(auto, unfolding(crate::specs::Header::noted, crate::specs::Header::filled, crate::specs::Ipv4::internet_puts, crate::specs::Ipv4::total_length, crate::specs::Ipv4::protocol))]
    pub(crate) fn fill_internet(&mut self, frame: &[u8])
        requires { 34 ≤ length frame.now }
        ensures { Added (internet_puts frame.now) self.old self.new }
    {
        self.put(TYPE_OF_SERVICE, byte_at(frame, IP_START + 1));
        self.put(TOTAL_LENGTH, two_at(frame, TOTAL_AT));
        self.put(FRAGMENT, two_at(frame, FRAGMENT_AT));
        self.put(TIME_TO_LIVE, byte_at(frame, IP_START + 8));
        self.put(PROTOCOL, byte_at(frame, PROTOCOL_AT));
        self.put(SOURCE, four_at(frame, IP_START + 12));
        self.put(DESTINATION, four_at(frame, IP_START + 16));
    }
}
