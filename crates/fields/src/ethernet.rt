// The Ethernet header.
ghost use Rattle.std.specs.Prelude.{◌≡◌};
ghost use Rattle.fields.specs.Seen.{may_be_type};
ghost use Rattle.fields.specs.inner.Parts.{type_in};

use crate::bytes::two_at;

// The field of this header, by its number.
pub const ETHER_TYPE: u32 = 0;
// Where it stands, and where the IP header begins.
pub const TYPE_AT: usize = 12;

pub const IP_START: usize = 14;
// A smaller number is a length of IEEE 802.3.
const LEAST_TYPE: u32 = 1536;

// Field 0.
#[tactic(auto, unfolding(crate::specs::Ethernet::ethernet, crate::specs::Ethernet::ether_type))]
pub fn type_in(frame: &[u8]) -> Option<u32>
    ensures { result ≡ type_in frame.now }
{
    if frame.len() < IP_START {
        return None;
    }
    let number = two_at(frame, TYPE_AT);
    if number < LEAST_TYPE {
        return None;
    }
    Some(number)
}

// Whether a frame that begins with these bytes could have field 0: its first byte decides.
#[tactic(auto, unfolding(crate::specs::Seen::may_be_type, crate::specs::Seen::could))]
pub fn may_be_type(frame: &[u8]) -> bool
    ensures { result ≡ may_be_type frame.now }
{
    frame
        .get(TYPE_AT)
        .is_none_or(|byte| LEAST_TYPE / 256 <= u32::from(*byte))
}
