// The transport part (RFC 768, 792, 793).
ghost use Rattle.std.specs.Prelude.{◌≡◌};
ghost use Rattle.sets.specs.Sets.{set_of};
ghost use Rattle.fields.specs.Transport.{tcp, udp, icmp, transport_puts};
ghost use Rattle.fields.specs.inner.Parts.{Added, carried};

use crate::Header;
use crate::bytes::two_at;

// Protocols.
pub const TCP: u32 = 6;

const UDP: u32 = 17;

const ICMP: u32 = 1;
// The fields that transport parts have, by their numbers.
const SOURCE_PORT: u32 = 8;

pub const DESTINATION_PORT: u32 = 9;

pub const TCP_FLAGS: u32 = 10;

const ICMP_TYPE: u32 = 11;

pub const ICMP_CODE: u32 = 12;
// The fields of each protocol, as sets.
const UDP_SET: u32 = (1 << SOURCE_PORT) + (1 << DESTINATION_PORT);

const TCP_SET: u32 = UDP_SET + (1 << TCP_FLAGS);

const ICMP_SET: u32 = (1 << ICMP_TYPE) + (1 << ICMP_CODE);

impl Header {
    // The ports, which TCP and UDP share: the source port too is there only if both are whole.
    #[tactic(auto, unfolding(crate::specs::Header::noted, crate::specs::Header::filled, crate::specs::Transport::transport_puts))]
    fn fill_udp(&mut self, part: &[u8])
        ensures { Added (transport_puts udp part.now) self.old self.new }
    {
        if part.len() < 4 {
            return;
        }
        self.put(SOURCE_PORT, two_at(part, 0));
        self.put(DESTINATION_PORT, two_at(part, 2));
    }

    // Ports and flags.
    #[tactic(auto, unfolding(crate::specs::Header::noted, crate::specs::Header::filled, crate::specs::Transport::transport_puts))]
    fn fill_tcp(&mut self, part: &[u8])
        ensures { Added (transport_puts tcp part.now) self.old self.new }
    {
        self.fill_udp(part);
        if let Some(flags) = part.get(13) {
            self.put(TCP_FLAGS, u32::from(*flags));
        }
    }

    // Type and code.
    #[tactic(auto, unfolding(crate::specs::Header::noted, crate::specs::Header::filled, crate::specs::Transport::transport_puts))]
    fn fill_icmp(&mut self, part: &[u8])
        ensures { Added (transport_puts icmp part.now) self.old self.new }
    {
        if let Some(kind) = part.first() {
            self.put(ICMP_TYPE, u32::from(*kind));
        }
        if let Some(code) = part.get(1) {
            self.put(ICMP_CODE, u32::from(*code));
        }
    }

    // The fields of a transport part, by its protocol.
    #[tactic(auto, unfolding(crate::specs::Header::noted, crate::specs::Header::filled, crate::specs::Transport::transport_puts))]
    pub(crate) fn fill_transport(&mut self, part: &[u8], protocol: u32)
        ensures { Added (transport_puts protocol part.now) self.old self.new }
    {
        match protocol {
            TCP => self.fill_tcp(part),
            UDP => self.fill_udp(part),
            ICMP => self.fill_icmp(part),
            _ => {}
        }
    }
}

// The fields that a part could have whose protocol stands at a place of the frame, or behind its end.
#[tactic(auto, unfolding(crate::specs::inner::Parts::carried, crate::specs::Seen::could, sets::specs::Sets::set_of))]
pub fn carried_set(frame: &[u8], at: usize) -> u32
    ensures { result ≡ set_of (carried frame.now at) }
{
    let Some(protocol) = frame.get(at) else {
        return TCP_SET + ICMP_SET;
    };
    match u32::from(*protocol) {
        TCP => TCP_SET,
        UDP => UDP_SET,
        ICMP => ICMP_SET,
        _ => 0,
    }
}
