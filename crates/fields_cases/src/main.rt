// Reads hand-made frames, at and around each border of document 01, "Fields", and of document 02, P2 and P7, and prints one line a frame: what it
// tries, the frame's bytes, the present set, the cut set, and the fourteen fields, with - for none and ~ for cut. Box port 7 throughout.
#![tactic(auto)]

use fields::{FIELDS, Header, Seen};
use std::{fmt, io};

// A packet that is whole and may not be divided.
const WHOLE: u16 = 16384;
// One number more than there are fields: each line ends with its - too.
const SHOWN: u32 = FIELDS as u32 + 1;
// A byte more than the longest frame has.
const ROOM: usize = 1523;

// A label, the frame's bytes, the EtherType, the IP header's first byte, the total length, flags with offset, and the protocol.
type Case = (&'static str, usize, u16, u8, u16, u16, u8);

const CASES: [Case; 91] = [
    // Around the Ethernet header.
    ("no bytes", 0, 2054, 69, 20, WHOLE, 2),
    ("ethernet cut by one", 13, 2054, 69, 20, WHOLE, 2),
    ("ethernet whole", 14, 2054, 69, 20, WHOLE, 2),
    ("ethertype 1535", 14, 1535, 69, 20, WHOLE, 2),
    ("ethertype 1536", 14, 1536, 69, 20, WHOLE, 2),
    ("ethertype 65535", 14, 65535, 69, 20, WHOLE, 2),
    ("ethertype 2048 alone", 14, 2048, 69, 20, WHOLE, 2),
    (
        "ethertype 1535 before a whole ip header",
        34,
        1535,
        69,
        20,
        WHOLE,
        2,
    ),
    (
        "ethertype 2049 before a whole ip header",
        34,
        2049,
        69,
        20,
        WHOLE,
        2,
    ),
    // Around the least IP header.
    ("ip header whole", 34, 2048, 69, 20, WHOLE, 2),
    ("ip header cut by one", 33, 2048, 69, 20, WHOLE, 2),
    ("version 5", 34, 2048, 85, 20, WHOLE, 2),
    ("version 3", 34, 2048, 53, 20, WHOLE, 2),
    ("header length 16", 34, 2048, 68, 20, WHOLE, 2),
    (
        "total length below header length 20",
        34,
        2048,
        69,
        19,
        WHOLE,
        2,
    ),
    (
        "total length one beyond the frame",
        34,
        2048,
        69,
        21,
        WHOLE,
        2,
    ),
    (
        "total length to the end of the frame",
        35,
        2048,
        69,
        21,
        WHOLE,
        2,
    ),
    // Headers longer than the least.
    (
        "total length below header length 24",
        38,
        2048,
        70,
        23,
        WHOLE,
        2,
    ),
    (
        "total length equal to header length 24",
        38,
        2048,
        70,
        24,
        WHOLE,
        2,
    ),
    ("header length 24 cut by one", 37, 2048, 70, 24, WHOLE, 2),
    (
        "total length below header length 60",
        74,
        2048,
        79,
        59,
        WHOLE,
        2,
    ),
    (
        "total length equal to header length 60",
        74,
        2048,
        79,
        60,
        WHOLE,
        2,
    ),
    ("header length 60 cut by one", 73, 2048, 79, 60, WHOLE, 2),
    // UDP, and a protocol without fields.
    ("udp 0 bytes", 34, 2048, 69, 20, WHOLE, 17),
    ("udp 0 bytes and padding", 60, 2048, 69, 20, WHOLE, 17),
    ("udp 3 bytes", 37, 2048, 69, 23, WHOLE, 17),
    ("udp 3 bytes and padding", 60, 2048, 69, 23, WHOLE, 17),
    ("udp 4 bytes", 38, 2048, 69, 24, WHOLE, 17),
    ("udp 4 bytes cut by one", 37, 2048, 69, 24, WHOLE, 17),
    ("udp 4 bytes and padding", 60, 2048, 69, 24, WHOLE, 17),
    ("udp 14 bytes", 48, 2048, 69, 34, WHOLE, 17),
    ("udp 3 bytes behind header 24", 41, 2048, 70, 27, WHOLE, 17),
    ("udp 4 bytes behind header 24", 42, 2048, 70, 28, WHOLE, 17),
    ("protocol 2 with 14 bytes", 48, 2048, 69, 34, WHOLE, 2),
    // TCP.
    ("tcp 3 bytes", 37, 2048, 69, 23, WHOLE, 6),
    ("tcp 4 bytes", 38, 2048, 69, 24, WHOLE, 6),
    ("tcp 4 bytes cut by one", 37, 2048, 69, 24, WHOLE, 6),
    ("tcp 13 bytes", 47, 2048, 69, 33, WHOLE, 6),
    ("tcp 13 bytes and padding", 60, 2048, 69, 33, WHOLE, 6),
    ("tcp 14 bytes", 48, 2048, 69, 34, WHOLE, 6),
    ("tcp 14 bytes cut by one", 47, 2048, 69, 34, WHOLE, 6),
    ("tcp 14 bytes behind header 24", 52, 2048, 70, 38, WHOLE, 6),
    ("tcp 13 bytes behind header 60", 88, 2048, 79, 73, WHOLE, 6),
    ("tcp 14 bytes behind header 60", 88, 2048, 79, 74, WHOLE, 6),
    (
        "tcp behind header 60 cut by one",
        87,
        2048,
        79,
        74,
        WHOLE,
        6,
    ),
    // ICMP.
    ("icmp 0 bytes", 34, 2048, 69, 20, WHOLE, 1),
    ("icmp 0 bytes and padding", 60, 2048, 69, 20, WHOLE, 1),
    ("icmp 1 byte", 35, 2048, 69, 21, WHOLE, 1),
    ("icmp 1 byte cut by one", 34, 2048, 69, 21, WHOLE, 1),
    ("icmp 1 byte and padding", 60, 2048, 69, 21, WHOLE, 1),
    ("icmp 2 bytes", 36, 2048, 69, 22, WHOLE, 1),
    ("icmp 2 bytes cut by one", 35, 2048, 69, 22, WHOLE, 1),
    ("icmp 2 bytes behind header 60", 76, 2048, 79, 62, WHOLE, 1),
    // First fragments, without options or with 4 bytes of them; 14 transport bytes at the least.
    ("tcp not divided, no flags", 52, 2048, 69, 38, 0, 6),
    ("tcp, first fragment", 52, 2048, 69, 38, 8192, 6),
    ("udp, first fragment", 52, 2048, 69, 38, 8192, 17),
    ("icmp, first fragment", 52, 2048, 69, 38, 8192, 1),
    (
        "tcp, first fragment with options",
        52,
        2048,
        70,
        38,
        8192,
        6,
    ),
    ("tcp, all flags and offset 0", 52, 2048, 69, 38, 57344, 6),
    // Later fragments.
    ("tcp, middle fragment", 52, 2048, 69, 38, 8377, 6),
    ("udp, middle fragment", 52, 2048, 69, 38, 8377, 17),
    ("icmp, middle fragment", 52, 2048, 69, 38, 8377, 1),
    ("tcp, last fragment", 52, 2048, 69, 38, 370, 6),
    ("udp, last fragment", 52, 2048, 69, 38, 370, 17),
    ("icmp, last fragment", 52, 2048, 69, 38, 370, 1),
    ("tcp, last fragment with options", 52, 2048, 70, 38, 370, 6),
    ("udp, offset 1", 52, 2048, 69, 38, 1, 17),
    ("icmp, offset 1", 52, 2048, 69, 38, 1, 1),
    ("udp, offset 8191", 52, 2048, 69, 38, 8191, 17),
    (
        "icmp, all flags and offset 8191",
        52,
        2048,
        69,
        38,
        65535,
        1,
    ),
    // What decides is cut off, or just not, byte by byte.
    ("12 bytes", 12, 2048, 69, 20, WHOLE, 6),
    ("13 bytes, ethertype 5..", 13, 1535, 69, 20, WHOLE, 6),
    ("13 bytes, ethertype 6..", 13, 1536, 69, 20, WHOLE, 6),
    ("13 bytes, ethertype 8..", 13, 2048, 69, 20, WHOLE, 6),
    ("15 bytes", 15, 2048, 69, 20, WHOLE, 6),
    ("15 bytes, version 5", 15, 2048, 85, 20, WHOLE, 6),
    ("15 bytes, header length 16", 15, 2048, 68, 20, WHOLE, 6),
    ("23 bytes", 23, 2048, 69, 20, WHOLE, 6),
    ("24 bytes, tcp", 24, 2048, 69, 20, WHOLE, 6),
    ("24 bytes, udp", 24, 2048, 69, 20, WHOLE, 17),
    ("24 bytes, icmp", 24, 2048, 69, 20, WHOLE, 1),
    ("24 bytes, protocol 2", 24, 2048, 69, 20, WHOLE, 2),
    ("20 bytes, offset 8191", 20, 2048, 69, 38, 8191, 6),
    ("21 bytes, offset 255", 21, 2048, 69, 38, 255, 6),
    ("21 bytes, offset 256", 21, 2048, 69, 38, 256, 6),
    ("22 bytes, offset 255", 22, 2048, 69, 38, 255, 6),
    (
        "22 bytes, all flags and offset 0",
        22,
        2048,
        69,
        38,
        57344,
        6,
    ),
    // About as long as the box takes, 1,522 bytes, which is no matter for fields.
    ("longest frame", 1522, 2048, 69, 1508, WHOLE, 6),
    ("longest frame cut by one", 1521, 2048, 69, 1508, WHOLE, 6),
    ("longest frame and a byte", 1523, 2048, 69, 1508, WHOLE, 6),
    ("total length 65535", 1522, 2048, 69, 65535, WHOLE, 6),
];

// What reading a field answers, as it is printed.
#[derive(Clone, Copy)]
struct Shown(Seen);

impl fmt::Display for Shown {
    fn fmt<W: fmt::Write>(&self, f: &mut fmt::Formatter<W>) -> fmt::Result {
        match self.0 {
            Seen::Has(x) => write!(f, "{x}"),
            Seen::None => write!(f, "-"),
            Seen::Cut => write!(f, "~"),
        }
    }
}

// A frame with an EtherType and an IP header with this first byte, total length, flags with offset, and protocol. Each other byte
// holds the low byte of its place, so that a value says where it was read.
fn frame_of(kind: u16, first: u8, total: u16, fragment: u16, protocol: u8) -> [u8; ROOM] {
    let mut f = [0u8; ROOM];
    for (i, byte) in f.iter_mut().enumerate() {
        *byte = (i % 256) as u8;
    }
    f[12..14].copy_from_slice(&kind.to_be_bytes());
    f[14] = first;
    f[16..18].copy_from_slice(&total.to_be_bytes());
    f[20..22].copy_from_slice(&fragment.to_be_bytes());
    f[23] = protocol;
    f
}

fn show(rt: &impl Print, case: Case) -> io::Result<()> {
    let (label, n, kind, first, total, fragment, protocol) = case;
    let whole = frame_of(kind, first, total, fragment, protocol);
    let frame = &whole[..n.min(ROOM)];
    let mut header = Header::new();
    header.read(frame, 7);
    let cut = header.cut_set(frame);
    print!(rt; "{label}: {n} {} {cut}", header.present)?;
    for i in 0..SHOWN {
        print!(rt; " {}", Shown(fields::read_field(frame, 7, i)))?;
    }
    println!(rt)
}

fn show_full(rt: &impl Print) -> io::Result<()> {
    print!(rt; "full:")?;
    for i in 0..SHOWN {
        print!(rt; " {}", fields::full_of(i))?;
    }
    println!(rt)
}

// One field at a time, of a TCP frame at box port 255.
fn show_alone(rt: &impl Print) -> io::Result<()> {
    let whole = frame_of(2048, 69, 34, WHOLE, 6);
    let frame = &whole[..48];
    print!(rt; "fields 9, 11, 13, 14 and 4294967295 alone:")?;
    for number in [9, 11, 13, 14, u32::MAX] {
        print!(rt; " {}", Shown(fields::read_field(frame, 255, number)))?;
    }
    println!(rt)
}

fn main(rt: HostRuntime) -> io::Result<()> {
    for case in CASES {
        show(&rt, case)?;
    }
    show_full(&rt)?;
    show_alone(&rt)
}
