//! Where packets start in frames, by the types of their links.
use crate::capture_rows::{ipv4, ipv6};
use pcap_capture::{LinkType, PacketStart};
use std::process::Abort;

/// What a row is about, the link, the front of a frame, and of which family its packet is and where it starts: 4 or 6,
/// and 0 where there is none.
type Started = (&'static str, LinkType, &'static [u8], u8, usize);

static STARTS: [Started; 36] = [
    (
        "IPv6",
        LinkType::Ethernet,
        &[0, 0, 0, 0, 0, 0, 0, 0, 0, 0, 0, 0, 0x86, 0xdd],
        6,
        14,
    ),
    (
        "a heading that is cut",
        LinkType::Ethernet,
        &[0, 0, 0, 0, 0, 0, 0, 0, 0, 0, 0, 0, 0x86],
        0,
        0,
    ),
    (
        "ARP",
        LinkType::Ethernet,
        &[0, 0, 0, 0, 0, 0, 0, 0, 0, 0, 0, 0, 0x08, 0x06, 0x45],
        0,
        0,
    ),
    (
        "a tag before IPv6",
        LinkType::Ethernet,
        &[
            0, 0, 0, 0, 0, 0, 0, 0, 0, 0, 0, 0, 0x81, 0, 0, 5, 0x86, 0xdd,
        ],
        6,
        18,
    ),
    (
        "a tag that is cut",
        LinkType::Ethernet,
        &[0, 0, 0, 0, 0, 0, 0, 0, 0, 0, 0, 0, 0x81, 0, 0, 5, 0x86],
        0,
        0,
    ),
    (
        "a session of IPv4",
        LinkType::Ethernet,
        &[
            0, 0, 0, 0, 0, 0, 0, 0, 0, 0, 0, 0, 0x88, 0x64, 0x11, 0, 0, 1, 0, 22, 0, 0x21,
        ],
        4,
        22,
    ),
    (
        "a session of IPv6 behind a tag",
        LinkType::Ethernet,
        &[
            0, 0, 0, 0, 0, 0, 0, 0, 0, 0, 0, 0, 0x88, 0xa8, 0, 5, 0x88, 0x64, 0x11, 0, 0, 1, 0, 42,
            0, 0x57,
        ],
        6,
        26,
    ),
    (
        "a session of neither",
        LinkType::Ethernet,
        &[
            0, 0, 0, 0, 0, 0, 0, 0, 0, 0, 0, 0, 0x88, 0x64, 0x11, 0, 0, 1, 0, 22, 0xc0, 0x21,
        ],
        0,
        0,
    ),
    (
        "a session that is cut",
        LinkType::Ethernet,
        &[
            0, 0, 0, 0, 0, 0, 0, 0, 0, 0, 0, 0, 0x88, 0x64, 0x11, 0, 0, 1, 0, 22, 0,
        ],
        0,
        0,
    ),
    (
        "a session that is only sought",
        LinkType::Ethernet,
        &[
            0, 0, 0, 0, 0, 0, 0, 0, 0, 0, 0, 0, 0x88, 0x63, 0x11, 0, 0, 1, 0, 22, 0, 0x21,
        ],
        0,
        0,
    ),
    (
        "a label before IPv4",
        LinkType::Ethernet,
        &[
            0, 0, 0, 0, 0, 0, 0, 0, 0, 0, 0, 0, 0x88, 0x47, 0, 1, 0x01, 64, 0x45,
        ],
        4,
        18,
    ),
    (
        "two labels before IPv6",
        LinkType::Ethernet,
        &[
            0, 0, 0, 0, 0, 0, 0, 0, 0, 0, 0, 0, 0x88, 0x47, 0, 1, 0x00, 64, 0, 2, 0x31, 64, 0x60,
        ],
        6,
        22,
    ),
    (
        "three labels",
        LinkType::Ethernet,
        &[
            0, 0, 0, 0, 0, 0, 0, 0, 0, 0, 0, 0, 0x88, 0x47, 0, 1, 0, 64, 0, 2, 0, 64, 0, 3, 1, 64,
            0x45,
        ],
        0,
        0,
    ),
    (
        "a label before neither",
        LinkType::Ethernet,
        &[
            0, 0, 0, 0, 0, 0, 0, 0, 0, 0, 0, 0, 0x88, 0x47, 0, 1, 0x01, 64, 0x05,
        ],
        0,
        0,
    ),
    (
        "a label before nothing",
        LinkType::Ethernet,
        &[
            0, 0, 0, 0, 0, 0, 0, 0, 0, 0, 0, 0, 0x88, 0x47, 0, 1, 0x01, 64,
        ],
        0,
        0,
    ),
    (
        "a cooked heading of IPv4",
        LinkType::LinuxCooked,
        &[0, 0, 0, 1, 0, 6, 0, 0, 0, 0, 0, 1, 0, 0, 0x08, 0x00],
        4,
        16,
    ),
    (
        "a cooked heading of IPv6",
        LinkType::LinuxCooked,
        &[0, 4, 0, 1, 0, 6, 0, 0, 0, 0, 0, 1, 0, 0, 0x86, 0xdd],
        6,
        16,
    ),
    (
        "a cooked heading before a tag",
        LinkType::LinuxCooked,
        &[
            0, 4, 0, 1, 0, 6, 0, 0, 0, 0, 0, 1, 0, 0, 0x81, 0x00, 0, 5, 0x08, 0x00,
        ],
        4,
        20,
    ),
    (
        "a cooked heading that is cut",
        LinkType::LinuxCooked,
        &[0, 0, 0, 1, 0, 6, 0, 0, 0, 0, 0, 1, 0, 0, 0x08],
        0,
        0,
    ),
    (
        "a second cooked heading of IPv6",
        LinkType::LinuxCooked2,
        &[
            0x86, 0xdd, 0, 0, 0, 0, 0, 2, 0, 1, 0, 6, 0, 0, 0, 0, 0, 1, 0, 0,
        ],
        6,
        20,
    ),
    (
        "a second cooked heading of IPv4",
        LinkType::LinuxCooked2,
        &[
            0x08, 0x00, 0, 0, 0, 0, 0, 2, 0, 1, 4, 6, 0, 0, 0, 0, 0, 1, 0, 0,
        ],
        4,
        20,
    ),
    (
        "a second cooked heading that is cut",
        LinkType::LinuxCooked2,
        &[
            0x08, 0x00, 0, 0, 0, 0, 0, 2, 0, 1, 4, 6, 0, 0, 0, 0, 0, 1, 0,
        ],
        0,
        0,
    ),
    (
        "a loopback of IPv4",
        LinkType::Loopback,
        &[2, 0, 0, 0, 0x45],
        4,
        4,
    ),
    (
        "a loopback of IPv4, high bytes first",
        LinkType::Loopback,
        &[0, 0, 0, 2, 0x45],
        4,
        4,
    ),
    (
        "a loopback of IPv6, 24",
        LinkType::Loopback,
        &[24, 0, 0, 0],
        6,
        4,
    ),
    (
        "a loopback of IPv6, 28",
        LinkType::Loopback,
        &[0, 0, 0, 28],
        6,
        4,
    ),
    (
        "a loopback of IPv6, 30",
        LinkType::Loopback,
        &[30, 0, 0, 0],
        6,
        4,
    ),
    (
        "a loopback of another family",
        LinkType::Loopback,
        &[7, 0, 0, 0, 0x45],
        0,
        0,
    ),
    (
        "a loopback of an order of its own",
        LinkType::Loopback,
        &[0, 2, 0, 0, 0x45],
        0,
        0,
    ),
    (
        "a loopback that is cut",
        LinkType::Loopback,
        &[2, 0, 0],
        0,
        0,
    ),
    ("a raw packet of IPv4", LinkType::RawIp, &[0x46], 4, 0),
    ("a raw packet of IPv6", LinkType::RawIp, &[0x6f], 6, 0),
    ("a raw packet of neither", LinkType::RawIp, &[0x50], 0, 0),
    ("no raw packet", LinkType::RawIp, &[], 0, 0),
    ("IPv4 at once", LinkType::Ipv4, &[], 4, 0),
    ("IPv6 at once", LinkType::Ipv6, &[0x45], 6, 0),
];

/// Where the packet of a row starts.
fn wanted_of(family: u8, start: usize) -> Option<PacketStart> {
    match family {
        4 => ipv4(start),
        6 => ipv6(start),
        _ => None,
    }
}

#[test]
fn where_packets_start(rt: HostRuntime) {
    for (name, link, frame, family, start) in &STARTS {
        let found = link.packet_start(frame);
        assert_eq!(rt; (name, found), (name, wanted_of(*family, *start)));
    }
}
