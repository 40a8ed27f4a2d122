ghost use Rattle.std.specs.Prelude.{◌≡◌, ◌<◌, ℕ, List, IfOk, length, map};
ghost use Rattle.pcap_capture.specs.Frames.{link_in};
ghost use Rattle.pcap_capture.specs.Packets.{begins_at};
ghost use Rattle.pcap_capture.specs.declared.heading.LinkType.{LinkType};
ghost use Rattle.pcap_capture.specs.declared.start.Family.TheVariants.{Ipv4, Ipv6};
ghost use Rattle.flow_classifier.specs.Families.{rules_for};
ghost use Rattle.flow_classifier.specs.Tables.{first_flow_of};
ghost use Rattle.flow_classifier.specs.declared.key.Key.{Key};
ghost use Rattle.frame_marker.specs.Frames.{read_header, read_whole};
ghost use Rattle.frame_marker.specs.Ports.{seen_by, seen_there, sight_at, sight_in, sight_through};
ghost use Rattle.frame_marker.specs.Marks.{mark_in, mark_of};
ghost use Rattle.frame_marker.specs.Sights.{flow_of, heeded, sight_of, sight_with};

use crate::mark::Mark;
use crate::sight::{Seen, Sight};
use af_marker::{Summary, header, ipv6_header};
use ds_domain_base::{BoxedContract, Name, Version};
use flow_classifier::{FlowRule, Key, RuleTables};
use pcap_capture::{Content, Family, Frame, LinkType, Piece};
use std::alloc::{AllocError, Global};
use std::marker::Model;

/// How many contracts can have packets; no later contract of a list takes a frame.
const MOST_CONTRACTS: usize = 4_294_966_272;

/// The rules of the contracts of a port, in the order of the contracts, each with the number of its contract; and
/// whether packets of IPv6 are seen there.
#[derive(Drop)]
pub struct PortClassifier {
    has_ipv6: bool,
    rules: RuleTables,
}

impl Model for PortClassifier {
    ghost use Rattle.frame_marker.specs.Ports.{PortRules};

    ghost Value = { PortRules };

    ghost view = { λ c. record { has_ipv6 = c.has_ipv6; rules = c.rules } };
}

/// The rules of the contracts of a port, in their order, each with the number of its contract; `AllocError` where memory
/// runs out.
fn rules_of(
    alloc: Global,
    contracts: &[BoxedContract],
    port: Name,
) -> Result<Vec<FlowRule>, AllocError>
    ensures { IfOk result (λ rules. (key : Key) → first_flow_of rules.items key ≡ flow_of contracts.now port key) }
{
    let heeded = &contracts[..MOST_CONTRACTS.min(contracts.len())];
    let mut rules = Vec::new(alloc);
    for (place, contract) in heeded.iter().enumerate() {
        let contract = contract.contract();
        if port == contract.port {
            let flow = place as u32;
            rules.push(FlowRule {
                flow,
                rule: contract.rule,
            })?;
        }
    }
    Ok(rules)
}

impl PortClassifier {
    /// Takes the rules of the contracts of a port together, in a domain of a version; `AllocError` where memory runs out.
    pub fn new(
        alloc: Global,
        version: Version,
        contracts: &[BoxedContract],
        port: Name,
    ) -> Result<Self, AllocError>
        ensures { IfOk result (λ classifier. (link : LinkType) (bytes : List ℕ) → sight_at classifier link bytes
            ≡ sight_of version contracts.now port link bytes) }
    {
        let rules = rules_of(alloc, contracts, port)?;
        let rules = RuleTables::of(alloc, &rules)?;
        let has_ipv6 = version.has_ipv6();
        Ok(PortClassifier { has_ipv6, rules })
    }

    /// What a frame is at the port.
    pub fn sight(&self, link: LinkType, bytes: &[u8]) -> Sight
        ensures { result ≡ sight_at self.now link bytes.now }
    {
        self.see(link, bytes).sight
    }

    /// What a frame is at the port, and what marking it later needs: so its header is read once.
    #[inline(always)]
    #[tactic(auto, unfolding(crate::specs::Ports::sight_at, crate::specs::Frames::header_in, crate::specs::Marks::mark_in))]
    pub fn see(&self, link: LinkType, bytes: &[u8]) -> Seen
        ensures sight { result.sight ≡ sight_at self.now link bytes.now }
        ensures mark { result.mark ≡ mark_in link bytes.now }
    {
        let Some(packet) = link.packet_start(bytes) else {
            return Seen::without_header();
        };
        match packet.family {
            Family::Ipv4 => self.see_ipv4(packet.start, &bytes[packet.start..]),
            Family::Ipv6 => {
                // taken apart, so that what is seen of IPv4 is not put together elsewhere and then copied
                let Seen { sight, mark } = self.see_ipv6(packet.start, &bytes[packet.start..]);
                Seen { sight, mark }
            }
        }
    }

    /// What a packet of IPv4 is at the port, which starts at a place of its frame.
    #[inline(always)]
    fn see_ipv4(&self, start: usize, packet: &[u8]) -> Seen
        ensures sight { result.sight ≡ sight_through self.now.rules (read_whole (read_header Ipv4 packet.now)) }
        ensures mark { result.mark ≡ mark_of (begins_at Ipv4 start) (read_header Ipv4 packet.now) }
    {
        let Ok(header) = header(packet) else {
            return Seen::without_header();
        };
        let header_kept = Summary::of_ipv4(&header);
        let family = Family::Ipv4;
        let verified = header_kept.verified;
        Seen {
            sight: self.sight_for(&Key::of_ipv4(&header), header_kept),
            mark: Some(Mark {
                start,
                family,
                verified,
            }),
        }
    }

    /// What a packet of IPv6 is at the port, which starts at a place of its frame.
    #[inline(never)]
    fn see_ipv6(&self, start: usize, packet: &[u8]) -> Seen
        ensures sight { result.sight ≡ sight_through self.now.rules
            (heeded self.now.has_ipv6 (read_whole (read_header Ipv6 packet.now))) }
        ensures mark { result.mark ≡ mark_of (begins_at Ipv6 start) (read_header Ipv6 packet.now) }
    {
        let Ok(header) = ipv6_header(packet) else {
            return Seen::without_header();
        };
        let family = Family::Ipv6;
        let verified = true;
        let sight = if self.has_ipv6 {
            self.sight_for(&Key::of_ipv6(&header), Summary::of_ipv6(&header))
        } else {
            Sight::Skipped
        };
        Seen {
            sight,
            mark: Some(Mark {
                start,
                family,
                verified,
            }),
        }
    }

    /// What a frame of a piece is at the port, and what marking it later needs.
    #[inline(always)]
    pub fn see_frame(&self, frame: &Frame<'_>) -> Seen
        ensures sight { result.sight ≡ sight_in self.now frame.now }
        ensures mark { result.mark ≡ mark_in (link_in frame.now.content) frame.now.bytes }
    {
        match frame.content() {
            Content::Other => Seen::without_packet(),
            Content::Record(link) | Content::Block(link, _) => self.see(link, frame.bytes()),
        }
    }

    /// What the frames of a piece are at the port, in their order, and what marking each later needs. `AllocError` where
    /// memory runs out.
    pub fn see_all(&self, alloc: Global, piece: &Piece) -> Result<Vec<Seen>, AllocError>
        ensures { IfOk result (λ seen. seen.items ≡ map (λ f. seen_by self.now f) piece.now) }
    {
        (0..piece.len())
            .map(
                |place: usize| -> Seen
                    requires { place < length piece.now }
                    ensures { result ≡ seen_there self.entry.now piece.entry.now place }
                { self.see_frame(&piece.frame(place)) },
            )
            .collect::<Vec<Seen>>(alloc)
    }

    /// What a frame is at the port whose packet has this key and of whose header this is kept.
    #[inline(always)]
    fn sight_for(&self, key: &Key, header: Summary) -> Sight
        ensures { result ≡ sight_with header (first_flow_of (rules_for self.now.rules key.now.addresses) key.now) }
    {
        match self.rules.first_flow(key) {
            None => Sight::Unmatched,
            Some(flow) => Sight::Matched { flow, header },
        }
    }
}
