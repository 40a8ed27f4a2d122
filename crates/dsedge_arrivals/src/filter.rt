ghost use Rattle.std.specs.Prelude.{◌≡◌, ◌++◌, [], IfOk, OnOk, None};
ghost use Rattle.pcap_capture.specs.Frames.{link_in};
ghost use Rattle.dsedge_arrivals.specs.Arrivals.{IsFilterAt, colour_alone, colour_behind, colour_in, is_asked, line_at};
ghost use Rattle.dsedge_arrivals.specs.Arrivals.{line_of, lines_from, newest_in, sight_in, taken_by_all};

use af_marker::{Class, Dscp, Summary, colour_of};
use ds_conditioner::sending::later;
use ds_domain_base::{BoxedContract, Name, Version};
use frame_marker::{PortClassifier, Sight, header_in};
use line_text::push_number;
use moment_core::{Colour, Moment};
use pcap_capture::{Content, Frame, LinkType, Piece};
use std::alloc::{AllocError, Global};
use std::marker::Model;

/// Which packets of a capture arrive, and how each is told.
#[derive(Drop)]
pub struct ArrivalFilter<'a> {
    /// The rules of a port; none where each packet arrives whose header can be read.
    port: Option<PortClassifier>,
    /// The contracts of the domain.
    contracts: &'a [BoxedContract],
    /// The contract whose packets arrive alone.
    only: Option<usize>,
    /// Whether a line tells the colour, too.
    has_colours: bool,
}

impl<'a> Model for ArrivalFilter<'a> {
    ghost use Rattle.dsedge_arrivals.specs.Arrivals.{Filter};

    ghost Value = { Filter };

    ghost view = { λ f. record {
      port = f.port;
      contracts = f.contracts.now;
      only = f.only;
      has_colours = f.has_colours;
    } };
}

impl<'a> ArrivalFilter<'a> {
    /// Every packet of IPv4 or IPv6 whose header can be read.
    pub fn of_all(has_colours: bool) -> Self
        ensures { result ≡ record { port = None; contracts = []; only = None; has_colours = has_colours } }
    {
        ArrivalFilter {
            port: None,
            contracts: &[],
            only: None,
            has_colours,
        }
    }

    /// The packets that the contracts of a port take, or those of one of them, by its number, in a domain of a version.
    /// `AllocError` where memory runs out.
    pub fn at_port(
        alloc: Global,
        version: Version,
        contracts: &'a [BoxedContract],
        port: Name,
        only: Option<usize>,
        has_colours: bool,
    ) -> Result<Self, AllocError>
        ensures { IfOk result (IsFilterAt version contracts.now port only has_colours) }
    {
        let rules = PortClassifier::new(alloc, version, contracts, port)?;
        Ok(ArrivalFilter {
            port: Some(rules),
            contracts,
            only,
            has_colours,
        })
    }

    /// What a frame is.
    fn sight(&self, frame: &Frame<'_>) -> Sight
        ensures { result ≡ sight_in self.now.port frame.now }
    {
        match &self.port {
            Some(rules) => rules.see_frame(frame).sight,
            None => sight_of_any(frame),
        }
    }

    /// Whether packets of a contract's number arrive.
    fn is_asked(&self, flow: u32) -> bool
        ensures { result ≡ is_asked self.now.only flow }
    {
        match self.only {
            Some(only) => flow as usize == only,
            None => true,
        }
    }

    /// The colour that a packet of a contract's number comes in with.
    fn colour(&self, flow: u32, dscp: Dscp) -> Colour
        ensures { result ≡ colour_in self.now.contracts flow dscp }
    {
        match self.contracts.get(flow as usize) {
            Some(contract) => contract.contract().came(dscp),
            None => colour_alone(dscp),
        }
    }

    /// Appends the line of a packet that is sent at a moment.
    fn push_line(
        &self,
        flow: u32,
        header: Summary,
        moment: Moment,
        out: &mut Vec<u8>,
    ) -> Result<(), AllocError>
        ensures { OnOk result (out.new.items ≡ out.old.items ++ line_of self.now flow header moment) }
    {
        push_number(out, moment.get())?;
        out.push(b' ')?;
        push_number(out, u64::from(header.total.get()))?;
        if self.has_colours {
            out.extend_from_slice(colour_behind(self.colour(flow, header.dscp)))?;
        }
        out.push(b'\n')?;
        Ok(())
    }

    /// Appends the line of a frame whose packet is sent at a moment, if it arrives.
    fn push_frame(
        &self,
        frame: &Frame<'_>,
        moment: Moment,
        out: &mut Vec<u8>,
    ) -> Result<(), AllocError>
        ensures { OnOk result
            (out.new.items ≡ out.old.items ++ line_at self.now (sight_in self.now.port frame.now) moment) }
    {
        match self.sight(frame) {
            Sight::Matched { flow, header } if self.is_asked(flow) => {
                self.push_line(flow, header, moment, out)
            }
            _ => Ok(()),
        }
    }

    /// Appends the lines of the frames of a piece, of which each is sent at the greatest stamp so far, and answers that
    /// behind the last.
    pub(crate) fn push_piece(
        &self,
        piece: &Piece,
        newest: Moment,
        out: &mut Vec<u8>,
    ) -> Result<Moment, AllocError>
        ensures { IfOk result (λ now. (now ≡ newest_in newest piece.now)
            × (out.new.items ≡ out.old.items ++ lines_from self.now newest piece.now)) }
    {
        let mut now = newest;
        for place in 0..piece.len() {
            let frame = piece.frame(place);
            now = later(now, frame.moment());
            self.push_frame(&frame, now, out)?;
        }
        Ok(now)
    }
}

/// What the bytes of a frame begin with.
fn link_of(content: Content) -> LinkType
    ensures { result ≡ link_in content }
{
    match content {
        Content::Other => LinkType::Unread,
        Content::Record(link) | Content::Block(link, _) => link,
    }
}

/// What a frame is where each packet arrives whose header can be read.
fn sight_of_any(frame: &Frame<'_>) -> Sight
    ensures { result ≡ sight_in None frame.now }
{
    match header_in(link_of(frame.content()), frame.bytes()) {
        Some(header) => Sight::Matched {
            flow: 0,
            header: header.summary(),
        },
        None => Sight::Skipped,
    }
}

/// The colour that a code point shows by itself: that of its drop precedence in its class of assured forwarding (RFC 2597
/// section 6), and green where it has none.
fn colour_alone(dscp: Dscp) -> Colour
    ensures { result ≡ colour_alone dscp }
{
    match Class::new(dscp.get() >> 3) {
        Ok(class) => colour_of(class, dscp).unwrap_or(Colour::Green),
        Err(_) => Colour::Green,
    }
}

/// A colour as it stands behind a size.
fn colour_behind(colour: Colour) -> &'static [u8]
    ensures { result.now ≡ colour_behind colour }
{
    match colour {
        Colour::Green => b" g",
        Colour::Yellow => b" y",
        Colour::Red => b" r",
    }
}
