use ds_broker::BrokerRefusal;
use ds_certificate::CertificateFault;
use ds_domain_base::{DomainFault, Field, Kind, Section};
use ds_ledger_base::{BookFault, LedgerFault, RefusedReplay};
use dsedge_faults::Fault;
use dsedge_json_faults::fault_object;
use dsedge_lines::GivenName;
use dsedge_texts::{FaultyLine, Reason};
use pcap_capture::PcapFault;
use std::alloc::Global;
use std::process::Abort;

/// Expects of a fault its object.
fn expect_object(rt: &impl Abort, alloc: Global, fault: &Fault<'_>, wanted: &str) {
    let line = fault_object(alloc, fault).expect(rt, "memory for a line");
    assert_eq!(rt; line.as_slice(), wanted.as_bytes());
}

#[test]
fn faults_of_one_word(rt: HostRuntime) {
    for (fault, wanted) in [
        (Fault::Usage, "{\"fault\":\"usage\"}\n"),
        (Fault::Line(2), "{\"fault\":\"line\",\"line\":2}\n"),
        (Fault::Read, "{\"fault\":\"read\"}\n"),
        (Fault::Write, "{\"fault\":\"write\"}\n"),
        (Fault::Memory, "{\"fault\":\"memory\"}\n"),
        (Fault::Full, "{\"fault\":\"full\"}\n"),
    ] {
        expect_object(&rt, rt.alloc(), &fault, wanted);
    }
}

#[test]
fn faults_of_texts(rt: HostRuntime) {
    let blind = DomainFault {
        kind: Kind::BlindInside,
        section: Section::Meter,
        index: 0,
        field: Field::Mode,
    };
    let unread = DomainFault {
        kind: Kind::Text,
        section: Section::Text,
        index: 0,
        field: Field::Empty,
    };
    let shape = FaultyLine {
        fault: CertificateFault::Shape,
        line: 3,
    };
    for (fault, wanted) in [
        (
            Fault::Domain(blind),
            "{\"code\":9,\"fault\":\"domain\",\"field\":\"mode\",\"index\":0,\"kind\":\"BlindInside\",\"section\":\"meter\"}\n",
        ),
        (
            Fault::Domain(unread),
            "{\"code\":1,\"fault\":\"domain\",\"field\":null,\"index\":0,\"kind\":\"Text\",\"section\":\"text\"}\n",
        ),
        (
            Fault::Certificate(shape),
            "{\"code\":2,\"fault\":\"certificate\",\"kind\":\"Shape\",\"line\":3}\n",
        ),
    ] {
        expect_object(&rt, rt.alloc(), &fault, wanted);
    }
}

#[test]
fn faults_of_captures(rt: HostRuntime) {
    for (fault, wanted) in [
        (
            PcapFault::NotPcap,
            "{\"code\":1,\"fault\":\"capture\",\"kind\":\"NotPcap\"}\n",
        ),
        (
            PcapFault::LinkType(147),
            "{\"code\":4,\"fault\":\"capture\",\"kind\":\"LinkType\",\"link_type\":147}\n",
        ),
        (
            PcapFault::RecordTooLong(262_145),
            "{\"code\":5,\"fault\":\"capture\",\"kind\":\"RecordTooLong\",\"length\":262145}\n",
        ),
        (
            PcapFault::UnknownInterface(1),
            "{\"code\":15,\"fault\":\"capture\",\"interface\":1,\"kind\":\"UnknownInterface\"}\n",
        ),
    ] {
        expect_object(&rt, rt.alloc(), &Fault::Capture(fault), wanted);
    }
}

#[test]
fn faults_of_names_and_books(rt: HostRuntime) {
    let file = "d.toml";
    let refused = RefusedReplay {
        serial: 3,
        refusal: BrokerRefusal::UnknownId,
    };
    for (fault, wanted) in [
        (
            Fault::Port(GivenName::new("p")),
            "{\"fault\":\"port\",\"name\":\"p\"}\n",
        ),
        (
            Fault::Contract(GivenName::new("c")),
            "{\"fault\":\"contract\",\"name\":\"c\"}\n",
        ),
        (
            Fault::File(GivenName::new(file), Reason::Absent),
            "{\"fault\":\"file\",\"name\":\"d.toml\",\"reason\":\"Absent\"}\n",
        ),
        (
            Fault::File(GivenName::new(file), Reason::System(13)),
            "{\"error\":13,\"fault\":\"file\",\"name\":\"d.toml\",\"reason\":\"System\"}\n",
        ),
        (
            Fault::Book(BookFault::Ledger(LedgerFault::Busy)),
            "{\"fault\":\"book\",\"kind\":\"Busy\"}\n",
        ),
        (
            Fault::Book(BookFault::Command(refused)),
            "{\"fault\":\"book\",\"refusal\":\"UnknownId\",\"serial\":3}\n",
        ),
    ] {
        expect_object(&rt, rt.alloc(), &fault, wanted);
    }
}
