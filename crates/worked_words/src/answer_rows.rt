use ds_domain_base::{DomainFault, Field, Kind, Section};
use dsedge_sold::push_unoffered;
use std::alloc::Global;
use std::process::Abort;

/// A fault of a contract that a line offers.
fn fault_of(kind: Kind, field: Field) -> DomainFault {
    DomainFault {
        kind,
        section: Section::Contract,
        index: 0,
        field,
    }
}

/// What is said of an offer that is refused behind another answer; None where nothing is.
fn unoffered(rt: &impl Abort, alloc: Global, fault: DomainFault, in_json: bool) -> Option<Vec<u8>> {
    let mut text = Vec::new(alloc);
    text.extend_from_slice(b"offered a\n")
        .expect(rt, "memory for a line");
    let said = push_unoffered(alloc, &mut text, fault, in_json);
    said.ok().map(|()| text)
}

/// Expects what is said of an offer that is refused.
fn expect_unoffered(rt: &impl Abort, alloc: Global, fault: DomainFault, wanted: [&str; 2]) {
    for (in_json, wanted) in [(false, wanted[0]), (true, wanted[1])] {
        let said = unoffered(rt, alloc, fault, in_json);
        assert_eq!(rt; said.expect(rt, "an answer").as_slice(), wanted.as_bytes());
    }
}

#[test]
fn offers_that_are_refused(rt: HostRuntime) {
    expect_unoffered(
        &rt,
        rt.alloc(),
        fault_of(Kind::Range, Field::Name),
        [
            "offered a\nrefused 1 Range name\n",
            "offered a\n{\"answer\":\"refused\",\"code\":1,\"field\":\"name\",\"kind\":\"Range\"}\n",
        ],
    );
    expect_unoffered(
        &rt,
        rt.alloc(),
        fault_of(Kind::Text, Field::Empty),
        [
            "offered a\nrefused 1 Text -\n",
            "offered a\n{\"answer\":\"refused\",\"code\":1,\"field\":null,\"kind\":\"Text\"}\n",
        ],
    );
}

#[test]
fn want_of_memory_is_no_answer(rt: HostRuntime) {
    let fault = fault_of(Kind::NoMemory, Field::Empty);
    for in_json in [false, true] {
        assert!(rt; unoffered(&rt, rt.alloc(), fault, in_json).is_none());
    }
}
