use crate::mark_rows::NARROW_LEAST;
use crate::stream_rows::{FLOORS, TWO_HOPS, TWO_HOPS_LEAST};
use crate::verdict_rows::ENDLESS;
use ds_checker::Accepted;
use dsedge_texts::accept;
use std::alloc::{AllocError, Global};
use std::process::Abort;
use worked_texts::{
    ANYWHERE, LINK, METER, NARROW, POLICED, PORT, SHARE, TRUSTED, U, UDP, joined, over_way,
};

/// A table by its name: the parts of its domain's text, and its least certificate.
pub type Table = (&'static str, &'static [&'static str], &'static str);

/// The least certificate of a contract that is trusted without an end.
const ENDLESS_LEAST: &str = "dscert 1\nt 0 3000 3000\nt 1 4000 4000\n";

/// Tables of port `p` with one contract: it is policed, or trusted, or trusted over two meters, so that frames are
/// held.
pub static TABLES: [Table; 3] = [
    (
        "policed",
        &[METER, PORT, LINK, POLICED, U, NARROW, UDP],
        NARROW_LEAST,
    ),
    (
        "trusted",
        &[METER, PORT, LINK, TRUSTED, ENDLESS, SHARE],
        ENDLESS_LEAST,
    ),
    (
        "two hops",
        &[FLOORS, ANYWHERE, TWO_HOPS, SHARE],
        TWO_HOPS_LEAST,
    ),
];

/// The table that a domain text in parts says with a certificate text.
pub fn table_of(rt: &impl Abort, alloc: Global, domain: &[&str], certificate: &str) -> Accepted {
    read(rt, alloc, joined(alloc, domain), certificate)
}

/// The table that a domain text of one way and its contracts says with a certificate text.
pub fn accepted(rt: &impl Abort, alloc: Global, contract: &[&str], certificate: &str) -> Accepted {
    read(rt, alloc, over_way(alloc, contract), certificate)
}

/// The table that a domain text says with a certificate text.
fn read(
    rt: &impl Abort,
    alloc: Global,
    domain: Result<String, AllocError>,
    certificate: &str,
) -> Accepted {
    let domain = domain.expect(rt, "memory");
    let table = accept(alloc, domain.as_bytes(), certificate.as_bytes());
    drop(domain);
    table.expect(rt, "an acceptable table")
}
