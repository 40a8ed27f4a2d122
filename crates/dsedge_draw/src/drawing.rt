ghost use Rattle.std.specs.Prelude.{◌≡◌, ◌⊎◌, ◌++◌, true, Err, IfErr, IfOk, Ok, OnOk, codes, flat_map};
ghost use Rattle.std.specs.List.{list_all};
ghost use Rattle.ds_certificate.specs.Bounds.{IsCertificate, fits, least};
ghost use Rattle.ds_checker.specs.Acceptance.{table_of};
ghost use Rattle.ds_domain_base.specs.Faults.{no_memory};
ghost use Rattle.dsedge_texts.specs.Headed.{least_table};
ghost use Rattle.dsedge_draw.specs.Drawings.{caption_text, contracts_text, domain_text, drawing_of, drawn_in};
ghost use Rattle.dsedge_draw.specs.Drawings.{head_text, meters_text, port_text};
ghost use Rattle.dsedge_draw.specs.Ways.{link_text};

use crate::bars::{push_meter, push_quoted};
use crate::ways::{push_contracts, push_link};
use ds_certificate::make;
use ds_checker::{Candidate, Headroom, Refusal, survey_of};
use ds_domain::{BoxedContract, Domain, DomainFault, parse};
use dsedge_texts::RefusalLine;
use std::alloc::{AllocError, Global};

/// How the picture is laid out, and how its words are written.
const HEAD: &str =
    "digraph domain {\nrankdir=LR;\nranksep=0.8;\nlabelloc=t;\nfontname=\"Helvetica\";\n\
    fontcolor=\"#d62728\";\nnode [fontname=\"Helvetica\", fontsize=11];\n\
    edge [fontname=\"Helvetica\", fontsize=10];\n";

/// How contracts and their ways are drawn.
const SOLD: &str = "node [shape=box, style=\"rounded,filled\", fontcolor=\"#ffffff\"];\n\
    edge [style=solid, penwidth=2];\n";

/// The domain that a text says with its contracts, drawn in the words of Graphviz (DOT): contracts, ports, meters and
/// links from left to right; at each meter a bar for each test of the checker, under the least certificate of the
/// contracts, with what is taken and what there is. A bar is red where more is taken than there is; the checker's line
/// is the caption where it refuses.
///
/// Refused: the first fault of the domain text, or `NoMemory` where memory runs out.
pub fn draw(alloc: Global, text: &[u8]) -> Result<Vec<u8>, DomainFault>
    ensures ok { IfOk result (λ drawn. drawn_in text.now ≡ Ok drawn.items) }
    ensures refused { IfErr result (λ fault. (fault ≡ no_memory) ⊎ (drawn_in text.now ≡ Err fault)) }
{
    match parse(alloc, text) {
        Ok((domain, contracts)) => Ok(draw_least(alloc, domain, contracts)?),
        Err(fault) => Err(fault),
    }
}

/// A domain and contracts that fit it, drawn under the least certificate of the contracts.
fn draw_least(
    alloc: Global,
    domain: Domain,
    contracts: Vec<BoxedContract>,
) -> Result<Vec<u8>, AllocError>
    requires { list_all (fits domain) contracts.items ≡ true }
    ensures { IfOk result (λ drawn. drawn.items ≡ drawing_of (least_table (domain, contracts.items))) }
{
    match make(alloc, &domain, contracts.as_slice()) {
        Ok(certificate) => {
            let candidate = Candidate {
                domain,
                contracts,
                certificate,
            };
            let drawn = draw_candidate(alloc, &candidate);
            drop(candidate);
            drawn
        }
        Err(_) => Err(AllocError),
    }
}

/// A candidate drawn, whether the checker accepts it or not.
fn draw_candidate(alloc: Global, candidate: &Candidate) -> Result<Vec<u8>, AllocError>
    requires { IsCertificate candidate.now.domain candidate.now.contracts.items candidate.now.certificate }
    ensures { IfOk result (λ drawn. drawn.items ≡ drawing_of (table_of candidate.now)) }
{
    let found = survey_of(alloc, candidate)?;
    let contracts = candidate.contracts.as_slice();
    let mut text = Vec::new(alloc);
    push_caption(&mut text, contracts, &found.refusal)?;
    push_domain(&mut text, &candidate.domain, found.headrooms.as_slice())?;
    push_sold(&mut text, contracts)?;
    Ok(text)
}

/// Appends how the picture is laid out, and the caption: the line of the checker's refusal, if there is one.
fn push_caption(
    text: &mut Vec<u8>,
    contracts: &[BoxedContract],
    refusal: &Option<Refusal>,
) -> Result<(), AllocError>
    ensures { OnOk result (text.new.items ≡ text.old.items ++ head_text ++ caption_text contracts.now refusal.now) }
{
    text.extend_from_slice(HEAD.as_bytes())?;
    let Some(refusal) = refusal else {
        return Ok(());
    };
    text.extend_from_slice(b"label=\"")?;
    text.extend_from_slice(RefusalLine::new(contracts, refusal).bytes())?;
    text.extend_from_slice(b"\";\n")?;
    Ok(())
}

/// Appends the nodes and edges of a domain: its ports, its meters with what is taken at each, and its links.
fn push_domain(
    text: &mut Vec<u8>,
    domain: &Domain,
    headrooms: &[Headroom],
) -> Result<(), AllocError>
    ensures { OnOk result (text.new.items ≡ text.old.items ++ domain_text domain.now headrooms.now) }
{
    text.extend_from_slice(b"node [shape=cds, style=filled, fillcolor=\"#dddddd\"];\n")?;
    push_ports(text, domain)?;
    text.extend_from_slice(b"node [shape=plain, style=\"\"];\n")?;
    push_meters(text, domain, headrooms)?;
    text.extend_from_slice(b"edge [style=dashed, color=\"#888888\"];\n")?;
    push_links(text, domain)?;
    Ok(())
}

/// Appends the nodes of ports.
fn push_ports(text: &mut Vec<u8>, domain: &Domain) -> Result<(), AllocError>
    ensures { OnOk result (text.new.items ≡ text.old.items
        ++ flat_map (λ entry. port_text entry.0) domain.now.ports) }
{
    for (name, _) in domain.ports().iter() {
        push_quoted(text, *name)?;
        text.extend_from_slice(b";\n")?;
    }
    Ok(())
}

/// Appends the nodes of meters, each with what is taken of what there is.
fn push_meters(
    text: &mut Vec<u8>,
    domain: &Domain,
    headrooms: &[Headroom],
) -> Result<(), AllocError>
    ensures { OnOk result (text.new.items ≡ text.old.items ++ meters_text domain.now.meters headrooms.now) }
{
    for ((name, _), headroom) in domain.meters().iter().zip(headrooms) {
        push_meter(text, *name, headroom)?;
    }
    Ok(())
}

/// Appends the edges of links.
fn push_links(text: &mut Vec<u8>, domain: &Domain) -> Result<(), AllocError>
    ensures { OnOk result (text.new.items ≡ text.old.items ++ flat_map link_text domain.now.links) }
{
    for (ends, link) in domain.links().iter() {
        push_link(text, ends.0, ends.1, link)?;
    }
    Ok(())
}

/// Appends the nodes and ways of contracts, and the end of the picture.
fn push_sold(text: &mut Vec<u8>, contracts: &[BoxedContract]) -> Result<(), AllocError>
    ensures { OnOk result (text.new.items ≡ text.old.items ++ contracts_text contracts.now ++ codes "}\n") }
{
    text.extend_from_slice(SOLD.as_bytes())?;
    push_contracts(text, contracts)?;
    text.extend_from_slice(b"}\n")?;
    Ok(())
}
