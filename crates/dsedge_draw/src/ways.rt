ghost use Rattle.std.specs.Prelude.{◌≡◌, ◌+◌, ◌++◌, OnOk, flat_map};
ghost use Rattle.dsedge_draw.specs.Ways.{colour_of, committed_text, hop_text, label_text, link_text, parameters_text};
ghost use Rattle.dsedge_draw.specs.Ways.{rates_text, source_name, source_text, terms_text, trust_text, way_text};
ghost use Rattle.dsedge_draw.specs.Ways.{ways_text};
ghost use Rattle.dsedge_texts.specs.Wording.{figure};

use crate::bars::push_quoted;
use ds_domain_base::{BoxedContract, Contract, Delay, Link, Name, Parameters, Terms};
use dsedge_texts::push_figure;
use line_text::push_number;
use moment_core::Rate;
use std::alloc::AllocError;

/// Appends the edge of a link, with its floor and its jitter.
#[tactic(auto, unfolding(crate::specs::Ways::link_text))]
pub(crate) fn push_link(
    text: &mut Vec<u8>,
    from: Name,
    to: Name,
    link: &Link,
) -> Result<(), AllocError>
    ensures { OnOk result (text.new.items ≡ text.old.items ++ link_text ((from, to), link.now)) }
{
    push_quoted(text, from)?;
    push_hop(text, to)?;
    push_delay(text, b" [label=\"floor", link.floor)?;
    push_delay(text, b" ns\\njitter", link.jitter)?;
    text.extend_from_slice(b" ns\"];\n")?;
    Ok(())
}

/// Appends a key, and a time behind it.
fn push_delay(text: &mut Vec<u8>, key: &[u8], delay: Delay) -> Result<(), AllocError>
    ensures { OnOk result (text.new.items ≡ text.old.items ++ key.now ++ figure delay) }
{
    text.extend_from_slice(key)?;
    push_figure(text, delay.get())?;
    Ok(())
}

/// Appends the nodes and the ways of contracts, in their order.
pub(crate) fn push_contracts(
    text: &mut Vec<u8>,
    contracts: &[BoxedContract],
) -> Result<(), AllocError>
    ensures { OnOk result (text.new.items ≡ text.old.items ++ ways_text 0 contracts.now) }
{
    for (number, contract) in contracts.iter().enumerate() {
        let contract = contract.contract();
        let colour = colour_of(number);
        push_source(text, colour, contract)?;
        push_way(text, colour, contract)?;
    }
    Ok(())
}

/// The colour of the contract of a number.
#[tactic(auto, unfolding(crate::specs::Ways::colour_of))]
fn colour_of(number: usize) -> &'static [u8]
    ensures { result.now ≡ colour_of number }
{
    match number % 6 {
        0 => b"#4e79a7",
        1 => b"#f28e2b",
        2 => b"#b07aa1",
        3 => b"#499894",
        4 => b"#9c755f",
        _ => b"#d37295",
    }
}

/// Appends the node of a contract: its name, its kind, its class and its rates, in its colour.
#[tactic(auto, unfolding(crate::specs::Ways::source_text))]
fn push_source(text: &mut Vec<u8>, colour: &[u8], contract: &Contract) -> Result<(), AllocError>
    ensures { OnOk result (text.new.items ≡ text.old.items ++ source_text colour.now contract.now) }
{
    push_source_name(text, contract)?;
    text.extend_from_slice(b" [color=\"")?;
    text.extend_from_slice(colour)?;
    text.extend_from_slice(b"\", fillcolor=\"")?;
    text.extend_from_slice(colour)?;
    text.extend_from_slice(b"\", label=\"")?;
    push_label(text, contract)?;
    text.extend_from_slice(b"\"];\n")?;
    Ok(())
}

/// Appends what is written at the node of a contract.
#[tactic(auto, unfolding(crate::specs::Ways::label_text))]
fn push_label(text: &mut Vec<u8>, contract: &Contract) -> Result<(), AllocError>
    ensures { OnOk result (text.new.items ≡ text.old.items ++ label_text contract.now) }
{
    text.extend_from_slice(contract.name.bytes())?;
    text.extend_from_slice(b"\\n")?;
    text.extend_from_slice(trust_text(&contract.terms))?;
    text.extend_from_slice(b", class AF")?;
    push_number(text, u64::from(contract.class.get()))?;
    text.extend_from_slice(b"\\n")?;
    push_terms(text, &contract.terms)?;
    Ok(())
}

/// Appends the name of the node of a contract, which no meter and no port has.
fn push_source_name(text: &mut Vec<u8>, contract: &Contract) -> Result<(), AllocError>
    ensures { OnOk result (text.new.items ≡ text.old.items ++ source_name contract.now) }
{
    text.extend_from_slice(b"\"contract ")?;
    text.extend_from_slice(contract.name.bytes())?;
    text.push(b'"')?;
    Ok(())
}

/// The kind of a contract.
fn trust_text(terms: &Terms) -> &'static [u8]
    ensures { result.now ≡ trust_text terms.now }
{
    match terms {
        Terms::Trusted { .. } => b"trusted",
        Terms::Policed { .. } => b"policed",
    }
}

/// Appends the rates of a contract.
fn push_terms(text: &mut Vec<u8>, terms: &Terms) -> Result<(), AllocError>
    ensures { OnOk result (text.new.items ≡ text.old.items ++ terms_text terms.now) }
{
    match terms {
        Terms::Trusted {
            committed,
            peak: None,
        } => push_committed(text, committed.rate),
        Terms::Trusted {
            committed,
            peak: Some(peak),
        } => push_rates(text, committed.rate, b"pir", peak.profile.rate),
        Terms::Policed { parameters, .. } => push_parameters(text, &parameters.get()),
    }
}

/// Appends the rates of a meter's parameters.
fn push_parameters(text: &mut Vec<u8>, parameters: &Parameters) -> Result<(), AllocError>
    ensures { OnOk result (text.new.items ≡ text.old.items ++ parameters_text parameters.now) }
{
    match parameters {
        Parameters::SrTcm(own) => push_committed(text, own.committed_rate),
        Parameters::TrTcm(own) => push_rates(text, own.committed_rate, b"pir", own.peak_rate),
        Parameters::Rfc4115(own) => push_rates(text, own.committed_rate, b"eir", own.excess_rate),
    }
}

/// Appends a committed rate.
fn push_committed(text: &mut Vec<u8>, rate: Rate) -> Result<(), AllocError>
    ensures { OnOk result (text.new.items ≡ text.old.items ++ committed_text rate) }
{
    text.extend_from_slice(b"cir")?;
    push_figure(text, rate.get())?;
    text.extend_from_slice(b" bit/s")?;
    Ok(())
}

/// Appends a committed rate, and another behind its key.
fn push_rates(text: &mut Vec<u8>, rate: Rate, key: &[u8], other: Rate) -> Result<(), AllocError>
    ensures { OnOk result (text.new.items ≡ text.old.items ++ rates_text rate key.now other) }
{
    push_committed(text, rate)?;
    text.extend_from_slice(b"\\n")?;
    text.extend_from_slice(key)?;
    push_figure(text, other.get())?;
    text.extend_from_slice(b" bit/s")?;
    Ok(())
}

/// Appends the way of a contract: from its node to its port and along its path, in its colour.
#[tactic(auto, unfolding(crate::specs::Ways::way_text))]
fn push_way(text: &mut Vec<u8>, colour: &[u8], contract: &Contract) -> Result<(), AllocError>
    ensures { OnOk result (text.new.items ≡ text.old.items ++ way_text colour.now contract.now) }
{
    push_source_name(text, contract)?;
    push_hop(text, contract.port)?;
    push_hops(text, contract.path.meters())?;
    text.extend_from_slice(b" [color=\"")?;
    text.extend_from_slice(colour)?;
    text.extend_from_slice(b"\"];\n")?;
    Ok(())
}

/// Appends the hops to meters.
fn push_hops(text: &mut Vec<u8>, meters: &[Name]) -> Result<(), AllocError>
    ensures { OnOk result (text.new.items ≡ text.old.items ++ flat_map hop_text meters.now) }
{
    for meter in meters {
        push_hop(text, *meter)?;
    }
    Ok(())
}

/// Appends a hop to a meter or a port.
#[tactic(auto, unfolding(crate::specs::Ways::hop_text))]
fn push_hop(text: &mut Vec<u8>, meter: Name) -> Result<(), AllocError>
    ensures { OnOk result (text.new.items ≡ text.old.items ++ hop_text meter) }
{
    text.extend_from_slice(b" -> ")?;
    push_quoted(text, meter)?;
    Ok(())
}
