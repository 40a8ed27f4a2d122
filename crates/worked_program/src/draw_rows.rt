use crate::rows::expect_on_domain;
use std::test::Fail;
use worked_texts::{joined, tight};

/// What stands at the front of each picture.
const HEAD: &str =
    "digraph domain {\nrankdir=LR;\nranksep=0.8;\nlabelloc=t;\nfontname=\"Helvetica\";\n\
    fontcolor=\"#d62728\";\nnode [fontname=\"Helvetica\", fontsize=11];\n\
    edge [fontname=\"Helvetica\", fontsize=10];\n";

/// The nodes up to the rows of the meter.
const NODES: &str = "node [shape=cds, style=filled, fillcolor=\"#dddddd\"];\n\"p\";\n\
    node [shape=plain, style=\"\"];\n\
    \"m\" [label=<<table border=\"1\" color=\"#666666\" cellborder=\"0\" cellspacing=\"2\" cellpadding=\"2\">\n\
    <tr><td colspan=\"3\"><b>m</b></td></tr>\n";

/// What stands between what a test is of and its bar.
const BAR: &str =
    "</td><td><table border=\"1\" color=\"#999999\" cellborder=\"0\" cellspacing=\"0\" \
    cellpadding=\"0\"><tr>";

/// What stands between a bar and what is taken.
const BEHIND: &str = "</tr></table></td><td align=\"right\">";

/// What follows the rows: the link from the port to the meter.
const LINKED: &str = "</table>>];\nedge [style=dashed, color=\"#888888\"];\n\
    \"p\" -> \"m\" [label=\"floor 0 ns\\njitter 1000000 ns\"];\n\
    node [shape=box, style=\"rounded,filled\", fontcolor=\"#ffffff\"];\nedge [style=solid, penwidth=2];\n";

#[test]
fn a_refused_domain_is_drawn_with_its_refusal(rt: HostRuntime) -> Result<(), Fail> {
    let domain = tight(rt.alloc())?;
    let drawn = joined(
        rt.alloc(),
        &[
            HEAD,
            "label=\"refused 5 GreenBurst m 9000 4500\n\";\n",
            NODES,
            "<tr><td align=\"left\">green rate",
            BAR,
            "<td fixedsize=\"true\" height=\"8\" bgcolor=\"#59a14f\" width=\"100\"></td>",
            BEHIND,
            "16000000 of 16000000 bit/s</td></tr>\n<tr><td align=\"left\">green burst",
            BAR,
            "<td fixedsize=\"true\" height=\"8\" bgcolor=\"#d62728\" width=\"100\"></td>",
            BEHIND,
            "9000 of 4500 bytes</td></tr>\n<tr><td align=\"left\">all rate",
            BAR,
            "<td fixedsize=\"true\" height=\"8\" bgcolor=\"#e0b000\" width=\"66\"></td>",
            "<td fixedsize=\"true\" height=\"8\" bgcolor=\"#ffffff\" width=\"34\"></td>",
            BEHIND,
            "16000000 of 24000000 bit/s</td></tr>\n<tr><td align=\"left\">all burst",
            BAR,
            "<td fixedsize=\"true\" height=\"8\" bgcolor=\"#e0b000\" width=\"66\"></td>",
            "<td fixedsize=\"true\" height=\"8\" bgcolor=\"#ffffff\" width=\"34\"></td>",
            BEHIND,
            "9000 of 13500 bytes</td></tr>\n",
            LINKED,
            "\"contract a\" [color=\"#4e79a7\", fillcolor=\"#4e79a7\", \
            label=\"a\\ntrusted, class AF1\\ncir 8000000 bit/s\"];\n\
            \"contract a\" -> \"p\" -> \"m\" [color=\"#4e79a7\"];\n",
            "\"contract b\" [color=\"#f28e2b\", fillcolor=\"#f28e2b\", \
            label=\"b\\ntrusted, class AF2\\ncir 8000000 bit/s\"];\n\
            \"contract b\" -> \"p\" -> \"m\" [color=\"#f28e2b\"];\n}\n",
        ],
    )?;
    let words = ("draw domain.toml", domain.as_str());
    expect_on_domain(&rt, rt.alloc(), words, (drawn.as_str(), "", 0))
}

#[test]
fn a_fault_of_a_domain_is_told_in_place_of_a_picture(rt: HostRuntime) -> Result<(), Fail> {
    let words = (
        "draw domain.toml",
        "[[meter]]\nname = \"m\"\nname = \"n\"\n",
    );
    let fault = "dsedge: domain 1 Text text 0 -\n";
    expect_on_domain(&rt, rt.alloc(), words, ("", fault, 3))
}
