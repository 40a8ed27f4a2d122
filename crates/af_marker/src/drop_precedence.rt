ghost use Rattle.std.specs.Prelude.{◌≡◌, ◌≤◌, Some, MatchOption};
ghost use Rattle.af_marker.specs.CodePoints.{code_point, colour_at, drop_precedence};

use crate::code_point::{Class, Dscp};
use moment_core::Colour;

/// The drop precedence of a colour: 1 for green, 2 for yellow and 3 for red (RFC 2597 sections 2 and 6).
fn precedence_of(colour: Colour) -> u8
    ensures value { result ≡ drop_precedence colour }
    ensures range { result ≤ 3 }
{
    match colour {
        Colour::Green => 1,
        Colour::Yellow => 2,
        Colour::Red => 3,
    }
}

/// The code point of a class for packets of a colour (RFC 2597 section 6). `colour_of` reads the colour back.
pub fn dscp(class: Class, colour: Colour) -> Dscp
    ensures value { result ≡ code_point class colour }
    ensures reads_back { colour_at class result ≡ Some colour }
{
    Dscp::of_class(class, precedence_of(colour))
}

/// The colour whose code point in the class this is; `None` where it is none of the class's three (RFC 2597 section 6).
#[tactic(auto, using(crate::proofs::CodePointLaws::is_green, crate::proofs::CodePointLaws::is_yellow, crate::proofs::CodePointLaws::is_red, crate::proofs::CodePointLaws::has_no_colour))]
pub fn colour_of(class: Class, dscp: Dscp) -> Option<Colour>
    ensures value { result ≡ colour_at class dscp }
    ensures exact { MatchOption result ((colour : Colour) → dscp ≡ code_point class colour → ⊥)
        (λ colour. dscp ≡ code_point class colour) }
{
    let first = 8 * class.get() + 2;
    match dscp.get() {
        value if value == first => Some(Colour::Green),
        value if value == first + 2 => Some(Colour::Yellow),
        value if value == first + 4 => Some(Colour::Red),
        _ => None,
    }
}
