ghost use Rattle.std.specs.Prelude.{◌≡◌, ◌≤◌, length, IfOk, IsSome};
ghost use Rattle.toml.specs.Parse as parse;
ghost use Rattle.toml_places.specs.Searches.{found_in};

use crate::expressions::read_expression;
use crate::findings::Findings;
use crate::sought::Sought;
use std::alloc::Global;
use toml_parser::text::{byte_at, first, skip_blank};

/// Why a text was not searched: it is no TOML, or memory ran out.
#[derive(Clone, Copy, Debug, PartialEq, Eq)]
pub struct Unread;

/// Behind a byte order mark.
#[tactic(auto, unfolding(toml::specs::Parse::skip_bom))]
fn skip_bom(s: &str) -> &str
    ensures rest { result.now ≡ parse.skip_bom s.now }
    ensures within { length result.now ≤ length s.now }
{
    if first(s) == 0xEF && byte_at(s, 1) == 0xBB && byte_at(s, 2) == 0xBF {
        &s[3..]
    } else {
        s
    }
}

/// Where a key of a text stands, and the entry that it is sought in.
pub fn search(alloc: Global, text: &str, sought: &Sought<'_>) -> Result<Findings, Unread>
    ensures { IsSome (parse.parse_document text.now) →
        IfOk result (λ findings. findings ≡ found_in sought.now text.now) }
{
    let size = text.len();
    let mut progress = sought.start();
    let mut rest = skip_bom(text);
    'lines: loop {
        let start = skip_blank(rest, true);
        if start.is_empty() {
            return Ok(progress.findings);
        }
        let Some(found) = read_expression(alloc, start) else {
            return Err(Unread);
        };
        progress = sought.after(progress, size, start, &found);
        rest = found.behind;
    }
}
