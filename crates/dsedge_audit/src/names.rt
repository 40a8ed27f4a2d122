ghost use Rattle.std.specs.Prelude.{◌≡◌, ◌+◌, ◌≤◌, ◌++◌, OnOk};
ghost use Rattle.arrayvec.specs.ArrayVec.{array_vec_len};
ghost use Rattle.dsedge_texts.specs.Wording.{name_of};
ghost use Rattle.dsedge_audit.specs.SiteNames.{site_name};

use ds_checker::Accepted;
use ds_domain_base::BoxedContract;
use dsedge_texts::line::{Line, push, push_word};
use std::alloc::AllocError;

/// Appends the name of a site: the meter's, or behind the meters `edge:` and the name of the contract whose edge it is.
pub fn push_site(text: &mut Vec<u8>, accepted: &Accepted, site: u32) -> Result<(), AllocError>
    ensures { OnOk result (text.new.items ≡ text.old.items ++ site_name accepted.now site) }
{
    let mut line = Line::new();
    write_site(&mut line, accepted, site);
    text.extend_from_slice(line.as_slice())
}

/// Appends the name of a site to a line.
pub fn write_site(line: &mut Line, accepted: &Accepted, site: u32)
    requires { array_vec_len line.old ≤ 100 }
    ensures text { line.new.items ≡ line.old.items ++ site_name accepted.now site }
    ensures room { array_vec_len line.new ≤ array_vec_len line.old + 37 }
{
    let meters = accepted.domain().meters();
    let place = site as usize;
    match meters.get_index(place) {
        Some((name, _)) => push_word(line, *name),
        None => {
            push(line, b"edge:");
            write_name(line, accepted.contracts(), place - meters.len());
        }
    }
}

/// Appends the name of the contract of a number to a line; nothing where there is none.
pub fn write_name(line: &mut Line, contracts: &[BoxedContract], number: usize)
    requires { array_vec_len line.old ≤ 105 }
    ensures text { line.new.items ≡ line.old.items ++ name_of contracts.now number }
    ensures room { array_vec_len line.new ≤ array_vec_len line.old + 32 }
{
    if let Some(contract) = contracts.get(number) {
        push_word(line, contract.contract().name);
    }
}
