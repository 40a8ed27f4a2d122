ghost use Rattle.std.specs.Prelude.{◌≡◌, ◌++◌, OnOk, flat_map};
ghost use Rattle.dsedge_audit.specs.Audited.{accounts_line, share_text};

use crate::names::push_site;
use ds_checker::Accepted;
use dsedge_texts::push_figure;
use meter_book::{Accounts, Journal};
use std::alloc::AllocError;

/// Appends the lines of the sites of these journals, each with its accounts.
pub fn push_sites(
    text: &mut Vec<u8>,
    accepted: &Accepted,
    journals: &[Journal],
) -> Result<(), AllocError>
    ensures { OnOk result (text.new.items ≡ text.old.items ++ flat_map (accounts_line accepted.now) journals.now) }
{
    for journal in journals {
        push_accounts_line(text, accepted, journal)?;
    }
    Ok(())
}

/// Appends the line of a journal's site: its name, and the shares of green, of yellow and of red packets.
fn push_accounts_line(
    text: &mut Vec<u8>,
    accepted: &Accepted,
    journal: &Journal,
) -> Result<(), AllocError>
    ensures { OnOk result (text.new.items ≡ text.old.items ++ accounts_line accepted.now journal.now) }
{
    let Accounts { packets, bytes } = journal.accounts();
    push_site(text, accepted, journal.site())?;
    push_share(text, "green", packets[0], bytes[0])?;
    push_share(text, "yellow", packets[1], bytes[1])?;
    push_share(text, "red", packets[2], bytes[2])?;
    text.push(b'\n')?;
    Ok(())
}

/// Appends a colour's name, its packets and its bytes, behind a space.
fn push_share(text: &mut Vec<u8>, name: &str, packets: u64, bytes: u64) -> Result<(), AllocError>
    ensures { OnOk result (text.new.items ≡ text.old.items ++ share_text name.now packets bytes) }
{
    text.push(b' ')?;
    text.extend_from_slice(name.as_bytes())?;
    push_figure(text, packets)?;
    push_figure(text, bytes)
}
