ghost use Rattle.std.specs.Prelude.{◌≡◌, ◌≤◌, option_map, IfSome};
ghost use Rattle.ds_domain_text.specs.Prefixes.{IsLong, address_of, cut_at, ipv4_prefix_of, ipv6_address_of};
ghost use Rattle.ds_domain_text.specs.Prefixes.{ipv6_prefix_of, plain_number, prefix_of};

use line_text::{cut, number};
use std::net::Ipv6Addr;

/// A prefix of addresses of one family: its address, the first byte in the highest bits, and how many bits count.
#[derive(Clone, Copy, Debug, PartialEq, Eq)]
pub enum AddressPrefix {
    /// Of IPv4, from 0 to 32 bits.
    V4(u32, u8),
    /// Of IPv6, from 0 to 128 bits.
    V6(u128, u8),
}

/// A prefix of IPv4 addresses, or where they may be asked for, of IPv6 addresses. `None` for any other text.
pub fn prefix_of(with_ipv6: bool, text: &[u8]) -> Option<AddressPrefix>
    ensures value { result ≡ prefix_of with_ipv6 text.now }
    ensures range { IfSome result IsLong }
{
    if let Some((address, count)) = ipv4_prefix_of(text) {
        return Some(AddressPrefix::V4(address, count));
    }
    if !with_ipv6 {
        return None;
    }
    let (address, count) = ipv6_prefix_of(text)?;
    Some(AddressPrefix::V6(address, count))
}

/// A prefix as `10.0.1.0/24`: four numbers from 0 to 255 with a dot between them, the first the highest byte, then a
/// slash and how many bits count, from 0 to 32. The numbers have no leading zeros, and bits past the count are kept as
/// they are written. `None` for any other text.
#[tactic(auto, unfolding(crate::specs::Prefixes::ipv4_prefix_of))]
pub fn ipv4_prefix_of(text: &[u8]) -> Option<(u32, u8)>
    ensures value { result ≡ ipv4_prefix_of text.now }
    ensures range { IfSome result (λ parts. parts.1 ≤ 32) }
{
    let (front, behind) = cut_at(text, b'/')?;
    let address = address_of(front)?;
    let count = plain_number(behind, 32)?;
    Some((address, count))
}

/// A prefix as `2001:db8::/32`: an address (RFC 4291 section 2.2), then a slash and how many bits count, from 0 to 128
/// (RFC 4291 section 2.3). The count has no leading zeros, and bits past it are kept as they are written. `None` for any
/// other text.
#[tactic(auto, unfolding(crate::specs::Prefixes::ipv6_prefix_of))]
pub fn ipv6_prefix_of(text: &[u8]) -> Option<(u128, u8)>
    ensures value { result ≡ ipv6_prefix_of text.now }
    ensures range { IfSome result (λ parts. parts.1 ≤ 128) }
{
    let (front, behind) = cut_at(text, b'/')?;
    let address = ipv6_address_of(front)?;
    let count = plain_number(behind, 128)?;
    Some((address, count))
}

/// An address as `2001:db8::1` (RFC 4291 section 2.2).
fn ipv6_address_of(text: &[u8]) -> Option<u128>
    ensures { result ≡ ipv6_address_of text.now }
{
    match Ipv6Addr::parse_ascii(text) {
        Ok(address) => Some(address.to_bits()),
        Err(_) => None,
    }
}

/// An address as `10.0.1.0`.
#[tactic(auto, unfolding(crate::specs::Prefixes::address_of))]
fn address_of(text: &[u8]) -> Option<u32>
    ensures { result ≡ address_of text.now }
{
    let (first, more) = cut_at(text, b'.')?;
    let (second, more) = cut_at(more, b'.')?;
    let (third, fourth) = cut_at(more, b'.')?;
    let a = plain_number(first, 255)?;
    let b = plain_number(second, 255)?;
    let c = plain_number(third, 255)?;
    let d = plain_number(fourth, 255)?;
    Some(u32::from_be_bytes([a, b, c, d]))
}

/// What stands before the first `mark` of a text, and what behind it.
fn cut_at(text: &[u8], mark: u8) -> Option<(&[u8], &[u8])>
    ensures { option_map (λ parts. (parts.0.now, parts.1.now)) result ≡ cut_at mark text.now }
{
    cut(text, mark)
}

/// A whole number of at most `most`, in decimal digits without a leading zero.
#[tactic(auto, unfolding(crate::specs::Prefixes::plain_number))]
fn plain_number(text: &[u8], most: u8) -> Option<u8>
    ensures value { result ≡ plain_number most text.now }
    ensures range { IfSome result (λ number. number ≤ most) }
{
    if text.len() > 1 && text[0] == b'0' {
        return None;
    }
    let value = number(text, u64::from(most))?;
    Some(value as u8)
}
