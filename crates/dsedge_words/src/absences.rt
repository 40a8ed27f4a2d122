use crate::nearest::Nearest;
use crate::shown::{name_text, push_shown};
use ds_domain_base::{BoxedContract, Domain};
use std::alloc::{AllocError, Global};

/// How many names are listed.
const MOST_LISTED: usize = 20;

/// Names that there are, as they are listed.
#[derive(Drop)]
struct Listing<'a> {
    words: String,
    nearest: Nearest<'a>,
    count: usize,
}

impl<'a> Listing<'a> {
    /// None yet, for one that there is not.
    fn of(alloc: Global, kind: &str, sought: &'a str) -> Result<Self, AllocError> {
        let mut words = String::new(alloc);
        words.push_str(kind)?;
        Ok(Listing {
            words,
            nearest: Nearest::to(sought),
            count: 0,
        })
    }

    /// One more.
    fn push(&mut self, alloc: Global, name: &'a str) -> Result<(), AllocError> {
        if self.count < MOST_LISTED {
            self.words
                .push_str(if self.count == 0 { ": " } else { ", " })?;
            push_shown(&mut self.words, name)?;
        }
        if self.count == MOST_LISTED {
            self.words.push_str(", ...")?;
        }
        self.count = self.count.saturating_add(1);
        self.nearest.try_name(alloc, name)
    }

    /// The list, and the nearest of them.
    fn told(self) -> Result<String, AllocError> {
        let Listing {
            mut words,
            nearest,
            count: _,
        } = self;
        words.push_str("\n")?;
        nearest.push(&mut words)?;
        words.push_str("\n")?;
        Ok(words)
    }
}

/// What is said of the name of a port that a domain has not: those that it has, and the nearest of them.
pub fn ports_said(alloc: Global, domain: &Domain, sought: &str) -> Result<String, AllocError> {
    let mut listing = Listing::of(alloc, "ports", sought)?;
    for (name, _) in domain.ports().iter() {
        listing.push(alloc, name_text(name))?;
    }
    listing.told()
}

/// The same of the name of a meter.
pub fn meters_said(alloc: Global, domain: &Domain, sought: &str) -> Result<String, AllocError> {
    let mut listing = Listing::of(alloc, "meters", sought)?;
    for (name, _) in domain.meters().iter() {
        listing.push(alloc, name_text(name))?;
    }
    listing.told()
}

/// The same of the name of a contract, of those that there are.
pub fn contracts_said(
    alloc: Global,
    contracts: &[BoxedContract],
    sought: &str,
) -> Result<String, AllocError> {
    let mut listing = Listing::of(alloc, "contracts", sought)?;
    for contract in contracts {
        listing.push(alloc, name_text(&contract.contract().name))?;
    }
    listing.told()
}
