//! The law of colours, and what a verdict says, proved as the contracts of functions that do nothing.
ghost use Rattle.run_audit.specs.Examples.{SmallRunIsKept};
ghost use Rattle.run_audit.specs.KeptColours.{EveryRunKeepsColours, EveryRunOverATimelineKeepsColours};
ghost use Rattle.run_audit.specs.Laws.{KeptIsWhatPremisesSay, TheFirstOverIsTold, TheLeastPacketIsTold};
ghost use Rattle.run_audit.specs.PolicedExample.{PolicedRunIsKept};
ghost use Rattle.run_audit.specs.SoldTwiceExample.{ShareSoldTwiceIsKept};

/// Where the checker accepts a domain, its contracts and their certificate, then in every run of its meters by any
/// workers in any order, in which trusted sources keep their buckets, links keep their jitter and meters their skew,
/// every packet sent within its committed contract leaves every meter green and none within its peak contract leaves
/// one red.
///
/// A run has no order of its own: its journals are what each meter saw, and its packets what each of them carried away
/// (RFC 2475 section 2.3.3; Cruz 1991, section II).
pub fn every_run_keeps_colours()
    ensures { EveryRunKeepsColours }
{}

/// So it is where contracts come and go, and a share is sold to one contract after another: where no two contracts have
/// the same flow, what is reserved at each moment is acceptable, no contract sends before its share is reserved, each
/// share is held behind its contract's end for its hold, and what was retired had a rate of at least 1 bit per second in
/// each column, every packet leaves every meter with the colour that it was sent with, in every run that meets the same
/// premises.
///
/// The hold is as long as the last packet may take to a meter, and then as long as the rate takes for the burst there.
/// So what a retired contract brought into a window of time its rate alone gives, in the time for which its share was
/// reserved (Cruz 1991, section II).
pub fn every_run_over_a_timeline_keeps_colours()
    ensures { EveryRunOverATimelineKeepsColours }
{}

/// What is asked of a run can be met: a packet of 100 bytes passes the only meter of a domain.
pub fn small_run_is_kept()
    ensures { SmallRunIsKept }
{}

/// It can be met where the contract is policed, too: the packet passes an edge and then a meter, both of the single
/// rate (RFC 2697).
pub fn policed_run_is_kept()
    ensures { PolicedRunIsKept }
{}

/// It can be met where a share is sold twice, one time after the other: two contracts of which the meter can carry only
/// one at a time, and each of which sends its whole burst.
pub fn a_share_sold_twice_is_kept()
    ensures { ShareSoldTwiceIsKept }
{}

/// A run is found kept exactly where its contracts keep their time, its trusted sources their envelopes, its links
/// their floors and jitters, and its meters their skews.
pub fn kept_is_what_premises_say()
    ensures { KeptIsWhatPremisesSay }
{}

/// The packet that a verdict names as outside its contract is the least one that was sent so, and the packet that it
/// names as delayed the least one that a link did not carry in its time.
pub fn the_least_packet_is_told()
    ensures { TheLeastPacketIsTold }
{}

/// The contract that a verdict names as over its envelope is the first trusted one that is, the column the first in
/// which it is, and the packet the first with which it is, in the order in which its packets were sent.
pub fn the_first_over_is_told()
    ensures { TheFirstOverIsTold }
{}
