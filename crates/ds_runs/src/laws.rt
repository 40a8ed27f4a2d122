//! The runs that steps make, and the run behind packets that are sent with the verdict on it, proved as the contracts of
//! functions that do nothing.
ghost use Rattle.ds_runs.specs.ConductingLaws.{JournalsAreTheVisits, PacketsAreThoseSent, StepsKeepOnTheWay};
ghost use Rattle.ds_runs.specs.ConductingLaws.{StepsMakeRuns};
ghost use Rattle.ds_runs.specs.Example.{SmallPacketIsMarked};
ghost use Rattle.ds_runs.specs.JudgedLaws.{TheJudgeTells, TheMadeRunIsJudged, TheRunIsJudged};
ghost use Rattle.ds_runs.specs.Laws.{KeptMarksAreSentColours, TheRunIsBehind};

/// Before the first step, packets are on the ways of their contracts and the books of the sites have the rows that they
/// carry; each step that is made keeps it so; and what has been made so far is then a run.
pub fn every_step_keeps_on_the_way()
    ensures { StepsKeepOnTheWay }
{}

/// Whatever steps are made, and in whatever order, they make a run: each journal is the replay of what arrived at its
/// site, each packet carries the receipts of the first hops of its way, and the two tell the same rows.
pub fn steps_make_runs()
    ensures { StepsMakeRuns }
{}

/// The packets of the run that a list of steps makes are those that it sends, in its order.
pub fn packets_are_those_sent()
    ensures { PacketsAreThoseSent }
{}

/// The journal of each site of the run that a list of steps makes notes the visits that come there, in the list's
/// order: each with the packet's contract, number and size, the number of its hop, the moment of the visit, and the
/// colour that the packet left its last hop with.
pub fn journals_are_the_visits()
    ensures { JournalsAreTheVisits }
{}

/// Where a table is acceptable and packets can be sent, there is a run behind them: its packets are those that are
/// sent, each with the receipts of all its visits, its journals note the visits in their order, and the colour that a
/// packet left its last meter with is the one that is marked.
pub fn the_run_is_behind()
    ensures { TheRunIsBehind }
{}

/// Where the verdict on a run behind packets is `Kept`, each of them is marked with the colour that it was sent with:
/// what is trusted with the one that its code point shows, what is policed with the one that its edge gave.
pub fn kept_marks_are_sent_colours()
    ensures { KeptMarksAreSentColours }
{}

/// What is asked can be met: in the least domain a packet of 100 bytes is sent; the run behind it is that of the
/// example, the verdict is `Kept`, and the packet is marked green.
pub fn a_small_packet_is_marked()
    ensures { SmallPacketIsMarked }
{}

/// The verdict on each run behind packets that are sent is told of these packets alone.
pub fn the_run_is_judged()
    ensures { TheRunIsJudged }
{}

/// What a judge keeps of packets that are sent tells their verdict.
pub fn the_judge_tells()
    ensures { TheJudgeTells }
{}

/// Where a table is acceptable, what a judge keeps of packets that can be sent tells the verdict on the run that is made
/// of them.
pub fn the_made_run_is_judged()
    ensures { TheMadeRunIsJudged }
{}
