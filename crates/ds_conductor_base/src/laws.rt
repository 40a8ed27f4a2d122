//! What visits make, proved as the contracts of functions that do nothing.
ghost use Rattle.ds_conductor_base.specs.Laws.{AllColoursCome, HeadStartsHold, NoColourIsLeft, OneColourEach};
ghost use Rattle.ds_conductor_base.specs.Laws.{VisitsUpToAMomentAreFinal};

/// As many packets leave as were sent: each with one colour, at the place that it was sent at.
pub fn each_packet_leaves_with_one_colour()
    ensures { OneColourEach }
{}

/// Where packets come to no hop before a moment, the visits at or before it are those of the packets before them.
pub fn visits_up_to_a_moment_are_final()
    ensures { VisitsUpToAMomentAreFinal }
{}

/// What is sent at a port at a moment or later comes to no hop before that moment and a head start of the port.
pub fn head_starts_hold()
    ensures { HeadStartsHold }
{}

/// Before the first packet is sent, the colours of all packets are still to come.
pub fn all_colours_come()
    ensures { AllColoursCome }
{}

/// Once all visits are made and the next packet is not decided, since there is none, no colour is still to come: all
/// were handed out.
pub fn no_colour_is_left()
    ensures { NoColourIsLeft }
{}
