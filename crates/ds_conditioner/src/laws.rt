//! What the frames of a capture send, proved as the contracts of functions that do nothing.
ghost use Rattle.ds_conditioner.specs.Laws.{ARunIsBehindEachCapture, FramesCanBeSent, StampsAreEarly};

/// What the frames of a capture send at a port can be sent, and judged: moments do not fall, numbers rise, and each
/// contract that takes a frame is there.
pub fn frames_can_be_sent()
    ensures { FramesCanBeSent }
{}

/// The records of a classic capture are stamped more than 2^40 nanoseconds before the last moment that there is.
pub fn stamps_are_early()
    ensures { StampsAreEarly }
{}

/// Behind the packets that a capture sends at a port of an accepted table stands a run: its packets are the frames that
/// contracts take, each with the receipts of all its visits, and the colour that each left its last meter with is the
/// one that its frame is marked with; said of captures of at most 2^44 records.
pub fn a_run_is_behind_each_capture()
    ensures { ARunIsBehindEachCapture }
{}
