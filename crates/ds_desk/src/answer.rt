//! What a desk answers: each answer beside the history that it rests on.
use crate::log::{Front, Naming};
use ds_broker::{BrokerRefusal, Grant, Serial};
use ds_timeline::Timeline;

/// What a contract was granted as.
#[derive(Drop)]
pub struct Granted<J: Naming> {
    /// Its id, the number of the command, and when it begins.
    pub grant: Grant,
    /// The history up to that command.
    pub front: Front<J>,
}

/// What a release or a retire was accepted as.
#[derive(Drop)]
pub struct Done<J: Naming> {
    /// The number of the command.
    pub serial: Serial,
    /// The history up to that command.
    pub front: Front<J>,
}

/// Why a command was refused.
#[derive(Drop)]
pub struct Refused<J: Naming> {
    /// The refusal.
    pub refusal: BrokerRefusal,
    /// The history that it rests on.
    pub front: Front<J>,
}

/// Every contract that a desk ever granted.
#[derive(Drop)]
pub struct Told<J: Naming> {
    /// Each with what became of it.
    pub timeline: Timeline,
    /// The history that it is the timeline of.
    pub front: Front<J>,
}
