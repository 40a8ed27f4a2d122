ghost use Rattle.std.specs.Prelude.{◌≡◌, IfOk};
ghost use Rattle.serde_json.specs.View.{view};
ghost use Rattle.dsedge_json_faults.specs.FaultObjects.{capture_data, interface_data, length_data, link_type_data, plain_data};

use dsedge_faults::capture_kind;
use pcap_capture::PcapFault;
use serde_json::{Value, json};
use std::alloc::{AllocError, Global};

/// The object of a capture's fault.
pub(crate) fn capture_value(alloc: Global, fault: PcapFault) -> Result<Value, AllocError>
    ensures { IfOk result (λ value. view value ≡ capture_data fault) }
{
    match fault {
        PcapFault::LinkType(number) => link_type_value(alloc, fault, number),
        PcapFault::RecordTooLong(size)
        | PcapFault::BadLength(size)
        | PcapFault::BlockTooLong(size) => length_value(alloc, fault, size),
        PcapFault::UnknownInterface(number) => interface_value(alloc, fault, number),
        _ => plain_value(alloc, fault),
    }
}

/// The object of a capture's fault with the link type that the capture has.
fn link_type_value(alloc: Global, fault: PcapFault, link_type: u16) -> Result<Value, AllocError>
    ensures { IfOk result (λ value. view value ≡ link_type_data fault link_type) }
{
    let (code, kind) = (fault.code(), capture_kind(fault));
    json!(in alloc; {"code": code, "fault": "capture", "kind": kind, "link_type": link_type})
}

/// The object of a capture's fault with how long a record or a block is said to be.
fn length_value(alloc: Global, fault: PcapFault, length: u32) -> Result<Value, AllocError>
    ensures { IfOk result (λ value. view value ≡ length_data fault length) }
{
    let (code, kind) = (fault.code(), capture_kind(fault));
    json!(in alloc; {"code": code, "fault": "capture", "kind": kind, "length": length})
}

/// The object of a capture's fault with the interface that no block described.
fn interface_value(alloc: Global, fault: PcapFault, interface: u32) -> Result<Value, AllocError>
    ensures { IfOk result (λ value. view value ≡ interface_data fault interface) }
{
    let (code, kind) = (fault.code(), capture_kind(fault));
    json!(in alloc; {"code": code, "fault": "capture", "interface": interface, "kind": kind})
}

/// The object of a capture's fault by its number and its kind.
fn plain_value(alloc: Global, fault: PcapFault) -> Result<Value, AllocError>
    ensures { IfOk result (λ value. view value ≡ plain_data fault) }
{
    let (code, kind) = (fault.code(), capture_kind(fault));
    json!(in alloc; {"code": code, "fault": "capture", "kind": kind})
}
