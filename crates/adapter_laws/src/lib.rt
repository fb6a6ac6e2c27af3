//! What holds of a network whose datagrams go through adapters: functions that do nothing, and whose clauses are the laws.
//! No crate stands on this one.
//!
//! RTPS 2.5, 8.3 (messages) and clause 10 (SerializedPayload).
#![tactic(auto)]

ghost use Rattle.adapter_laws.specs.Networks.{AdaptersChangeNothing};

/// A network with adapters of one table at both ends is the network without them: each packet that it sends comes to its
/// peer as it was, octet for octet, where each change is one of the type that its topic carries, and what went out is no
/// longer than a message may be.
pub fn adapters_change_nothing()
    // Each packet that was sent since the opening does so.
    ensures same { AdaptersChangeNothing }
{}
