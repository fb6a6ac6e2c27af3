//! Who fits whom, and for how long a participant is taken to be there.

/// Parameters of a writer and of a reader of one topic, by the table of DDS 1.4, 2.2.3; and leases.
pub const FITTING: &str = "\
# As the defaults are: a writer RELIABLE, a reader not.
fits / => None true
# RELIABILITY, DURABILITY.
fits 1a000c00 01000000 00000000 00000000 / 1a000c00 02000000 00000000 00000000 => Some(Reliability) false
fits 1a000c00 02000000 00000000 00000000 / 1a000c00 01000000 00000000 00000000 => None true
fits / 1a000c00 02000000 00000000 00000000 => None true
fits 1d000400 00000000 / 1d000400 01000000 => Some(Durability) false
fits 1d000400 01000000 / 1d000400 01000000 => None true
fits 1d000400 03000000 / 1d000400 02000000 => None true
# PRESENTATION: scope, coherent, ordered.
fits 21000800 00000000 00000000 / 21000800 01000000 00000000 => Some(Presentation) false
fits 21000800 02000000 01010000 / 21000800 01000000 00000000 => None true
fits 21000800 01000000 00010000 / 21000800 01000000 01010000 => Some(Presentation) false
fits 21000800 01000000 01000000 / 21000800 01000000 01010000 => Some(Presentation) false
# DEADLINE, LATENCY_BUDGET: no longer than requested.
fits / 23000800 01000000 00000000 => Some(Deadline) false
fits 23000800 01000000 00000000 / 23000800 01000000 00000000 => None true
fits 23000800 01000000 01000000 / 23000800 01000000 00000000 => Some(Deadline) false
fits 23000800 01000000 00000000 / => None true
fits 23000800 ffffff7f 00000000 / 23000800 ffffff7f ffffffff => None true
fits 27000800 00000000 01000000 / => Some(LatencyBudget) false
fits / 27000800 01000000 00000000 => None true
# OWNERSHIP is the same.
fits 1f000400 00000000 / 1f000400 01000000 => Some(Ownership) false
fits 1f000400 01000000 / 1f000400 00000000 => Some(Ownership) false
fits 1f000400 01000000 / 1f000400 01000000 => None true
# LIVELINESS: kind, lease.
fits 1b000c00 00000000 ffffff7f ffffffff / 1b000c00 02000000 ffffff7f ffffffff => Some(Liveliness) false
fits 1b000c00 02000000 02000000 00000000 / 1b000c00 02000000 01000000 00000000 => Some(Liveliness) false
fits 1b000c00 02000000 01000000 00000000 / 1b000c00 00000000 02000000 00000000 => None true
# DESTINATION_ORDER, DATA_REPRESENTATION.
fits 25000400 00000000 / 25000400 01000000 => Some(DestinationOrder) false
fits 25000400 01000000 / 25000400 00000000 => None true
fits 73000800 01000000 0200 0000 / => Some(DataRepresentation) false
fits 73000800 02000000 0000 0200 / 73000800 01000000 0200 0000 => Some(DataRepresentation) false
fits 73000800 02000000 0200 0000 / 73000800 02000000 0000 0200 => None true
fits 73000400 00000000  / 73000800 01000000 0000 0000 => None true
# The first in order is named.
fits 1a000c00 01000000 00000000 00000000 \
/ 1a000c00 02000000 00000000 00000000 23000800 01000000 00000000 => Some(Reliability) false
fits 1f000400 01000000 25000400 00000000 / 25000400 01000000 => Some(Ownership) false
# PARTITION: none is the one without a name; one of both is enough.
fits 29000c00 01000000 02000000 61000000 / => None false
fits 29001400 02000000 02000000 61000000 02000000 63000000 \
/ 29001400 02000000 02000000 62000000 02000000 63000000 => None true
fits 29000c00 01000000 02000000 61000000 / 29000c00 01000000 02000000 62000000 => None false
fits 29000c00 01000000 01000000 00000000 / => None true
fits / 29001400 02000000 02000000 61000000 01000000 00000000 => None true
# A lease, in units of 2^-32 second: a second at least, 300 seconds at most.
lease 0 0 => 4294967296
lease 1 1 => 4294967297
lease 100 0 => 429496729600
lease 300 1 => 1288490188800
lease 2147483647 0 => 1288490188800
";
