//! An event of a peer, whose packet is lent.
//!
//! DDS 1.4, 2.2.2.4 and 2.2.2.5 (calls); RTPS 2.5, 8.3.4 (the message receiver).

use dds_base::Moment;
use dds_machine::Call;

/// What happens to a peer. A packet is read where its bytes stand, so whoever keeps it needs no copy.
#[derive(Drop)]
pub enum LentEvent<'a> {
    /// A call of the application.
    Call(Call),
    /// The time goes on to this moment.
    Tick(Moment),
    /// The bytes of a packet come, whatever they are.
    Deliver(&'a [u8]),
    /// The places of the reader of this number are tried again.
    Resume { reader: u8 },
}
