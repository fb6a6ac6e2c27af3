//! What a caller gives back of an answer, for the answers that follow.

ghost use Rattle.std.specs.Prelude.{◌≡◌};

use crate::peer::Peer;
use dds_base::Spare;
use dds_machine::{Move, Reply, Report};
use dds_protocol::{Output, Packet};
use std::alloc::Global;

/// Emptied lists of earlier answers.
#[derive(Drop)]
pub struct SpareLists {
    pub packets: Spare<Packet>,
    pub moves: Spare<Move>,
    /// The index of the reader whose samples were asked for last.
    pub reader: usize,
}

impl SpareLists {
    /// None. Takes no memory.
    pub fn new(alloc: Global) -> SpareLists {
        SpareLists {
            packets: Spare::new(alloc),
            moves: Spare::new(alloc),
            reader: 0,
        }
    }
}

impl Peer {
    /// Takes an answer's lists back, as `Core::reuse` has it.
    #[inline(always)]
    pub(crate) fn reuse(&mut self, output: Output)
        ensures { self.new ≡ self.old }
    {
        let Output { reply, packets, .. } = output;
        self.spare.packets.keep(packets.into_vec());
        match reply {
            Reply::Samples(samples) => {
                if let Some(reader) = self.readers.get_mut(self.spare.reader) {
                    reader.lend(samples.into_vec());
                }
            }
            Reply::Reported(report) => {
                let Report { moves, .. } = report;
                self.spare.moves.keep(moves.into_vec());
            }
            _ => {}
        }
    }
}
