//! A shared peer, recorded or flat, as the tests have it.
//!
//! The trait has no clauses: what is proved of a shared peer is met here, once, and what uses it owes nothing.

use dds_base::{Code, Moment, Octets};
use dds_conditions::Filter;
use dds_keeping::{Handing, Keeping};
use dds_notices::Listener;
use dds_protocol::{Event, Output};
use dds_script::{Side, TranscriptLine};
use dds_shared::{Named, Pass, Shared};
use std::alloc::Global;
use std::sync::Wait;

// What an event gave: the line that a script prints of the reply, and the packet that was sent.
#[derive(Drop)]
pub struct Answer {
    pub text: String,
    pub packet: Octets,
}

// A peer, of which each thread has a pass.
pub trait Peer<P> {
    // Does an event.
    fn does<R: Wait>(
        &self,
        rt: &R,
        alloc: Global,
        pass: &mut P,
        event: Event,
    ) -> Result<Answer, Code>;

    // Waits in the first WaitSet, up to this moment.
    fn waits<R: Wait>(
        &self,
        rt: &R,
        alloc: Global,
        pass: &mut P,
        deadline: Moment,
    ) -> Result<Answer, Code>;

    // How many entries the peer has, as far as this pass has to see.
    fn front(&self, pass: &mut P) -> u64;

    // Both have seen what either has seen.
    fn meet(&self, pass: &mut P, other: &mut P);

    // A pass more.
    fn split<R: Wait>(&self, rt: &R, pass: &mut P) -> Result<P, Code>;
}

fn text_of(alloc: Global, output: &Output) -> Result<String, Code> {
    let mut line = TranscriptLine::new(alloc);
    line.push_reply(Side::Reader, &output.reply);
    Ok(line.finish()?)
}

fn packet_of(alloc: Global, output: &Output) -> Result<Octets, Code> {
    match output.packets.as_slice().first() {
        Some(packet) => Ok(packet.bytes.clone()?),
        None => Ok(Octets::from_vec(Vec::new(alloc))),
    }
}

fn answer_of(alloc: Global, output: Option<&Output>) -> Result<Answer, Code> {
    let Some(output) = output else {
        return Err(Code::Error);
    };
    let text = text_of(alloc, output)?;
    let packet = packet_of(alloc, output)?;
    Ok(Answer { text, packet })
}

impl<N: Named<F, L>, F: Filter, L: Listener, T: Keeping, P: Handing> Peer<Pass<N, P>>
    for Shared<N, F, L, T, P> {
    fn does<R: Wait>(
        &self,
        rt: &R,
        alloc: Global,
        pass: &mut Pass<N, P>,
        event: Event,
    ) -> Result<Answer, Code> {
        let given = self.event(rt, pass, event)?;
        answer_of(alloc, pass.output(&given))
    }

    fn waits<R: Wait>(
        &self,
        rt: &R,
        alloc: Global,
        pass: &mut Pass<N, P>,
        deadline: Moment,
    ) -> Result<Answer, Code> {
        let given = self.wait_in(rt, pass, 1, deadline)?;
        answer_of(alloc, pass.output(&given))
    }

    fn front(&self, pass: &mut Pass<N, P>) -> u64 {
        self.front(pass)
    }

    fn meet(&self, pass: &mut Pass<N, P>, other: &mut Pass<N, P>) {
        self.meet_pass(pass, other);
    }

    fn split<R: Wait>(&self, rt: &R, pass: &mut Pass<N, P>) -> Result<Pass<N, P>, Code> {
        self.split_pass(rt, pass)
    }
}
