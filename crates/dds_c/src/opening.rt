//! How a peer is opened and closed.
//!
//! DDS 1.4, 2.2.2.2 (DomainParticipant), 2.2.3 (supported QoS).

ghost use Rattle.std.specs.Prelude.{◌≡◌, ◌≢◌, ◌⊎◌, None, Some, IfOk, IfErr, IsSomeAnd};
ghost use Rattle.dds_base.specs.Refusal.{Refuses};
ghost use Rattle.dds_base.specs.declared.code.Code.TheVariants as Code;
ghost use Rattle.dds_core.specs.Opening.{core_refusal};
ghost use Rattle.dds_c.specs.Answering.{refusing_number};
ghost use Rattle.dds_c.specs.Opening.{IsOpening, IsSomeOpening, RefusesBy, RefusesText, config_of, open_refusal};

use crate::config::{FlatPeer, FlatReader, FlatWriter, config, name_no_peer};
use crate::lines::config_of_text;
use crate::peer::Peer;
use crate::session::{Session, refusal};
use dds_base::{Code, Config};
use std::alloc::Global;

/// A peer of a configuration, in a box.
fn opened(alloc: Global, config: &Config, number: u32) -> Result<Box<Session>, Code>
    ensures opening { IfOk result (λ session. IsOpening config.now number session.value) }
    ensures refused { IfErr result (Refuses (core_refusal config.now.peers number)) }
{
    let session = Session::open(alloc, config, number)?;
    Ok(Box::new(alloc, session)?)
}

/// A peer of a configuration in arrays, in a box.
fn opened_of(
    alloc: Global,
    peers: &[FlatPeer],
    writers: &[FlatWriter],
    readers: &[FlatReader],
    number: u32,
) -> Result<Box<Session>, Code>
    ensures opening { IfOk result (λ session.
        IsOpening (config_of peers.now writers.now readers.now) number session.value) }
    ensures taken { IfOk result (λ session.
        open_refusal peers.now writers.now readers.now number ≡ None) }
    ensures refused { IfErr result (λ code.
        Refuses (open_refusal peers.now writers.now readers.now number) code
        ⊎ (code ≡ Code.Memory)) }
{
    if name_no_peer(peers.len(), writers, readers) {
        return Err(Code::BadParameter);
    }
    let config = config(alloc, peers, writers, readers)?;
    opened(alloc, &config, number)
}

/// A peer of a configuration in lines, in a box.
fn opened_of_text(alloc: Global, text: &[u8], number: u32) -> Result<Box<Session>, Code>
    ensures opening { IfOk result (λ session. IsSomeOpening number session.value) }
    ensures refused { IfErr result (λ code. RefusesText number (refusing_number code)) }
{
    let config = config_of_text(alloc, text)?;
    opened(alloc, &config, number)
}

/// Keeps what was opened, in place of what was open before.
fn keep(alloc: Global, peer: &mut Peer, session: Box<Session>)
    ensures kept { peer.new.held.session ≡ Some session.value }
{
    drop(peer.take(alloc));
    peer.put(session);
}

/// Opens a peer of a configuration, by its number from 1; what was open before is closed.
///
/// # Errors
///
/// BAD_PARAMETER where a writer or a reader names no peer; else as `Core::open` has them: BAD_PARAMETER and
/// INCONSISTENT_POLICY for the configuration, BAD_PARAMETER where it has no peer of this number, and MEMORY. Nothing
/// changes then: what was open stays open.
///
/// DDS 1.4, 2.2.2.2 (DomainParticipant), 2.2.3 (supported QoS).
#[unsafe(no_mangle)]
pub extern "C" fn cw_open(
    alloc: Global,
    peer: &mut Peer,
    peers: &[FlatPeer],
    writers: &[FlatWriter],
    readers: &[FlatReader],
    number: u32,
) -> u8
    // What is open then is that peer of the configuration, at its opening.
    ensures open { result ≡ 0 → IsSomeAnd peer.new.held.session
        (IsOpening (config_of peers.now writers.now readers.now) number) }
    // Against what is opened there is no cause.
    ensures taken { result ≡ 0 → open_refusal peers.now writers.now readers.now number ≡ None }
    // A refusal is by the first cause that there is, or for want of memory.
    ensures refused { result ≢ 0
        → RefusesBy (open_refusal peers.now writers.now readers.now number) result }
    // A refusal changes nothing.
    ensures unchanged { result ≢ 0 → peer.new.held.session ≡ peer.old.held.session }
{
    match opened_of(alloc, peers, writers, readers, number) {
        Ok(session) => {
            keep(alloc, peer, session);
            Code::Ok.number()
        }
        Err(code) => refusal(code),
    }
}

/// The same of a configuration in lines: `peer`, `writer` and `reader` of docs/PIPE.md, each ended by a line feed. What
/// a text means is tested, and no clause says it.
///
/// # Errors
///
/// BAD_PARAMETER for a line that is none of these, or a writer or a reader before any peer; else as `cw_open` has them.
#[unsafe(no_mangle)]
pub extern "C" fn cw_open_text(alloc: Global, peer: &mut Peer, text: &[u8], number: u32) -> u8
    // What is open then is the peer of this number of some configuration, at its opening.
    ensures open { result ≡ 0 → IsSomeAnd peer.new.held.session (IsSomeOpening number) }
    // A refusal is BAD_PARAMETER, as the text is none of a configuration, or it is by the first cause that there is
    // against the peer of this number of some configuration, or for want of memory.
    ensures refused { result ≢ 0 → RefusesText number result }
    // A refusal changes nothing.
    ensures unchanged { result ≢ 0 → peer.new.held.session ≡ peer.old.held.session }
{
    match opened_of_text(alloc, text, number) {
        Ok(session) => {
            keep(alloc, peer, session);
            Code::Ok.number()
        }
        Err(code) => refusal(code),
    }
}

/// Frees what the peer holds. Where none is open it does nothing.
#[unsafe(no_mangle)]
pub extern "C" fn cw_close(alloc: Global, peer: &mut Peer)
    // None is open.
    ensures closed { peer.new.held.session ≡ None }
{
    peer.take(alloc);
}
