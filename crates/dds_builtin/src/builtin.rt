//! The builtin endpoints by which two participants tell each other their endpoints, as a configuration of two peers.
//!
//! `specs/Builtin.antt` says it.
//!
//! RTPS 2.5, 8.5.4 (SEDP), 8.4.13 (the writer liveliness protocol), 9.3.1 (entity ids), 9.3.2 (BuiltinEndpointSet_t).

ghost use Rattle.std.specs.Prelude.{◌≡◌, ◌<◌, ◌∷◌, [], map, filter, IfOk};
ghost use Rattle.dds_builtin.specs.Builtin.{builtin_peer, builtin_reader, builtin_topics, builtin_writer, has_bit, is_before, key_of_topic, list_of, lists_of, network_of, number_of, number_of_topic, reader_bit, writer_bit};

use dds_base::{
    Config, EntityId, Guid, GuidPrefix, HistoryQos, PeerConfig, ReaderConfig, Sequence,
    WriterConfig,
};
use rtps_adapter::{KeyRule, Kind, WriterKind};
use rtps_announcements::Participant;
use std::alloc::{AllocError, Global};
use std::cmp::Ordering;

/// How many octets the announcement of an endpoint has at most: a longer one is a number that can't be read.
pub const MAX_ANNOUNCEMENT: u32 = 4096;

/// How many endpoints of a kind are known of a participant at a time by our builtin readers.
const MAX_KNOWN: i32 = 128;

/// All of the builtin endpoints.
///
/// RTPS 2.5, 9.3.2 (BuiltinEndpointSet_t).
const ALL_ENDPOINTS: u32 = 0x0c3c;

/// What builtin writers and readers speak of.
///
/// RTPS 2.5, 8.5.4 (DCPSPublication, DCPSSubscription), 8.4.13 (ParticipantMessage).
#[derive(Clone, Copy)]
pub enum Topic {
    /// Which writers there are.
    Publications,
    /// Which readers there are.
    Subscriptions,
    /// Who is alive.
    Messages,
}

/// All three.
const TOPICS: [Topic; 3] = [Topic::Publications, Topic::Subscriptions, Topic::Messages];

impl Topic {
    /// The key of the entity ids of its writer and its reader.
    fn key(self) -> [u8; 3]
        ensures { result ≡ key_of_topic self }
    {
        match self {
            Topic::Publications => [0, 0, 3],
            Topic::Subscriptions => [0, 0, 4],
            Topic::Messages => [0, 2, 0],
        }
    }

    /// The first of its two topics of a network, one for each way.
    fn number(self) -> u32
        ensures number { result ≡ number_of_topic self }
        ensures small { result < 5 }
    {
        match self {
            Topic::Publications => 0,
            Topic::Subscriptions => 2,
            Topic::Messages => 4,
        }
    }

    /// The bit of its writer.
    fn writer_bit(self) -> u32
        ensures bit { result ≡ writer_bit self }
        ensures some { 0 < result }
    {
        match self {
            Topic::Publications => 0x004,
            Topic::Subscriptions => 0x010,
            Topic::Messages => 0x400,
        }
    }

    /// The bit of its reader.
    fn reader_bit(self) -> u32
        ensures bit { result ≡ reader_bit self }
        ensures some { 0 < result }
    {
        match self {
            Topic::Publications => 0x008,
            Topic::Subscriptions => 0x020,
            Topic::Messages => 0x800,
        }
    }

    /// Whether a set of builtin endpoints has its writer.
    fn has_writer(self, set: u32) -> bool
        ensures { result ≡ has_bit set (writer_bit self) }
    {
        set / self.writer_bit() % 2 == 1
    }

    /// Whether a set of builtin endpoints has its reader.
    fn has_reader(self, set: u32) -> bool
        ensures { result ≡ has_bit set (reader_bit self) }
    {
        set / self.reader_bit() % 2 == 1
    }

    /// Its writer.
    fn writer(self, way: u32) -> WriterConfig
        requires { way < 2 }
        ensures { result ≡ builtin_writer way self }
    {
        let mut writer = WriterConfig::new(EntityId::writer(self.key()), self.number() + way);
        writer.history = HistoryQos::KeepLast(1);
        writer.max_value = MAX_ANNOUNCEMENT;
        writer
    }

    /// Its reader.
    fn reader(self, way: u32) -> ReaderConfig
        requires { way < 2 }
        ensures { result ≡ builtin_reader way self }
    {
        let mut reader = ReaderConfig::new(EntityId::reader(self.key()), self.number() + way);
        reader.history = HistoryQos::KeepLast(1);
        reader.max_instances = MAX_KNOWN;
        reader.max_value = MAX_ANNOUNCEMENT;
        reader
    }
}

/// The builtin writers of a set.
fn writers_of(alloc: Global, set: u32, way: u32) -> Result<Vec<WriterConfig>, AllocError>
    requires { way < 2 }
    ensures { IfOk result (λ all. all.items
        ≡ map (builtin_writer way) (filter (λ t. has_bit set (writer_bit t)) builtin_topics)) }
{
    let mut all = Vec::new(alloc);
    for topic in TOPICS {
        if topic.has_writer(set) {
            all.push(topic.writer(way))?;
        }
    }
    Ok(all)
}

/// The builtin readers of a set.
fn readers_of(alloc: Global, set: u32, way: u32) -> Result<Vec<ReaderConfig>, AllocError>
    requires { way < 2 }
    ensures { IfOk result (λ all. all.items
        ≡ map (builtin_reader way) (filter (λ t. has_bit set (reader_bit t)) builtin_topics)) }
{
    let mut all = Vec::new(alloc);
    for topic in TOPICS {
        if topic.has_reader(set) {
            all.push(topic.reader(way))?;
        }
    }
    Ok(all)
}

/// A peer with these builtin endpoints: it writes one way, and reads the other.
fn peer_of(
    alloc: Global,
    prefix: GuidPrefix,
    set: u32,
    writes: u32,
    reads: u32,
) -> Result<PeerConfig, AllocError>
    requires writes { writes < 2 }
    requires reads { reads < 2 }
    ensures { IfOk result (λ peer. peer ≡ builtin_peer prefix set writes reads) }
{
    let writers = writers_of(alloc, set, writes)?;
    let readers = readers_of(alloc, set, reads)?;
    Ok(PeerConfig {
        prefix,
        writers: Sequence::from_vec(writers),
        readers: Sequence::from_vec(readers),
    })
}

/// Whether a prefix is the smaller one.
fn is_before(prefix: &GuidPrefix, other: &GuidPrefix) -> bool
    ensures { result ≡ is_before prefix.now other.now }
{
    prefix.0.cmp(&other.0) == Ordering::Less
}

/// Which of the two peers of a network we are: the one with the smaller prefix comes first.
pub fn number_of(own: &GuidPrefix, far: &Participant) -> u32
    ensures { result ≡ number_of own.now far.now }
{
    if is_before(own, &far.prefix) { 1 } else { 2 }
}

/// A configuration of two peers.
fn pair(alloc: Global, first: PeerConfig, second: PeerConfig) -> Result<Config, AllocError>
    ensures { IfOk result (λ config. config.peers ≡ first ∷ second ∷ []) }
{
    let mut peers = Vec::new(alloc);
    peers.push(first)?;
    peers.push(second)?;
    Ok(Config {
        peers: Sequence::from_vec(peers),
    })
}

/// The two peers of a network: the one with the smaller prefix comes first, so both participants have one configuration.
pub fn network_of(alloc: Global, own: GuidPrefix, far: &Participant) -> Result<Config, AllocError>
    ensures { IfOk result (λ config. config ≡ network_of own far.now) }
{
    if is_before(&own, &far.prefix) {
        let first = peer_of(alloc, own, ALL_ENDPOINTS, 0, 1)?;
        let second = peer_of(alloc, far.prefix, far.builtin_endpoints, 1, 0)?;
        pair(alloc, first, second)
    } else {
        let first = peer_of(alloc, far.prefix, far.builtin_endpoints, 0, 1)?;
        let second = peer_of(alloc, own, ALL_ENDPOINTS, 1, 0)?;
        pair(alloc, first, second)
    }
}

/// What a builtin writer of a participant carries: a list of parameters.
fn list_of(prefix: GuidPrefix, topic: Topic) -> WriterKind<'static>
    ensures { result ≡ list_of prefix topic }
{
    WriterKind {
        writer: Guid {
            prefix,
            entity: EntityId::writer(topic.key()),
        },
        kind: Kind::Opaque(KeyRule::ParameterList),
        max_value: MAX_ANNOUNCEMENT,
    }
}

/// What the builtin writers of publications and subscriptions of a participant carry.
pub fn lists_of(prefix: GuidPrefix) -> [WriterKind<'static>; 2]
    ensures { result ≡ lists_of prefix }
{
    [
        list_of(prefix, Topic::Publications),
        list_of(prefix, Topic::Subscriptions),
    ]
}
