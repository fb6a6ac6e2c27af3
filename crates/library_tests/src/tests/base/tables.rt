//! Rows about what every crate speaks of.

/// Octets, and what they begin with: a datum (its key and its value, or how long that is), a datum (its key alone), a
/// key form. It says `written so` where they are the one written form of it: representation CDR_LE, options, key,
/// length of the value, value.
pub const DATA: &str = "\
decode 0001 0000 00000000000000000000000000000001 02000000 6162 => 00000000000000000000000000000001 6162 written so; 00000000000000000000000000000001; 00000000000000000000000000000001
# CDR_BE.
decode 0000 0000 00000000000000000000000000000001 00000002 6162 => 00000000000000000000000000000001 6162; 00000000000000000000000000000001; 00000000000000000000000000000001
# The options and what follows are not looked at.
decode 0001 ff02 00000000000000000000000000000001 02000000 6162 000007 => 00000000000000000000000000000001 6162; 00000000000000000000000000000001; 00000000000000000000000000000001
# Other representations.
decode 0002 0000 00000000000000000000000000000001 02000000 6162 => none; none; none
decode 0003 0000 00000000000000000000000000000001 02000000 6162 => none; none; none
decode 0100 0000 00000000000000000000000000000001 02000000 6162 => none; none; none
decode 0101 0000 00000000000000000000000000000001 02000000 6162 => none; none; none
# A value has at most 65,000 octets.
decode 0001 0000 00000000000000000000000000000001 e8fd0000 07x65000 => 00000000000000000000000000000001 with 65000 octets written so; 00000000000000000000000000000001; 00000000000000000000000000000001
decode 0001 0000 00000000000000000000000000000001 e9fd0000 07x65001 => none; none; 00000000000000000000000000000001
# A datum that is cut in its value, in the value's length, before that, in the key, before that, in the options, in the representation.
decode 0001 0000 00000000000000000000000000000001 02000000 61 => none; none; 00000000000000000000000000000001
decode 0001 0000 00000000000000000000000000000001 02000000 => none; none; 00000000000000000000000000000001
decode 0001 0000 00000000000000000000000000000001 020000 => none; none; 00000000000000000000000000000001
decode 0001 0000 00000000000000000000000000000001 => none; none; 00000000000000000000000000000001 written so
decode 0001 0000 000000000000000000000000000000 => none; none; none
decode 0001 0000 => none; none; none
decode 0001 00 => none; none; none
decode 00 => none; none; none
";

/// Codes, kinds of changes that do or do not end a registration, masks, and numbers of changes, moments and handles.
pub const NAMES: &str = "\
# DDS 1.4, 2.3.3 (ReturnCode_t), and this project's own from 100 on.
codes => [Ok 0][BadParameter 3][PreconditionNotMet 4][OutOfResources 5][Timeout 10][NoData 11][Memory 100]
# An unregister ends a registration, whether it disposes or not.
kinds => [Write false][Dispose false][Unregister true][DisposeUnregister true]
# DDS 1.4, 2.3.3: the bits of the states, and the groups of them. Bits without a meaning are kept.
# READ, NOT_READ, ANY, and a bit without a meaning.
samples => [1, 2, 65535, 8]
# NEW, NOT_NEW, ANY.
views => [1, 2, 65535]
# ALIVE, NOT_ALIVE_DISPOSED, NOT_ALIVE_NO_WRITERS, NOT_ALIVE, ANY; and whether ANY has NOT_ALIVE.
instances => [1, 2, 4, 6, 65535]
any => true
numbers => 7 8 9 true
";

/// Configurations, and the fault of each: one for each rule, the first place that breaks it, and the code.
pub const FAULTS: &str = "\
fault peer 1 | writer 1 2 all | peer 2 | reader 1 7 all => none
fault => the configuration: there are no peers, or more than 16, BAD_PARAMETER
fault peer 1 | writer 17 2 all | peer 2 | reader 1 7 all => peer 1: it has more than 16 writers, BAD_PARAMETER
fault peer 1 | writer 1 2 all | peer 2 | reader 17 7 all => peer 2: it has more than 16 readers, BAD_PARAMETER
fault peer 1 | writer 1 2 all | peer 0 | reader 1 7 all => peer 2: its prefix is all zeros, BAD_PARAMETER
fault peer 1 | writer 1 2 all | peer 1 | reader 1 7 all => peer 1: another peer has its prefix, BAD_PARAMETER
fault peer 1 | writer 1 2 all | writer 1 2 all | peer 2 | reader 1 7 all => writer 1 of peer 1: another writer or reader of its peer has its entity, BAD_PARAMETER
fault peer 1 | writer 1 2 all | peer 2 | reader 1 2 all => reader 1 of peer 2: its entity has the wrong kind, BAD_PARAMETER
fault peer 1 | writer 2 2 all | writer 1 2 last=0 | peer 2 | reader 1 7 all => writer 3 of peer 1: its depth is 0, BAD_PARAMETER
fault peer 1 | writer 1 2 all max=0 | peer 2 | reader 1 7 all => writer 1 of peer 1: its max_samples is neither -1 nor positive, BAD_PARAMETER
fault peer 1 | writer 1 2 all | peer 2 | reader 1 7 all instances=0 => reader 1 of peer 2: its max_instances is neither -1 nor positive, BAD_PARAMETER
fault peer 1 | writer 1 2 all | peer 2 | reader 1 7 all arrivals=0 => reader 1 of peer 2: its max_arrivals is 0 or above 2^63, BAD_PARAMETER
fault peer 1 | writer 1 2 all | peer 2 | reader 1 7 all instances=0 arrivals=0 => reader 1 of peer 2: its max_instances is neither -1 nor positive, BAD_PARAMETER
fault peer 1 | writer 1 2 all | peer 2 | reader 1 7 all lease=0 arrivals=0 => reader 1 of peer 2: its max_arrivals is 0 or above 2^63, BAD_PARAMETER
fault peer 1 | writer 1 2 all lease=0 | peer 2 | reader 1 7 all => writer 1 of peer 1: its lease is 0 or too long, BAD_PARAMETER
fault peer 1 | writer 1 2 all values=0 | peer 2 | reader 1 7 all => writer 1 of peer 1: its max_value is 0 or above 65000, BAD_PARAMETER
fault peer 1 | writer 1 2 all | peer 2 | reader 1 7 all values=65001 => reader 1 of peer 2: its max_value is 0 or above 65000, BAD_PARAMETER
fault peer 1 | writer 1 2 last=3 max=2 | peer 2 | reader 1 7 all => writer 1 of peer 1: its depth is above its maximum of samples, INCONSISTENT_POLICY
fault peer 1 | writer 1 2 all exclusive | peer 2 | reader 1 7 all => reader 1 of peer 2: a matched writer has another ownership, INCONSISTENT_POLICY
fault peer 1 | writer 1 2 all besteffort | peer 2 | reader 1 7 all => reader 1 of peer 2: it is reliable, and a matched writer is best-effort, INCONSISTENT_POLICY
fault peer 1 | writer 1 2 all besteffort lease=20 | peer 2 | reader 1 7 all besteffort | reader 2 7 all lease=10 => reader 2 of peer 2: it is reliable, and a matched writer is best-effort, INCONSISTENT_POLICY
fault peer 1 | writer 1 2 all besteffort | peer 2 | reader 1 7 all besteffort => none
fault peer 1 | writer 1 2 all lease=20 | peer 2 | reader 1 7 all lease=10 => reader 1 of peer 2: a matched writer has a longer lease than it asks for, INCONSISTENT_POLICY
fault peer 1 | writer 1 2 all values=1025 | peer 2 | reader 1 7 all => reader 1 of peer 2: a matched writer has a greater max_value than it takes, INCONSISTENT_POLICY
";

/// Configurations, and the answer to each.
pub const CONFIGS: &str = "\
# Peers that keep all are taken.
check peer 1 | writer 1 2 all | peer 2 | reader 1 7 all => Ok(())
check peer 1 | peer 2 => Ok(())
check peer 1 | writer 1 2 all max=2 | peer 2 | peer 3 | peer 4 | peer 5 | peer 6 | peer 7 | peer 8 | peer 9 | peer 10 | peer 11 | peer 12 | peer 13 | peer 14 | peer 15 | peer 16 => Ok(())
# A bad writer: its kind, its depth, its maximum, its lease. It is refused as such beside a reader of other ownership too.
check peer 1 | writer 1 7 all | peer 2 | reader 1 7 all => Err(BadParameter)
check peer 1 | writer 1 7 all | peer 2 | reader 1 7 all exclusive => Err(BadParameter)
check peer 1 | writer 1 2 last=0 | peer 2 | reader 1 7 all => Err(BadParameter)
check peer 1 | writer 1 2 last=0 | peer 2 | reader 1 7 all exclusive => Err(BadParameter)
check peer 1 | writer 1 2 last=0 max=0 | peer 2 | reader 1 7 all => Err(BadParameter)
check peer 1 | writer 1 2 last=0 max=0 | peer 2 | reader 1 7 all exclusive => Err(BadParameter)
check peer 1 | writer 1 2 all max=0 | peer 2 | reader 1 7 all => Err(BadParameter)
check peer 1 | writer 1 2 all max=0 | peer 2 | reader 1 7 all exclusive => Err(BadParameter)
check peer 1 | writer 1 2 all max=-5 | peer 2 | reader 1 7 all => Err(BadParameter)
check peer 1 | writer 1 2 all max=-5 | peer 2 | reader 1 7 all exclusive => Err(BadParameter)
check peer 1 | writer 1 2 all lease=0 | peer 2 | reader 1 7 all => Err(BadParameter)
check peer 1 | writer 1 2 all lease=0 | peer 2 | reader 1 7 all exclusive => Err(BadParameter)
check peer 1 | writer 1 2 all lease=9223372036854775808 | peer 2 | reader 1 7 all => Err(BadParameter)
check peer 1 | writer 1 2 all lease=9223372036854775808 | peer 2 | reader 1 7 all exclusive => Err(BadParameter)
# A bad reader, alone and with a writer of other ownership.
check peer 1 | peer 2 | reader 1 2 all => Err(BadParameter)
check peer 1 | writer 1 2 all exclusive | peer 2 | reader 1 2 all => Err(BadParameter)
check peer 1 | peer 2 | reader 1 7 last=0 => Err(BadParameter)
check peer 1 | writer 1 2 all exclusive | peer 2 | reader 1 7 last=0 => Err(BadParameter)
check peer 1 | peer 2 | reader 1 7 all max=0 => Err(BadParameter)
check peer 1 | writer 1 2 all exclusive | peer 2 | reader 1 7 all max=0 => Err(BadParameter)
check peer 1 | peer 2 | reader 1 7 all max=-5 => Err(BadParameter)
check peer 1 | writer 1 2 all exclusive | peer 2 | reader 1 7 all max=-5 => Err(BadParameter)
check peer 1 | peer 2 | reader 1 7 all instances=0 => Err(BadParameter)
check peer 1 | writer 1 2 all exclusive | peer 2 | reader 1 7 all instances=0 => Err(BadParameter)
check peer 1 | peer 2 | reader 1 7 all instances=-5 => Err(BadParameter)
check peer 1 | writer 1 2 all exclusive | peer 2 | reader 1 7 all instances=-5 => Err(BadParameter)
check peer 1 | peer 2 | reader 1 7 all arrivals=0 => Err(BadParameter)
check peer 1 | writer 1 2 all exclusive | peer 2 | reader 1 7 all arrivals=0 => Err(BadParameter)
check peer 1 | peer 2 | reader 1 7 all arrivals=9223372036854775809 => Err(BadParameter)
check peer 1 | writer 1 2 all exclusive | peer 2 | reader 1 7 all arrivals=9223372036854775809 => Err(BadParameter)
check peer 1 | peer 2 | reader 1 7 all arrivals=9223372036854775808 => Ok(())
check peer 1 | writer 1 2 all exclusive | peer 2 | reader 1 7 all arrivals=9223372036854775808 => Err(InconsistentPolicy)
check peer 1 | writer 1 2 all values=65000 | peer 2 | reader 1 7 all values=65000 => Ok(())
check peer 1 | writer 1 2 all values=65000 | peer 2 | reader 1 7 all => Err(InconsistentPolicy)
check peer 1 | writer 1 2 all values=65000 | peer 2 => Ok(())
check peer 1 | writer 1 2 all values=65001 | peer 2 | reader 1 7 all => Err(BadParameter)
check peer 1 | writer 1 2 all | peer 2 | reader 1 7 all values=0 => Err(BadParameter)
check peer 1 | peer 2 | reader 1 7 all lease=0 => Err(BadParameter)
check peer 1 | writer 1 2 all exclusive | peer 2 | reader 1 7 all lease=0 => Err(BadParameter)
check peer 1 | peer 2 | reader 1 7 all lease=9223372036854775808 => Err(BadParameter)
check peer 1 | writer 1 2 all exclusive | peer 2 | reader 1 7 all lease=9223372036854775808 => Err(BadParameter)
# Equal prefixes, the prefix of zeros, and equal entities of one peer; also with a writer that contradicts itself.
check peer 1 | writer 1 2 all | peer 1 | reader 1 7 all => Err(BadParameter)
check peer 1 | writer 1 2 all | peer 0 | reader 1 7 all => Err(BadParameter)
check peer 1 | writer 1 2 all | writer 1 2 all | peer 2 | reader 1 7 all => Err(BadParameter)
check peer 1 | writer 1 2 all | peer 2 | reader 1 7 all | reader 1 7 all => Err(BadParameter)
check peer 1 | writer 1 2 last=3 max=2 | peer 1 | reader 1 7 all => Err(BadParameter)
check peer 1 | writer 1 2 last=3 max=2 | peer 0 | reader 1 7 all => Err(BadParameter)
check peer 1 | writer 1 2 last=3 max=2 | writer 1 2 last=3 max=2 | peer 2 | reader 1 7 all => Err(BadParameter)
check peer 1 | writer 1 2 last=3 max=2 | peer 2 | reader 1 7 all | reader 1 7 all => Err(BadParameter)
# No peer, and seventeen; also with writers that contradict themselves.
check => Err(BadParameter)
check peer 1 | writer 1 2 all max=2 | peer 2 | peer 3 | peer 4 | peer 5 | peer 6 | peer 7 | peer 8 | peer 9 | peer 10 | peer 11 | peer 12 | peer 13 | peer 14 | peer 15 | peer 16 | peer 17 => Err(BadParameter)
check peer 1 | writer 1 2 last=3 max=2 | peer 2 | peer 3 | peer 4 | peer 5 | peer 6 | peer 7 | peer 8 | peer 9 | peer 10 | peer 11 | peer 12 | peer 13 | peer 14 | peer 15 | peer 16 | peer 17 => Err(BadParameter)
# Sixteen writers and sixteen readers at a peer, and seventeen of either; also with writers that contradict themselves.
check peer 1 | writer 16 2 all | peer 2 | reader 16 7 all => Ok(())
check peer 1 | writer 1 2 all | peer 2 | reader 16 7 all | reader 1 7 all => Err(BadParameter)
check peer 1 | writer 16 2 all | writer 1 2 all | peer 2 | reader 1 7 all => Err(BadParameter)
check peer 1 | writer 16 2 last=3 max=2 | peer 2 | reader 16 7 all => Err(InconsistentPolicy)
check peer 1 | writer 1 2 last=3 max=2 | peer 2 | reader 16 7 all | reader 1 7 all => Err(BadParameter)
check peer 1 | writer 16 2 last=3 max=2 | writer 1 2 last=3 max=2 | peer 2 | reader 1 7 all => Err(BadParameter)
# Ownerships that differ, depths above a maximum, and leases that are longer than the reader asks for. A peer's second entity of
# one id is refused first.
check peer 1 | writer 1 2 all exclusive | peer 2 | reader 1 7 all => Err(InconsistentPolicy)
check peer 1 | writer 1 2 all exclusive | writer 1 2 all exclusive | peer 2 | reader 1 7 all => Err(BadParameter)
check peer 1 | writer 1 2 all | peer 2 | reader 1 7 all exclusive => Err(InconsistentPolicy)
check peer 1 | writer 1 2 all | writer 1 2 all | peer 2 | reader 1 7 all exclusive => Err(BadParameter)
check peer 1 | writer 1 2 last=3 max=2 | peer 2 | reader 1 7 all => Err(InconsistentPolicy)
check peer 1 | writer 1 2 last=3 max=2 | writer 1 2 last=3 max=2 | peer 2 | reader 1 7 all => Err(BadParameter)
check peer 1 | writer 1 2 all | peer 2 | reader 1 7 last=3 max=2 => Err(InconsistentPolicy)
check peer 1 | writer 1 2 all | writer 1 2 all | peer 2 | reader 1 7 last=3 max=2 => Err(BadParameter)
check peer 1 | writer 1 2 all lease=20 | peer 2 | reader 1 7 all lease=10 => Err(InconsistentPolicy)
check peer 1 | writer 1 2 all lease=20 | writer 1 2 all lease=20 | peer 2 | reader 1 7 all lease=10 => Err(BadParameter)
check peer 1 | writer 1 2 all | peer 2 | reader 1 7 all lease=10 => Err(InconsistentPolicy)
check peer 1 | writer 1 2 all | writer 1 2 all | peer 2 | reader 1 7 all lease=10 => Err(BadParameter)
# A reliable reader does not fit a best-effort writer; a best-effort one does, and it fits a reliable one too.
check peer 1 | writer 1 2 all besteffort | peer 2 | reader 1 7 all => Err(InconsistentPolicy)
check peer 1 | writer 1 2 all besteffort | peer 2 | reader 1 7 all besteffort | reader 2 7 all => Err(InconsistentPolicy)
check peer 1 | writer 1 2 all besteffort | peer 2 | reader 1 7 all besteffort => Ok(())
check peer 1 | writer 1 2 all | peer 2 | reader 1 7 all besteffort => Ok(())
check peer 1 | writer 1 2 all besteffort topic=1 | peer 2 | reader 1 7 all => Ok(())
# Ends of different topics need not fit; a depth as great as the maximum, or without one, and a lease as long as the reader's do.
check peer 1 | writer 1 2 all exclusive topic=1 | peer 2 | reader 1 7 all => Ok(())
check peer 1 | writer 1 2 last=3 max=3 | peer 2 | reader 1 7 all => Ok(())
check peer 1 | writer 1 2 last=3 | peer 2 | reader 1 7 all => Ok(())
check peer 1 | writer 1 2 all lease=10 | peer 2 | reader 1 7 all lease=10 => Ok(())
check peer 1 | writer 1 2 all lease=9223372036854775807 | peer 2 | reader 1 7 all => Ok(())
";
