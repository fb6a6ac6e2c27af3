//! What holds of every payload. The functions do nothing.
//!
//! RTPS 2.5, 8.3.8.3 (DataFrag).

ghost use Rattle.rtps_fragments.specs.Assembled.{KnownCame, NothingCame, WhatIsToldCame};
ghost use Rattle.rtps_fragments.specs.Readable.{DataIsRead, MessagesAreRead, OneIsRead};
ghost use Rattle.rtps_fragments.specs.Bounded.{FewAreKept, FewAreShort, KnownAreFew, NoneAreFew};

/// A payload that is told is whole: it has the length that its DATA_FRAGs say, and each of its octets is that of the
/// fragments of a DATA_FRAG which came, of this writer and number, of the same fragment size and whole length, and
/// which cover its place. Its flags and its parameters came with the first fragment.
pub fn what_is_told_came()
    // So it is of each message of a datagram, whatever came before.
    ensures told { WhatIsToldCame }
    // Where nothing came, nothing is kept.
    ensures nothing { NothingCame }
    // It stays so where a writer is known, or known no more.
    ensures known { KnownCame }
{}

/// Of a writer at most 16 numbers are kept, in less than 2^20 octets of parameters and payload, whatever comes.
pub fn few_are_kept()
    // Few stay few at each datagram.
    ensures kept { FewAreKept }
    // Where nothing came, few are kept.
    ensures none { NoneAreFew }
    // They stay few where a writer is known, or known no more.
    ensures known { KnownAreFew }
    // They have few octets.
    ensures short { FewAreShort }
{}

/// A message that is told is read to its end, as one of the sender with an INFO_DST, an INFO_TS and a DATA.
pub fn what_is_told_is_read()
    // So it is, whatever is read of the DATA, which is no longer than a datagram carries.
    ensures message { MessagesAreRead }
    // Of the DATA is read what its flags, its parameters and its payload say.
    ensures change { DataIsRead }
{}

/// Of a body at most one DATA_FRAG is read, so what is heard of a datagram is one.
pub fn one_fragment_is_read()
    // Two that are read are the same.
    ensures one { OneIsRead }
{}
