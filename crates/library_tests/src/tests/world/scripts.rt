//! What is done in a network, and what it answers.

/// An event in a script's words, which is to be run, or `run`: what one run over all those events answers, each reply in
/// brackets as a script prints it. `sent` gives how many packets were sent and not sent so far, and `packet` has a
/// number, and gives that packet.
///
/// `filter` names a peer and how many octets the values have that pass: its number, or why there is none. `place` names a
/// reader and a writer, each by its peer and its number, and `round` a writer and a reader, for a round of repair. `open`
/// begins anew, with a configuration.
pub const SCRIPTS: &str = "\
# A write goes from the writer to the reader, once: a packet that comes again moves nothing, and what was taken is gone.
open peer 1 | writer 1 2 all | peer 2 | reader 1 7 all => opened
1 write w1 1 6162
run => [ok]
sent => (1, 0)
packet 1 => Some(Packet { to: 2, bytes: Octets { items: [82, 84, 80, 83, 2, 5, 0, 0, 0, 0, 0, 0, 0, 0, 0, 0, 0, 0, 0, 1, 14, 1, 12, 0, 0, 0, 0, 0, 0, 0, 0, 0, 0, 0, 0, 2, 9, 1, 8, 0, 0, 0, 0, 0, 0, 0, 0, 0, 21, 5, 48, 0, 0, 0, 16, 0, 0, 0, 0, 0, 0, 0, 1, 2, 0, 0, 0, 0, 1, 0, 0, 0, 0, 1, 0, 0, 0, 0, 0, 0, 0, 0, 0, 0, 0, 0, 0, 0, 0, 0, 0, 1, 2, 0, 0, 0, 97, 98, 0, 0] } })
packet 2 => None
deliver 2 1
deliver 2 1
2 take r1
2 take r1
run => [report [place 1.w1 r1 2]][report][samples 1 [1 6162 N N A 0 0 0 0 0 0 1 1]][code 11]
sent => (1, 0)

# A later change is held until the earlier one has come. A packet that was never sent is refused.
open peer 1 | writer 1 2 all | peer 2 | reader 1 7 all => opened
1 write w1 1 31
1 write w1 1 32
deliver 2 2
deliver 2 1
deliver 2 2
deliver 2 3
run => [ok][ok][report][report [place 1.w1 r1 3]][report][code 3]
sent => (2, 0)

# A value has at most so many octets as its writer says.
open peer 1 | writer 1 2 all values=2 | peer 2 | reader 1 7 all => opened
1 write w1 1 0707
1 write w1 1 070707
run => [ok][code 3]
sent => (1, 0)

# A sample carries the moment of its writer's peer, and an unregister by itself moves nothing.
open peer 1 | writer 1 2 all | peer 2 | reader 1 7 all => opened
1 tick 5
1 register w1 1
1 write w1 1 6162
deliver 2 1
deliver 2 2
1 unregister w1 1
2 take r1
run => [ok][ok][ok][report [place 1.w1 r1 2]][code 3][ok][samples 1 [1 6162 N N A 0 0 0 0 0 5 1 1]]
sent => (2, 0)

# A register sends nothing, and an unregister needs one. A dispose registers too.
open peer 1 | writer 1 2 all | peer 2 | reader 1 7 all => opened
1 unregister w1 1
1 register w1 1
1 unregister w1 1
1 unregister w1 1
1 dispose w1 1
1 unregister w1 1
run => [code 4][ok][ok][code 4][ok][ok]
sent => (3, 0)

# Writers that nobody has.
open peer 1 | writer 1 2 all | peer 2 | reader 1 7 all => opened
1 register w0 1
1 write w0 1 -
1 dispose w0 1
1 unregister w0 1
1 register w2 1
1 write w2 1 -
1 dispose w2 1
1 unregister w2 1
2 register w1 1
2 write w1 1 -
2 dispose w1 1
2 unregister w1 1
3 register w1 1
3 write w1 1 -
3 dispose w1 1
3 unregister w1 1
run => [code 3][code 3][code 3][code 3][code 3][code 3][code 3][code 3][code 3][code 3][code 3][code 3][code 3][code 3][code 3][code 3]
sent => (0, 0)

# Time goes on, and not back, nor to 2^63; each peer has its own. A change carries the moment of its writer's peer. The reader
# has acknowledged nothing, so that a tick after the write sends a HEARTBEAT.
open peer 1 | writer 1 2 all | peer 2 | reader 1 7 all => opened
1 tick 7
1 tick 7
1 tick 6
1 tick 9223372036854775808
3 tick 8
1 write w1 1 31
2 tick 3
deliver 2 1
2 take r1
1 tick 9223372036854775807
1 unregister w1 1
deliver 2 3
2 take r1
run => [ok][ok][code 3][code 3][code 3][ok][ok][report [place 1.w1 r1 2]][samples 1 [1 31 N N A 0 0 0 0 0 7 1 1]][ok][ok][report [place 1.w1 r1 3]][samples 1 [1 ! N O D 0 0 0 0 0 9223372036854775807 1 1]]
sent => (3, 0)

# A write upon a disposed instance is a rebirth: the counts and ranks of DDS 1.4, 2.2.2.5.
open peer 1 | writer 1 2 all | peer 2 | reader 1 7 all => opened
1 write w1 1 01
1 dispose w1 1
1 write w1 1 02
deliver 2 1
deliver 2 2
deliver 2 3
2 take r1
run => [ok][ok][ok][report [place 1.w1 r1 2]][report [place 1.w1 r1 3]][report [place 1.w1 r1 4]][samples 3 [1 01 N N A 0 0 2 1 1 0 1 1] [1 ! N N A 0 0 1 1 1 0 1 1] [1 02 N N A 1 0 0 0 0 0 1 1]]
sent => (3, 0)

# The last change of three comes before the first, and the second is repaired.
open peer 1 | writer 1 2 all | peer 2 | reader 1 7 all => opened
1 write w1 1 01
1 write w1 1 02
1 write w1 1 03
deliver 2 3
deliver 2 1
1 tick 0
deliver 2 4
deliver 1 5
deliver 2 6
run => [ok][ok][ok][report][report [place 1.w1 r1 2]][ok][report][report [acked w1 2.r1 2]][report [place 1.w1 r1 4]]

# Of two writers of one strength the one with the lower number owns an instance, until it gives the instance up.
open peer 1 | writer 2 2 all exclusive strength=5 noauto | peer 2 | reader 1 7 all exclusive => opened
1 write w2 1 b1
deliver 2 1
1 write w1 1 a1
deliver 2 2
1 write w2 1 b2
deliver 2 3
2 read r1
1 unregister w1 1
deliver 2 4
2 read r1
run => [ok][report [place 1.w2 r1 2]][ok][report [place 1.w1 r1 2]][ok][report [place 1.w2 r1 3]][samples 2 [1 b1 N N A 0 0 1 0 0 0 1 2] [1 a1 N N A 0 0 0 0 0 0 1 1]][ok][report [place 1.w1 r1 3]][samples 2 [1 b1 R O A 0 0 1 0 0 0 1 2] [1 a1 R O A 0 0 0 0 0 0 1 1]]

# A round brings what there is, and the next one tells the writer of it, whose reader then is not behind. There is a place where
# a reader is matched.
open peer 1 | writer 1 2 all | peer 2 | reader 1 7 all => opened
place 2 1 1 1 => Some(Sn { number: 1 })
place 1 1 1 1 => None
place 2 1 2 1 => None
place 2 2 1 1 => None
1 write w1 1 31
1 write w1 1 32
run => [ok][ok]
sent => (2, 0)
round 1 1 2 1 => replies 4, was_behind true, unsent_before 0, last 2, from 1 to 3, has_caught_up true
place 2 1 1 1 => Some(Sn { number: 3 })
round 1 1 2 1 => replies 3, was_behind true, unsent_before 0, last 2, from 3 to 3, has_caught_up true
round 1 1 2 1 => replies 1, was_behind false, unsent_before 0, last 2, from 3 to 3, has_caught_up true
round 2 1 1 1 => BadParameter

# Filters are numbered at each peer, from 1, and no peer has those of another. A query condition asks its own one.
open peer 1 | writer 1 2 all | peer 2 | reader 1 7 all => opened
filter 2 1 => Ok(1)
filter 2 2 => Ok(2)
filter 1 3 => Ok(1)
filter 3 1 => Err(BadParameter)
filter 0 1 => Err(BadParameter)
2 querycond r1 any any any 1
2 querycond r1 any any any 2
2 querycond r1 any any any 3
1 write w1 1 6162
deliver 2 1
2 trigger 1
2 trigger 2
run => [id 1][id 2][code 3][ok][report [place 1.w1 r1 2]][false][true]
sent => (1, 0)

# A reader without room for the second change: nothing else kept the round from its end.
open peer 1 | writer 1 2 all | peer 2 | reader 1 7 all max=1 => opened
1 write w1 1 31
1 write w1 1 32
run => [ok][ok]
sent => (2, 0)
round 1 1 2 1 => replies 4, was_behind true, unsent_before 0, last 2, from 1 to 2, has_caught_up false
place 2 1 1 1 => Some(Sn { number: 2 })

# A name has one GUID, a GUID one name, and a participant one prefix; the prefix is none of zeros, the entity a reader's, and
# the participant has a number. One that has left may be met again.
open peer 1 | writer 1 2 all => opened
1 meet w1 2 1 7 5 7
1 meet w1 2 1 7 6 7
1 meet w1 3 1 7 5 7
1 meet w1 2 2 8 6 7
1 meet w1 2 2 7 6 7
1 meet w1 2 1 7 5 7
1 part w1 2.r1
1 meet w1 2 1 7 5 7
1 meet w1 4 1 0 5 7
1 meet w1 4 1 9 5 2
1 meet w1 0 1 9 5 7
1 meet w2 4 1 9 5 7
run => [ok][code 3][code 3][code 3][ok][code 4][ok][ok][code 3][code 3][code 3][code 3]

# RELIABILITY can't change, also while nobody is matched.
1 part w1 2.r1
1 meet w1 2 1 7 5 7 besteffort
1 meet w1 2 1 7 5 7
run => [ok][code 3][ok]

# There is no limit of participants: a change goes to each of eighteen.
open peer 1 | writer 1 2 all => opened
1 meet w1 2 1 2 1 7
1 meet w1 3 1 3 1 7
1 meet w1 4 1 4 1 7
1 meet w1 5 1 5 1 7
1 meet w1 6 1 6 1 7
1 meet w1 7 1 7 1 7
1 meet w1 8 1 8 1 7
1 meet w1 9 1 9 1 7
1 meet w1 10 1 10 1 7
1 meet w1 11 1 11 1 7
1 meet w1 12 1 12 1 7
1 meet w1 13 1 13 1 7
1 meet w1 14 1 14 1 7
1 meet w1 15 1 15 1 7
1 meet w1 16 1 16 1 7
1 meet w1 17 1 17 1 7
1 meet w1 18 1 18 1 7
1 meet w1 19 1 19 1 7
1 meet w1 18 2 18 2 7
1 write w1 1 01
run => [ok][ok][ok][ok][ok][ok][ok][ok][ok][ok][ok][ok][ok][ok][ok][ok][ok][ok][ok][ok]
sent => (18, 0)

# Both sides are told. A change of before is not owed, and counts as nothing lost; one of afterwards waits until it is known
# where the reader begins. A reader numbers its writers as it meets them.
open peer 1 | writer 1 2 all topic=1 | peer 2 | reader 1 7 all => opened
1 write w1 1 01
1 meet w1 2 1 2 1 7
2 meet r1 1 1 1 1 2
1 write w1 1 02
deliver 2 1
1 tick 0
deliver 2 2
deliver 1 3
deliver 2 4
2 take r1
2 lost r1
2 meet r1 5 1 5 1 2
2 meet r1 1 1 1 1 2
run => [ok][ok][handle 1][ok][report][ok][report [begun 1.w1 r1 1 2]][report][report [place 1.w1 r1 3]][samples 1 [1 02 N N A 0 0 0 0 0 0 1 1]][lost 0 0][handle 2][code 4]
";
