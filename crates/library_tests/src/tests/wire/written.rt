//! Messages in their one written form.

/// What follows the header, and what is read of it: where reading ends, the submessages, and that they are written so.
///
/// A submessage is its id, its flags and its length in octets, which counts from there on, and its fields in
/// little-endian. Those of DATA: extraFlags, octetsToInlineQos, readerId, writerId, writerSN (high half, low half),
/// parameters (id, length, value) with the flag Q (02), and a payload: with the flag D (04) the representation,
/// options, key, length and octets of the value, padding; with the flag K (08) the representation, options and key.
pub const WRITTEN: &str = "\
# The packet of a write: INFO_DST, INFO_TS, DATA.
read 0e01 0c00 000000000000000000000002 \
0901 0800 00000000 00000000 \
1505 3000 0000 1000 00000000 00000102 00000000 01000000 0001 0000 00000000000000000000000000000001 02000000 6162 0000 \
=> 100; INFO_DST 000000000000000000000002; INFO_TS 0000000000000000; \
DATA writer 00000102 reader 00000000 sn 1 write 00000000000000000000000000000001 6162; written so
# A dispose: PID_KEY_HASH (70), PID_STATUS_INFO (71) with disposed (1), PID_SENTINEL (01), the key form.
read 150b 4800 0000 1000 00000000 00000102 00000000 02000000 \
7000 1000 00000000000000000000000000000001 7100 0400 00000001 0100 0000 0001 0000 00000000000000000000000000000001 \
=> 96; DATA writer 00000102 reader 00000000 sn 2 dispose 00000000000000000000000000000001; written so
# An unregister differs in the status info alone: unregistered (2).
read 150b 4800 0000 1000 00000000 00000102 00000000 02000000 \
7000 1000 00000000000000000000000000000001 7100 0400 00000002 0100 0000 0001 0000 00000000000000000000000000000001 \
=> 96; DATA writer 00000102 reader 00000000 sn 2 unregister 00000000000000000000000000000001; written so
# Both at once (3).
read 150b 4800 0000 1000 00000000 00000102 00000000 02000000 \
7000 1000 00000000000000000000000000000001 7100 0400 00000003 0100 0000 0001 0000 00000000000000000000000000000001 \
=> 96; DATA writer 00000102 reader 00000000 sn 2 dispose and unregister 00000000000000000000000000000001; written so
# A write of a writer with strength 5: the flag Q, and PID_OWNERSHIP_STRENGTH (06) before the sentinel.
read 1507 3c00 0000 1000 00000000 00000102 00000000 01000000 0600 0400 05000000 0100 0000 \
0001 0000 00000000000000000000000000000001 01000000 a1 000000 \
=> 84; DATA writer 00000102 reader 00000000 sn 1 write 00000000000000000000000000000001 a1 strength 5; written so
# A strength is a number with a sign: -1.
read 1507 3c00 0000 1000 00000000 00000102 00000000 01000000 0600 0400 ffffffff 0100 0000 \
0001 0000 00000000000000000000000000000001 01000000 a1 000000 \
=> 84; DATA writer 00000102 reader 00000000 sn 1 write 00000000000000000000000000000001 a1 strength -1; written so
# A dispose of that writer: the strength stands after the status info.
read 150b 5000 0000 1000 00000000 00000102 00000000 02000000 \
7000 1000 00000000000000000000000000000001 7100 0400 00000001 0600 0400 05000000 0100 0000 0001 0000 00000000000000000000000000000001 \
=> 104; DATA writer 00000102 reader 00000000 sn 2 dispose 00000000000000000000000000000001 strength 5; written so
# A HEARTBEAT: readerId, writerId, firstSN, lastSN, count.
read 0701 1c00 00000000 00000102 00000000 01000000 00000000 03000000 01000000 \
=> 52; HEARTBEAT writer 00000102 reader 00000000 first 1 last 3 count 1 final false liveliness false; written so
# A HEARTBEAT with the flags F and L.
read 0707 1c00 00000000 00000102 00000000 01000000 00000000 03000000 01000000 \
=> 52; HEARTBEAT writer 00000102 reader 00000000 first 1 last 3 count 1 final true liveliness true; written so
# An ACKNACK of base 2 that misses 2: readerId, writerId, base, number of bits, words, count.
read 0601 1c00 00000107 00000102 00000000 02000000 01000000 00000080 01000000 \
=> 52; ACKNACK writer 00000102 reader 00000107 count 1 final false base 2 bits 1 members 2; written so
# A GAP of 2 alone: readerId, writerId, gapStart, base, number of bits, words.
read 0801 1c00 00000107 00000102 00000000 02000000 00000000 03000000 00000000 \
=> 52; GAP writer 00000102 reader 00000107 start 2 base 3 bits 0 members; written so
# The set from 1 on with 1 and 3 takes three bits, in one word.
read 0801 2000 00000107 00000102 00000000 01000000 00000000 01000000 03000000 000000a0 \
=> 56; GAP writer 00000102 reader 00000107 start 1 base 1 bits 3 members 1 3; written so
# A PAD of length 0 does not run to the end.
read 0101 0000 => 24; PAD; written so
# An INFO_TS without a moment: the flag I (02).
read 0903 0000 => 24; INFO_TS none; written so
";

/// Messages that are made of one submessage so many times: its kind (`strong` is a write of a writer with a strength),
/// its number and its value; and how many there are, and whether the message can be written.
pub const WRITABLE: &str = "\
# What is not known is never written.
make other 1 - 1 => 1 false
# Numbers begin at 1.
make dispose 0 - 1 => 1 false
make dispose 1 - 1 => 1 true
# A value has at most 65,000 octets.
make write 1 07x65000 1 => 1 true
make write 1 07x65001 1 => 1 false
# A message has at most 65,507: 61 of 1,024 octets take 65,412 with the header, 62 take 66,484.
make write 1 07x1024 61 => 61 true
make write 1 07x1024 62 => 62 false
# With a strength 60 of them take 65,060, and 61 take 66,144.
make strong 1 07x1024 60 => 60 true
make strong 1 07x1024 61 => 61 false
";
