//! What holds of every table of kinds and every message. The functions do nothing.
//!
//! RTPS 2.5, 8.3 (messages) and clause 10 (SerializedPayload).

ghost use Rattle.rtps_adapter.specs.ComesBack.{ComesBack, ComesBackWithGaps};
ghost use Rattle.rtps_adapter.specs.Leaving.{WhatGoesOutFits};
ghost use Rattle.rtps_adapter.specs.Taken.{KeysAreRead, KeysAreReadWithGaps, ValuesAreRead, ValuesAreReadWithGaps};
ghost use Rattle.rtps_adapter.specs.Passed.{NumbersArePassed};
ghost use Rattle.rtps_adapter.specs.Refused.{FieldsHaveToBeThere, PaddingCantBeTurned, ShortCantBeTurned};
ghost use Rattle.rtps_adapter.specs.Same.{Same, StrangersStay, NoneIsRead};

/// What a peer wrote goes to the network and comes back as it was, octet for octet, where each change is one of the
/// type that the topic of its writer carries. So ends with one table exchange what they would exchange without it.
pub fn what_was_written_comes_back()
    // Each message that can be written comes back.
    ensures back { ComesBack }
    // It does so where numbers that can't be read stand in GAPs, if no value is longer than the table says.
    ensures filled { ComesBackWithGaps }
{}

/// What a message turns into is a message of the same sender, with as many submessages, each in its place with its id
/// and its head, and with the same octets behind them.
pub fn each_submessage_keeps_its_place()
    // So it is of each message that turns into one no longer than a message may be.
    ensures same { Same }
{}

/// A DATA of a writer whose topic carries the datum stays as it is; so does one of a writer that the table does not
/// name.
pub fn a_datum_stays()
    // It stays, octet for octet.
    ensures stays { StrangersStay }
{}

/// A DATA whose payload can't be turned is one that no peer reads as a DATA, so nothing is taken for a datum that is
/// none.
pub fn what_cant_be_turned_is_not_read()
    // It is read as a submessage that is not valid.
    ensures none { NoneIsRead }
{}

/// A write of another type is read by a peer as a write of its value, with the key that the rule finds: for the same
/// reader, of the same writer, with the same number and strength.
pub fn values_are_read()
    // So it is of each that has a value of at most 65,000 octets.
    ensures read { ValuesAreRead }
    // So it is where numbers that can't be read stand in GAPs, of each that has no more octets than the table says.
    ensures filled { ValuesAreReadWithGaps }
{}

/// A dispose or an unregister of another type is read by a peer as one of the key that the rule finds in its payload:
/// for the same reader, of the same writer, with the same number and strength.
pub fn keys_are_read()
    // So it is of each whose payload says a key alone.
    ensures read { KeysAreRead }
    // So it is where numbers that can't be read stand in GAPs.
    ensures filled { KeysAreReadWithGaps }
{}

/// What goes out is of its topic's type: a value with the key that the rule finds in it, or a key that the type has.
pub fn what_goes_out_is_of_its_type()
    // So it is of the datum that the payload was, or the key form.
    ensures fits { WhatGoesOutFits }
{}

/// With `inward_with_gaps` a number whose payload a peer could not read is read as a GAP of this number and no other: for
/// the same reader, of the same writer.
pub fn numbers_are_passed()
    // So it is of each number from 1 to 2^62 - 1.
    ensures passed { NumbersArePassed }
{}

/// Some payloads of another type that can't be turned for a peer, which then reads none of them.
pub fn bad_payloads_cant_be_turned()
    // One of fewer than four octets.
    ensures short { ShortCantBeTurned }
    // One whose options count more octets of padding than follow them.
    ensures padding { PaddingCantBeTurned }
    // One of a type with key fields whose body ends before one of them does.
    ensures fields { FieldsHaveToBeThere }
{}
