//! What holds of the machine, whatever comes. The functions do nothing.
//!
//! RTPS 2.5, 8.5 (discovery).

ghost use Rattle.dds_discovery.specs.Laws.{AddsTell, DeliveriesAreApart, DeliveriesTellNothing, FewEndpoints, FewLinks, FewRows, OpensOnce, RemovesTell, StepsAreApart, StepsSendBack, StepsTell, TicksTellNothing};

use rtps_discovery::laws::few_are_known;
use rtps_matching::laws::{an_announcement_is_of_one, names_stand_once, what_is_told_is_so};

/// What is told is just what changed of who is matched, where names stand once; and they do at first, and ever after.
pub fn told()
    // So it is of a step,
    ensures steps { StepsTell }
    // of one more endpoint of ours,
    ensures add { AddsTell }
    // and of one that goes.
    ensures remove { RemovesTell }
    // A datagram changes nothing of it, until a step is done,
    ensures deliveries { DeliveriesTellNothing }
    // nor does a tick.
    ensures ticks { TicksTellNothing }
    // Names stand once at first.
    ensures opening { OpensOnce }
{
    what_is_told_is_so();
    names_stand_once();
}

/// Nothing that a step sends goes where a datagram says: it goes to an address that datagrams of a participant came from.
pub fn sends()
    ensures steps { StepsSendBack }
{}

/// Nothing grows past its limit, whatever strangers send.
pub fn full()
    // No more participants are known than may be.
    ensures rows { FewRows }
    // There are no more links than participants may be known.
    ensures links { FewLinks }
    // Of no participant more endpoints are known than may be.
    ensures endpoints { FewEndpoints }
{
    few_are_known();
    an_announcement_is_of_one();
}

/// An event of one participant leaves what is known of every other as it was: `rtps_discovery` says so of rows, and this of
/// endpoints and links.
pub fn apart()
    // A step is of one participant alone: endpoints of others stay, and none comes.
    ensures steps { StepsAreApart }
    // A datagram is for the link with its sender alone.
    ensures deliveries { DeliveriesAreApart }
{
    an_announcement_is_of_one();
}
