//! What passes see of each other without the lock.

use super::peer::Peer;
use super::rows::run_rows;
use dds_base::Code;
use std::alloc::Global;
use std::process::Abort;
use std::sync::Wait;

// A call that changes nothing.
const LOOK: &str = "lookup r1 0";

const LOOK_THRICE: &str = "lookup r1 0\nlookup r1 0\nlookup r1 0";

// Each pass sees what the other did, and after they met no less than that. Five calls are done.
pub fn are_seen<S: Peer<P>, P, R: Wait + Abort>(
    rt: &R,
    alloc: Global,
    shared: &S,
    first: &mut P,
    second: &mut P,
) -> Result<bool, Code> {
    let at_first = (shared.front(first), shared.front(second));
    run_rows(rt, alloc, shared, first, LOOK_THRICE)?;
    let of_three = shared.front(second);
    run_rows(rt, alloc, shared, second, LOOK)?;
    let of_four = shared.front(first);
    run_rows(rt, alloc, shared, first, LOOK)?;
    shared.meet(first, second);
    let met = shared.front(first) == 5 && shared.front(second) == 5;
    Ok(at_first == (0, 0) && of_three == 3 && of_four == 4 && met)
}

// One pass does something, and says how far it came. Another sees that the peer is as far, and comes behind it. Two calls
// are done.
pub fn comes_behind<S: Peer<P>, P, R: Wait + Abort>(
    rt: &R,
    alloc: Global,
    shared: &S,
    mine: &mut P,
    theirs: &mut P,
) -> Result<bool, Code> {
    run_rows(rt, alloc, shared, mine, LOOK)?;
    let done = shared.front(mine);
    // In another thread, which was told `done`:
    if shared.front(theirs) < done {
        return Ok(false);
    }
    run_rows(rt, alloc, shared, theirs, LOOK)?;
    Ok(true)
}
