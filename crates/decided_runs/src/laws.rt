//! What a decided run says of every other run of the same programs.

ghost use Rattle.every_order.specs.EveryOrder.{EveryOrder};

use caf_events::walker::Walker;

/// A decided run speaks for every order.
pub fn law_every_order<M: Walker>()
    ensures { EveryOrder M.Walker.step M.Walker.hears }
{}
