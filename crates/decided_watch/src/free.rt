//! Asks whose replies no order of the images changes.

ghost use Rattle.std.specs.Prelude.{◌≡◌};
ghost use Rattle.every_order.specs.Decided.{is_free, is_flat};

use caf_events::ask::Ask;
use caf_events::reply::Reply;
use caf_events::round::Arriving;

// A team is formed of the initial team alone.
fn is_flat(team: u32, arriving: &Arriving) -> bool
    ensures { result ≡ is_flat team arriving.now }
{
    match arriving {
        Arriving::Form { .. } => team == 1,
        _ => true,
    }
}

/// Whether no order changes the reply, where the trace has no race (ISO/IEC 1539-1:2018, 11.6).
pub fn is_free(ask: &Ask, reply: &Reply) -> bool
    ensures { result ≡ is_free ask.now reply.now }
{
    match ask {
        Ask::Read { .. } => matches!(reply, Reply::Values { .. }),
        Ask::Write { .. } => matches!(reply, Reply::Done),
        Ask::Post { .. } => matches!(reply, Reply::Number { status: 0 }),
        Ask::Gather { .. } => matches!(reply, Reply::Round { .. }),
        Ask::Arrive { team, arriving } => {
            matches!(reply, Reply::Round { .. }) && is_flat(team.0, arriving)
        }
        Ask::Create { .. } | Ask::Delete { .. } | Ask::Wait { .. } | Ask::Leave { .. } => true,
        Ask::Take { .. } | Ask::Pair { .. } | Ask::Unpair | Ask::Failed { .. } => true,
        Ask::Stop { .. } | Ask::Print { .. } | Ask::Memory => true,
        _ => false,
    }
}
