//! What holds a lane's sessions.

ghost use Rattle.std.specs.Prelude.{◌≡◌};

use crate::seats::Seats;
use adj_rib::RouteId;
use bgp_prefix::{PrefixMap, Sequence};
use bgp_update::Unicast;
use peer_tables::Seated;
use std::alloc::Global;
use std::mem;

/// What holds a lane's sessions, which can be swapped in and out.
pub trait HoldsSeats<M: PrefixMap<RouteId>> {
    ghost use Rattle.std.specs.Prelude.{List};
    ghost use Rattle.peer_tables.specs.declared.tables.Seated.{Seated};

    /// All that it shows.
    ghost State: { Type 0 };

    ghost state: { Self → State };

    /// Its sessions.
    ghost held: { State → List (Seated M M.Addr) };

    /// The same with these sessions.
    ghost with_held: { State → List (Seated M M.Addr) → State };

    /// Swaps its sessions for those of the list.
    fn exchange(&mut self, alloc: Global, list: &mut Sequence<Seated<M>>)
        ensures given { list.new ≡ held (state self.old) }
        ensures got { state self.new ≡ with_held (state self.old) list.old };

    /// With its own sessions again it shows what it did.
    ghost is_back: { (s : State) (list : List (Seated M M.Addr)) → with_held (with_held s list) (held s) ≡ s };
}

/// Swaps the sessions for those of the list.
pub fn exchange_seats<F: Unicast, M: PrefixMap<RouteId, Addr = F> + Drop>(
    alloc: Global,
    seats: &mut Seats<M>,
    list: &mut Sequence<Seated<M>>,
)
    ensures given { list.new ≡ seats.old.seats.items }
    ensures got { seats.new.seats.items ≡ list.old }
{
    let given = mem::replace(list, Sequence::from_vec(Vec::new(alloc)));
    let held = seats.exchange(given.into_vec());
    *list = Sequence::from_vec(held);
}
