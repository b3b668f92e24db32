//! The entries of a peer's table, and the routes that are too long to be written.

ghost use Rattle.std.specs.Prelude.{◌≡◌, ◌+◌, ◌^◌, ◌<◌, ◌++◌, true, length, map, IfOk, OnOk, T, if◌then◌else◌};
ghost use Rattle.std.specs.List.{flat_map};
ghost use Rattle.std.specs.FinMap.{is_sorted};
ghost use Rattle.bgp_prefix.specs.Keys.{key_cmp};
ghost use Rattle.peer_tables.specs.Seats.{seat_of};
ghost use Rattle.table_dumps.specs.Dumped.{is_ipv4_hop};
ghost use Rattle.checkpoint_writing.specs.Merging.{IsMerge};
ghost use Rattle.checkpoint_writing.specs.Leaving.{AreListsShort, is_short, kept_entries, kept_entry, left_entries, left_entry};

use crate::merge::Merge;
use adj_rib::RouteId;
use bgp_prefix::{Memory, Prefix, PrefixMap, RouteKey};
use bgp_update::{NextHop, RouteRef};
use mrt_writing::{WideAddress, push_entry_attributes, push_update_attributes};
use peer_tables::Seated;
use peer_units::PeerKey;
use std::alloc::Global;

/// The attributes of one route at a time.
#[derive(Drop)]
pub(crate) struct Attributes {
    pub(crate) field: Vec<u8>,
    pub(crate) block: Vec<u8>,
}

impl Attributes {
    /// None. Allocates nothing.
    pub(crate) fn new(alloc: Global) -> Attributes {
        Attributes {
            field: Vec::new(alloc),
            block: Vec::new(alloc),
        }
    }
}

/// Whether the route is an entry. An IPv4 route whose next hop is an IPv6 address is an UPDATE (RFC 8950).
pub(crate) fn is_entry<F: WideAddress>(route: &RouteRef<'_>) -> bool
    ensures { result ≡ (if F.family.own_fields then is_ipv4_hop route.now.next_hop else true) }
{
    if !F::encoding().own_fields {
        return true;
    }
    match route.next_hop() {
        None | Some(NextHop::V4(_)) => true,
        Some(NextHop::V6(_)) | Some(NextHop::V6Pair { .. }) => false,
    }
}

/// Encodes the attributes of the route, as an entry or as an UPDATE has them, unless they are too long. Returns whether
/// they aren't.
fn is_short<F: WideAddress>(
    attributes: &mut Attributes,
    key: &RouteKey<Prefix<F>>,
    route: &RouteRef<'_>,
) -> Result<bool, Memory>
    ensures { IfOk result (λ short. short ≡ is_short F.family (key.now, route.now)) }
{
    attributes.field.clear();
    if is_entry::<F>(route) {
        let fits = push_entry_attributes::<F>(&mut attributes.field, route)?;
        return Ok(fits);
    }
    let fits = push_update_attributes(
        &mut attributes.field,
        &mut attributes.block,
        key.id != 0,
        key,
        route,
    )?;
    Ok(fits)
}

/// Adds a route to the entries, if it is one, or to what is left out, if it is too long.
fn sort_route<'a, F: WideAddress>(
    attributes: &mut Attributes,
    peer: &PeerKey,
    entry: &(RouteKey<Prefix<F>>, RouteRef<'a>),
    entries: &mut Vec<(RouteKey<Prefix<F>>, RouteRef<'a>)>,
    left: &mut Vec<(PeerKey, RouteKey<Prefix<F>>)>,
) -> Result<(), Memory>
    ensures entries { OnOk result (entries.new.items ≡ entries.old.items ++ kept_entry F.family entry.now) }
    ensures left { OnOk result (left.new.items ≡ left.old.items ++ left_entry F.family peer.now entry.now) }
{
    let (key, route) = entry;
    if !is_short(attributes, key, route)? {
        left.push((*peer, *key))?;
        return Ok(());
    }
    if is_entry::<F>(route) {
        entries.push((*key, route.same()))?;
    }
    Ok(())
}

/// Adds these routes, each to the entries or to what is left out.
fn sort_routes<'a, F: WideAddress>(
    attributes: &mut Attributes,
    peer: &PeerKey,
    listed: &[(RouteKey<Prefix<F>>, RouteRef<'a>)],
    entries: &mut Vec<(RouteKey<Prefix<F>>, RouteRef<'a>)>,
    left: &mut Vec<(PeerKey, RouteKey<Prefix<F>>)>,
) -> Result<(), Memory>
    ensures entries { OnOk result (entries.new.items ≡ entries.old.items ++ flat_map (kept_entry F.family) listed.now) }
    ensures left { OnOk result (left.new.items ≡ left.old.items ++ flat_map (left_entry F.family peer.now) listed.now) }
{
    for entry in listed {
        sort_route(attributes, peer, entry, entries, left)?;
    }
    Ok(())
}

/// Returns the entries of a peer's table that are written, in the order of their keys. Routes that are too long are
/// added to those that are left out.
fn list_seat<'a, F: WideAddress, M: PrefixMap<RouteId, Addr = F>>(
    alloc: Global,
    attributes: &mut Attributes,
    seat: &'a Seated<M>,
    left: &mut Vec<(PeerKey, RouteKey<Prefix<F>>)>,
) -> Result<Vec<(RouteKey<Prefix<F>>, RouteRef<'a>)>, Memory>
    ensures entries { IfOk result (λ v. v.items ≡ kept_entries F.family (seat_of seat.now).session.table) }
    ensures left { OnOk result (left.new.items ≡ left.old.items ++ left_entries F.family (seat_of seat.now)) }
    ensures sorted { IfOk result (λ v. T (is_sorted key_cmp v.items)) }
{
    let listed = seat.session.table().entries(alloc)?;
    let mut entries = Vec::new(alloc);
    sort_routes(attributes, &seat.key, listed.as_slice(), &mut entries, left)?;
    Ok(entries)
}

/// Returns the entries of all these peers, to be merged. Routes that are too long are added to those that are left out.
pub(crate) fn list_seats<'a, F: WideAddress, M: PrefixMap<RouteId, Addr = F>>(
    alloc: Global,
    attributes: &mut Attributes,
    seats: &'a [Seated<M>],
    left: &mut Vec<(PeerKey, RouteKey<Prefix<F>>)>,
) -> Result<Merge<'a, F>, Memory>
    requires { length seats.now < 256 ^ 2 }
    ensures merge { IfOk result IsMerge }
    ensures lists { IfOk result (λ merge. merge.lists ≡ map (λ s. kept_entries F.family (seat_of s).session.table) seats.now) }
    ensures left { OnOk result (left.new.items ≡ left.old.items ++ flat_map (λ s. left_entries F.family (seat_of s)) seats.now) }
{
    let mut merge = Merge::new(alloc);
    for seat in seats {
        merge.add(list_seat(alloc, attributes, seat, left)?)?;
    }
    Ok(merge)
}
