//! What chosen routes leave of many tables, by several threads.

ghost use Rattle.std.specs.Prelude.{◌≡◌, ◌<◌, ◌≤◌, OnOk, length};
ghost use Rattle.std.specs.List.{AllZip};
ghost use Rattle.std.specs.Thread.{IsSend, IsSync};

use bgp_prefix::Memory;
use std::alloc::Global;
use std::marker::{Send, Sync};
use std::thread::{Threads, join_mut};

/// What has routes, of which a choice leaves some. `retain_all` knows no more of it, since the borrow checker covers no
/// closures over slices of a type with parameters.
pub(crate) trait Retains<C> {
    ghost use Rattle.std.specs.Prelude.{OnOk};

    /// What a choice leaves of it.
    ghost retained: { C → Self → Self → Type 0 };

    /// Removes what isn't chosen.
    fn retain(&mut self, alloc: Global, chosen: &C) -> Result<(), Memory>
        ensures { OnOk result (retained chosen.now self.old self.new) };

    /// The number of its routes.
    fn routes(&self) -> usize;
}

/// Removes what isn't chosen from each, by so many workers: each has its own thread if one can be started.
#[cycle(halves)]
pub(crate) fn retain_all<R: Threads + Sync, C: Sync, S: Retains<C> + Send>(
    rt: &R,
    alloc: Global,
    workers: usize,
    chosen: &C,
    seats: &mut [S],
) -> Result<(), Memory>
    ensures { OnOk result (AllZip (S.retained chosen.now) seats.old seats.new) }
{
    if workers < 2 || seats.len() < 2 {
        return retain_each(alloc, chosen, seats);
    }
    let half = front_len::<C, S>(seats, workers);
    let (front, back) = seats.split_at_mut(half);
    retain_both(rt, alloc, workers, chosen, front, back)
}

/// Does so with a front and a back, each by half of the workers.
#[cycle(halves)]
fn retain_both<R: Threads + Sync, C: Sync, S: Retains<C> + Send>(
    rt: &R,
    alloc: Global,
    workers: usize,
    chosen: &C,
    front: &mut [S],
    back: &mut [S],
) -> Result<(), Memory>
    requires { (0 < length front.old) × (0 < length back.old) }
    ensures front { OnOk result (AllZip (S.retained chosen.now) front.old front.new) }
    ensures back { OnOk result (AllZip (S.retained chosen.now) back.old back.new) }
{
    let mut retain_front = || -> Result<(), Memory>
        requires { IsSync R.row × IsSync C.row × IsSend S.row }
        ensures { OnOk result (AllZip (S.retained chosen.entry.now) front.entry.now front.exit.now) }
    { retain_all(rt, alloc, workers / 2, chosen, front) };
    let mut retain_back = || -> Result<(), Memory>
        requires { IsSync R.row × IsSync C.row × IsSend S.row }
        ensures { OnOk result (AllZip (S.retained chosen.entry.now) back.entry.now back.exit.now) }
    { retain_all(rt, alloc, workers.div_ceil(2), chosen, back) };
    let (first, second) = join_mut(rt, &mut retain_front, &mut retain_back);
    first?;
    second
}

/// The number of routes of all. Saturates at `u64::MAX`.
fn count_all<C, S: Retains<C>>(seats: &[S]) -> u64 {
    let mut count = 0u64;
    for seat in seats {
        count = count.saturating_add(seat.routes() as u64);
    }
    count
}

/// Returns how many, from the first one on, have about the routes that half of the workers are to take: not all.
fn front_len<C, S: Retains<C>>(seats: &[S], workers: usize) -> usize
    requires workers { 0 < workers }
    requires some { 2 ≤ length seats.now }
    ensures { (0 < result) × (result < length seats.now) }
{
    let each = count_all::<C, S>(seats) / workers as u64;
    let wanted = each.saturating_mul(workers as u64 / 2);
    let mut count = 0u64;
    for at in 1..seats.len() {
        count = count.saturating_add(seats[at - 1].routes() as u64);
        if count >= wanted {
            return at;
        }
    }
    seats.len() - 1
}

/// Removes what isn't chosen from each, in the calling thread.
fn retain_each<C, S: Retains<C>>(alloc: Global, chosen: &C, seats: &mut [S]) -> Result<(), Memory>
    ensures { OnOk result (AllZip (S.retained chosen.now) seats.old seats.new) }
{
    for at in 0..seats.len() {
        seats[at].retain(alloc, chosen)?;
    }
    Ok(())
}
