//! The dealer's end of a lane's ring. Units pass through the ring in lists, so that the dealer's and the worker's
//! processors exchange its positions once for each list, and a worker can read a list where it lies.

ghost use Rattle.std.specs.Prelude.{◌≡◌, ◌+◌, ◌^◌, ◌<◌, ◌≤◌, length, drop};
ghost use Rattle.std.proofs.Props.{props};
ghost use Rattle.std.specs.List.{AllByRecursion};
ghost use Rattle.rtrb.specs.Ring.{known_free as free_slots, sent as sent_lists, producer_capacity};
ghost use Rattle.unit_rings.specs.UnitLists.{units_of, AreSmall, AreLastLengths, total};

use crate::peer_unit::NonEmptyLists;
use crate::unit_list::{UnitList, UnitListOf};
use bgp_prefix::{Memory, Prefix};
use bgp_update::{Rules, Unicast};
use peer_units::UnitRef;
use rtrb::{Consumer, Producer, RingBuffer};
use std::alloc::Global;
use std::collections::VecDeque;
use std::mem;

/// The maximum number of units in a list that the dealer pushes.
const MOST_UNITS: usize = 32;

/// The dealer's end of a ring.
#[derive(Drop)]
pub struct UnitProducer<P = Prefix, K = Rules> {
    lists: Producer<UnitList<P, K>, Global, NonEmptyLists>,
    /// The list that is being filled.
    open_list: UnitList<P, K>,
    /// How many units each list has that isn't known to be popped, the oldest first.
    lengths: VecDeque<usize>,
    /// How many more units may wait.
    free: usize,
    /// How many units may wait in the ring.
    capacity: usize,
    /// How many units fill a list.
    size: usize,
    ghost slots: { (capacity ≤ length lengths.items + free_slots lists) × (producer_capacity lists ≡ capacity) },
    ghost waiting: { AreLastLengths lengths.items (sent_lists lists) },
    ghost some: { AllByRecursion (λ n. 0 < n) lengths.items } by { Prim.hlevel props },
    ghost room: { free + total lengths.items + length (units_of open_list) ≡ capacity },
    ghost small: { AreSmall (units_of open_list) } by { Prim.hlevel props },
}

/// The dealer's end of a ring of units of a family.
pub type UnitProducerOf<F> = UnitProducer<Prefix<F>, Rules<F>>;

/// Returns how many units fill a list in a ring of so many units: an eighth of them, within bounds.
fn list_size(capacity: usize) -> usize
    ensures { 0 < result }
{
    (capacity / 8).min(MOST_UNITS).max(1)
}

/// The maximum number of emptied lists that wait to be filled again.
const MOST_RECYCLED: usize = 64;

/// Returns how many emptied lists may wait to be filled again, for a ring of so many units: as many as the ring holds,
/// and one that is being filled, within bounds.
pub fn recycled_room(capacity: usize) -> usize {
    (capacity / list_size(capacity))
        .saturating_add(1)
        .min(MOST_RECYCLED)
}

/// Takes out the first numbers, and returns their sum.
fn take_sum(lengths: &mut VecDeque<usize>, count: usize) -> usize
    requires count { count ≤ length lengths.old.items }
    requires sum { total lengths.old.items < 2 ^ 64 }
    ensures left { lengths.new.items ≡ drop count lengths.old.items }
    ensures sum { result + total lengths.new.items ≡ total lengths.old.items }
{
    let mut sum = 0;
    for taken in 0..count {
        if let Some(length) = lengths.pop_front() {
            sum += length;
        }
    }
    sum
}

impl<F: Unicast> UnitProducer<Prefix<F>, Rules<F>> {
    ghost use Rattle.std.specs.Prelude.{◌≡◌, ◌+◌, ◌<◌, ◌≤◌, [], ◌∷◌, ◌++◌, length, IfOk, OnOk, IsTrue, ◌↔◌, false};
    ghost use Rattle.rtrb.specs.Ring.{ConsumerLooked};
    ghost use Rattle.peer_units.specs.Payloads.{IsSmallUnit};
    ghost use Rattle.unit_rings.specs.UnitLists.{IsUnitList};
    ghost use Rattle.unit_rings.specs.UnitRings.{sent, known_free, ring_capacity, received, known_items, IsPair, SameProducer, ProducerLooked};

    /// Makes an empty ring, in which so many units may wait, and returns its two ends.
    pub fn new(
        alloc: Global,
        capacity: usize,
    ) -> Result<
        (
            UnitProducerOf<F>,
            Consumer<UnitListOf<F>, Global, NonEmptyLists>,
        ),
        Memory,
    >
        ensures pair { IfOk result (λ r. IsPair r.0 r.1) }
        ensures producer { IfOk result (λ r. (sent r.0 ≡ []) × (known_free r.0 ≡ capacity) ×
            (ring_capacity r.0 ≡ capacity)) }
        ensures consumer { IfOk result (λ r. (received r.1 ≡ []) × (known_items r.1 ≡ [])) }
        ensures open_list { IfOk result (λ r. units_of r.0.open_list ≡ []) }
    {
        let (lists, consumer) = RingBuffer::with_protocol::<Global, NonEmptyLists>(
            alloc, capacity,
        )?;
        let producer = UnitProducer {
            lists,
            open_list: UnitList::new(alloc),
            lengths: VecDeque::new(alloc),
            free: capacity,
            capacity,
            size: list_size(capacity),
        };
        Ok((producer, consumer))
    }

    /// How many units may wait in the ring.
    pub fn capacity(&self) -> usize
        ensures { result ≡ ring_capacity self.now }
    {
        self.capacity
    }

    /// How many more units may wait, as far as is known.
    pub fn free(&self) -> usize
        ensures { result ≡ known_free self.now }
    {
        self.free
    }

    /// How many units wait, as far as is known.
    pub fn waiting(&self) -> usize
        ensures { result + known_free self.now ≡ ring_capacity self.now }
    {
        self.capacity - self.free
    }

    /// Looks which lists were popped, and returns how many more units may wait.
    #[inline(never)]
    pub fn look(&mut self) -> usize
        ensures looked { ProducerLooked self.old self.new }
        ensures value { result ≡ known_free self.new }
    {
        let waiting = self.capacity - self.lists.slots();
        let popped = self.lengths.len() - waiting;
        self.free += take_sum(&mut self.lengths, popped);
        self.free
    }

    /// Whether no more units may wait. The worker may pop some at any time.
    #[inline(always)]
    pub fn is_full(&mut self) -> bool
        ensures looked { ProducerLooked self.old self.new }
        ensures value { IsTrue result ↔ (known_free self.new ≡ 0) }
    {
        self.free == 0 && self.look() == 0
    }

    /// Takes out the list that is being filled.
    fn take_open_list(&mut self, alloc: Global) -> UnitListOf<F>
        ensures ring { SameProducer self.old self.new }
        ensures sent { sent self.old ≡ sent self.new ++ units_of result }
        ensures free { known_free self.new ≡ known_free self.old + length (units_of result) }
        ensures small { AreSmall (units_of result) }
        ensures value { units_of result ≡ units_of self.old.open_list }
        ensures open_list { units_of self.new.open_list ≡ [] }
    {
        self.free += self.open_list.len();
        mem::replace(&mut self.open_list, UnitList::new(alloc))
    }

    /// Begins a list, in the memory of one that the worker emptied if there is one: a thread that frees what another
    /// one allocated, and one that allocates meanwhile, wait for each other.
    #[inline(never)]
    fn begin_list(&mut self, recycled: &mut Consumer<UnitListOf<F>, Global>) -> Result<(), Memory>
        requires { units_of self.old.open_list ≡ [] }
        ensures ring { SameProducer self.old self.new }
        ensures sent { sent self.new ≡ sent self.old }
        ensures free { known_free self.new ≡ known_free self.old }
        ensures open_list { units_of self.new.open_list ≡ [] }
    {
        if let Ok(list) = recycled.pop() {
            let mut next = list;
            next.clear();
            self.open_list = next;
        }
        self.open_list.reserve(self.size)
    }

    /// Pushes a list, after which no list is being filled.
    fn push_list(&mut self, list: UnitListOf<F>) -> Result<(), Memory>
        requires list { IsUnitList list }
        requires room { length (units_of list) ≤ known_free self.old }
        requires open_list { units_of self.old.open_list ≡ [] }
        ensures ring { SameProducer self.old self.new }
        ensures sent { OnOk result (sent self.new ≡ sent self.old ++ units_of list) }
        ensures free { OnOk result (known_free self.old ≡ known_free self.new + length (units_of list)) }
        ensures open_list { units_of self.new.open_list ≡ [] }
    {
        let length = list.len();
        self.lengths.push_back(length)?;
        self.lists.push_reserved(list);
        self.free -= length;
        Ok(())
    }

    /// Pushes the list that is being filled.
    #[inline(never)]
    fn push_open_list(&mut self, alloc: Global) -> Result<(), Memory>
        requires { 0 < length (units_of self.old.open_list) }
        ensures ring { SameProducer self.old self.new }
        ensures sent { OnOk result (sent self.new ≡ sent self.old) }
        ensures free { OnOk result (known_free self.new ≡ known_free self.old) }
    {
        let list = self.take_open_list(alloc);
        self.push_list(list)
    }

    /// Adds a copy of this unit of the peer with this number to the list that is being filled, and pushes the list if
    /// it is then full. A list is begun in the memory of one that was emptied.
    #[inline(always)]
    pub fn push(
        &mut self,
        alloc: Global,
        recycled: &mut Consumer<UnitListOf<F>, Global>,
        number: usize,
        unit: &UnitRef<'_, F>,
    ) -> Result<(), Memory>
        requires small { IsSmallUnit unit.now }
        requires room { 0 < known_free self.old }
        ensures ring { SameProducer self.old self.new }
        ensures sent { OnOk result
            (sent self.new ≡ sent self.old ++ record { number = number; unit = unit.now } ∷ []) }
        ensures free { OnOk result (known_free self.old ≡ known_free self.new + 1) }
    {
        if self.open_list.len() == 0 {
            self.begin_list(recycled)?;
        }
        self.open_list.push(number, unit)?;
        self.free -= 1;
        if self.open_list.len() < self.size {
            return Ok(());
        }
        self.push_open_list(alloc)
    }

    /// Compares both ends, which are in one thread: the dealer then knows how many units wait, and the worker all lists
    /// that wait.
    pub fn compare(&mut self, consumer: &mut Consumer<UnitListOf<F>, Global, NonEmptyLists>)
        requires { IsPair self.old consumer.old }
        ensures producer { ProducerLooked self.old self.new }
        ensures consumer { ConsumerLooked consumer.old consumer.new }
        ensures fifo { received consumer.new ++ known_items consumer.new ++ units_of self.new.open_list ≡ sent self.new }
        ensures exact { known_free self.new + length (known_items consumer.new ++ units_of self.new.open_list) ≡
            ring_capacity self.new }
        ensures open_list { units_of self.new.open_list ≡ units_of self.old.open_list }
    {
        let waiting = self.capacity - self.lists.slots_beside(consumer);
        let popped = self.lengths.len() - waiting;
        self.free += take_sum(&mut self.lengths, popped);
        consumer.slots_beside(&mut self.lists);
    }

    /// Moves all lists that the worker knows to wait to this ring.
    pub fn move_lists(
        &mut self,
        from: &mut Consumer<UnitListOf<F>, Global, NonEmptyLists>,
    ) -> Result<(), Memory>
        requires room { length (known_items from.old) ≤ known_free self.old }
        requires open_list { units_of self.old.open_list ≡ [] }
        ensures ring { SameProducer self.old self.new }
        ensures sent { OnOk result (sent self.new ≡ sent self.old ++ known_items from.old) }
        ensures free { OnOk result (known_free self.old ≡ known_free self.new + length (known_items from.old)) }
        ensures open_list { units_of self.new.open_list ≡ [] }
    {
        for moved in 0..from.cached_slots() {
            self.push_list(from.pop_known())?;
        }
        Ok(())
    }

    /// Moves the units that wait to be pushed to this ring, as a list.
    pub fn move_open_list(
        &mut self,
        alloc: Global,
        from: &mut UnitProducerOf<F>,
    ) -> Result<(), Memory>
        requires room { length (units_of from.old.open_list) ≤ known_free self.old }
        requires open_list { units_of self.old.open_list ≡ [] }
        ensures ring { SameProducer self.old self.new }
        ensures sent { OnOk result (sent self.new ≡ sent self.old ++ units_of from.old.open_list) }
        ensures free { OnOk result (known_free self.old ≡ known_free self.new + length (units_of from.old.open_list)) }
        ensures open_list { units_of self.new.open_list ≡ [] }
    {
        let list = from.take_open_list(alloc);
        if list.len() == 0 {
            return Ok(());
        }
        self.push_list(list)
    }
}
