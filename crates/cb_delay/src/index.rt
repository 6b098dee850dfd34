//! Where each sender's candidate stands at the time of the last answer, so that the next looks at few.
ghost use Rattle.std.specs.Prelude.{◌≡◌, ◌≢◌, ◌+◌, ◌<◌, ◌≤◌, ℕ, List, [], IfOk, true, false};
ghost use Rattle.std.specs.Prelude.{length, map, slice_index, slice_set};
ghost use Rattle.std.specs.Int.{bit_at};
ghost use Rattle.cb_times.specs.Group.{IsGroupSize};
ghost use Rattle.cb_times.specs.Order.{field};
ghost use Rattle.cb_delay.specs.declared.message.Message.{Message};
ghost use Rattle.cb_delay.specs.declared.place.Place.TheVariants.{Ready, Waits};
ghost use Rattle.cb_delay.specs.Index.{IsFresh, HasShape, Tells, AreRuns, IsPlaced, place_of};
ghost use Rattle.cb_delay.specs.Lists.{list_of};

use crate::lists::holds_some;
use crate::members;
use crate::message::Message;
use crate::place::{EIGHT, Place, place_at};
use cb_times::{NoMemory, VectorTime};
use std::alloc::Global;
use std::collections::VecDeque;

/// Where the candidates stand. All that it keeps is made in `new`.
#[derive(Debug, Drop)]
pub struct Index {
    /// The time of the last answer, at which the places hold.
    pub last: VectorTime,
    /// Of each sender. Of one that is stale it says nothing.
    pub places: Vec<Place>,
    /// Of each member who waits for messages of it, and maybe some who do no more: who leaves writes nothing.
    pub waiting: Vec<u64>,
    /// Who stands at `Ready`.
    pub ready: u64,
    /// Who must be looked at before the next answer.
    pub stale: u64,
    /// How many comparisons were made, up to the greatest number.
    pub looked: u64,
}

impl Index {
    /// The index of a queue that holds nothing, at the time at which nothing is delivered.
    pub fn new(alloc: Global, size: u32) -> Result<Index, NoMemory>
        requires { IsGroupSize size }
        ensures { IfOk result (IsFresh size) }
    {
        Ok(Index {
            last: VectorTime::zero(alloc, size)?,
            places: vec![in alloc; Place::Free; size as usize]?,
            waiting: vec![in alloc; 0; size as usize]?,
            ready: 0,
            stale: 0,
            looked: 0,
        })
    }

    /// Who is stale once the message of this number is held of this sender.
    pub fn stale_with(&self, sender: u32, number: u32) -> u64
        requires sender { sender < length self.now.last }
        requires size { length self.now.last ≤ 64 }
        ensures others { (i : ℕ) → i ≢ sender → bit_at result i ≡ bit_at self.now.stale i }
        ensures stays { bit_at result sender ≡ 0 → bit_at self.now.stale sender ≡ 0 }
        ensures other { bit_at result sender ≡ 0 → number ≢ field self.now.last sender + 1 }
    {
        let is_next = u64::from(number) == u64::from(self.last.get(sender)) + 1;
        members::with_if(self.stale, sender, is_next)
    }

    /// Looks at those who may stand elsewhere at this time than at that of the last answer.
    pub fn settle(&mut self, lists: &[VecDeque<Message>], now: &VectorTime)
        requires size { length lists.now ≡ length now.now }
        requires shape { HasShape (length now.now) self.old }
        requires runs { AreRuns (map (λ list. list.items) lists.now) }
        requires placed { Tells (map (λ list. list.items) lists.now) self.old }
        ensures shape { HasShape (length now.now) self.new }
        ensures placed { Tells (map (λ list. list.items) lists.now) self.new }
        ensures last { self.new.last ≡ now.now }
        ensures stale { self.new.stale ≡ 0 }
        ensures free { self.old.stale ≡ 0 → self.old.last ≡ now.now
            → self.new.looked ≡ self.old.looked }
        ensures counts { self.old.looked ≤ self.new.looked }
    {
        self.go_to(lists, now);
        if self.stale != 0 {
            self.place_the_stale(lists);
        }
    }

    /// Whether nobody is ready, nor reached once one more message of this member is delivered.
    pub fn none_goes_with(&self, member: u32) -> bool
        requires member { member < length self.now.last }
        requires shape { HasShape (length self.now.last) self.now }
        ensures none { result ≡ true → self.now.ready ≡ 0 }
        ensures none_reached { result ≡ true → (i value : ℕ)
            → bit_at (slice_index self.now.waiting.items member) i ≡ 1
            → place_of self.now.places.items i ≡ Waits member value
            → field self.now.last member + 1 < value }
    {
        let Some(count) = self.last.get(member).checked_add(1) else {
            return false;
        };
        self.ready == 0
            && walk_over(self.waiting[member as usize], &self.places, member, count).reached == 0
    }

    /// Makes its time that at which one message more of this member is delivered. `holds_some` says whether any is held of it.
    pub fn go_one_further(&mut self, member: u32, holds_some: bool)
        requires member { member < length self.old.last }
        requires shape { HasShape (length self.old.last) self.old }
        ensures shape { HasShape (length self.old.last) self.new }
        ensures placed { (lists : List (List Message)) → (holds_some ≡ false → list_of lists member ≡ [])
            → Tells lists self.old → Tells lists self.new }
        ensures looked { self.new.looked ≡ self.old.looked }
    {
        if let Some(count) = self.last.get(member).checked_add(1) {
            self.grow(member, count, holds_some);
        }
    }

    /// Makes this the time of the index: goes from one field that differs to the next.
    fn go_to(&mut self, lists: &[VecDeque<Message>], now: &VectorTime)
        requires size { length lists.now ≡ length now.now }
        requires shape { HasShape (length now.now) self.old }
        ensures shape { HasShape (length now.now) self.new }
        ensures placed { Tells (map (λ list. list.items) lists.now) self.old
            → Tells (map (λ list. list.items) lists.now) self.new }
        ensures last { self.new.last ≡ now.now }
        ensures still { self.old.last ≡ now.now → self.new.stale ≡ self.old.stale }
        ensures looked { self.new.looked ≡ self.old.looked }
    {
        let mut k = same_before(self.last.as_slice(), now.as_slice(), 0);
        while k < now.as_slice().len() {
            self.set_field(lists, k as u32, now.get(k as u32));
            k = same_before(self.last.as_slice(), now.as_slice(), k + 1);
        }
    }

    fn set_field(&mut self, lists: &[VecDeque<Message>], k: u32, count: u32)
        requires size { length lists.now ≡ length self.old.last }
        requires member { k < length self.old.last }
        requires shape { HasShape (length self.old.last) self.old }
        ensures shape { HasShape (length self.old.last) self.new }
        ensures placed { Tells (map (λ list. list.items) lists.now) self.old
            → Tells (map (λ list. list.items) lists.now) self.new }
        ensures last { self.new.last ≡ slice_set self.old.last k count }
        ensures looked { self.new.looked ≡ self.old.looked }
    {
        if self.last.get(k) < count {
            self.grow(k, count, holds_some(lists, k));
            return;
        }
        self.shrink(k, count);
    }

    /// More of member k is delivered: who waited for that may be ready, and where any is held of k, its candidate is another.
    fn grow(&mut self, k: u32, count: u32, holds_some: bool)
        requires member { k < length self.old.last }
        requires shape { HasShape (length self.old.last) self.old }
        requires more { field self.old.last k < count }
        ensures shape { HasShape (length self.old.last) self.new }
        ensures last { self.new.last ≡ slice_set self.old.last k count }
        ensures placed { (lists : List (List Message)) → (holds_some ≡ false → list_of lists k ≡ [])
            → Tells lists self.old → Tells lists self.new }
        ensures looked { self.new.looked ≡ self.old.looked }
    {
        let walk = walk_over(self.waiting[k as usize], &self.places, k, count);
        self.waiting[k as usize] = walk.waiting;
        let others = members::either(self.stale, walk.reached);
        self.stale = members::with_if(others, k, holds_some);
        self.last.set(k, count);
    }

    /// Less is delivered than before: nobody's place is known.
    fn shrink(&mut self, k: u32, count: u32)
        requires member { k < length self.old.last }
        requires shape { HasShape (length self.old.last) self.old }
        ensures shape { HasShape (length self.old.last) self.new }
        ensures last { self.new.last ≡ slice_set self.old.last k count }
        ensures placed { (lists : List (List Message)) → Tells lists self.old → Tells lists self.new }
        ensures looked { self.new.looked ≡ self.old.looked }
    {
        self.stale = members::all(self.places.len());
        self.last.set(k, count);
    }

    /// Looks where the candidate of each stale sender stands, so that nobody is stale.
    fn place_the_stale(&mut self, lists: &[VecDeque<Message>])
        requires shape { HasShape (length lists.now) self.old }
        requires runs { AreRuns (map (λ list. list.items) lists.now) }
        requires placed { Tells (map (λ list. list.items) lists.now) self.old }
        ensures shape { HasShape (length lists.now) self.new }
        ensures placed { Tells (map (λ list. list.items) lists.now) self.new }
        ensures last { self.new.last ≡ self.old.last }
        ensures stale { self.new.stale ≡ 0 }
        ensures counts { self.old.looked ≤ self.new.looked }
    {
        while let Some(sender) = members::first(self.stale) {
            let list = &lists[sender as usize];
            let place = place_at(&mut self.looked, list, sender, &self.last);
            self.put(sender, place);
        }
    }

    /// The sender's candidate stands here.
    fn put(&mut self, sender: u32, place: Place)
        requires member { sender < length self.old.last }
        requires shape { HasShape (length self.old.last) self.old }
        requires within { (k value : ℕ) → place ≡ Waits k value → k < length self.old.last }
        ensures shape { HasShape (length self.old.last) self.new }
        ensures placed { (lists : List (List Message)) → Tells lists self.old
            → IsPlaced sender (list_of lists sender) self.old.last place → Tells lists self.new }
        ensures last { self.new.last ≡ self.old.last }
        ensures less { bit_at self.old.stale sender ≡ 1 → self.new.stale < self.old.stale }
        ensures looked { self.new.looked ≡ self.old.looked }
    {
        wait(&mut self.waiting, sender, place);
        self.ready = ready_with(self.ready, sender, place);
        self.places[sender as usize] = place;
        self.stale = members::without(self.stale, sender);
    }
}

/// The first member from `first` on whose fields differ, or how many members there are.
fn same_before(before: &[u32], now: &[u32], first: usize) -> usize
    requires size { length before.now ≡ length now.now }
    requires few { length now.now ≤ 64 }
    requires member { first ≤ length now.now }
    ensures from { first ≤ result }
    ensures within { result ≤ length now.now }
    ensures same { (k : ℕ) → first ≤ k → k < result → field before.now k ≡ field now.now k }
    ensures differs { result < length now.now → field before.now result ≢ field now.now result }
{
    let mut k = same_eights(before, now, first);
    while k < now.len() && before[k] == now[k] {
        k += 1;
    }
    k
}

/// A member before whom all fields from `first` on are the same: it stops before the eight that differ somewhere, or the last few.
fn same_eights(before: &[u32], now: &[u32], first: usize) -> usize
    requires size { length before.now ≡ length now.now }
    requires few { length now.now ≤ 64 }
    requires member { first ≤ length now.now }
    ensures from { first ≤ result }
    ensures within { result ≤ length now.now }
    ensures same { (k : ℕ) → first ≤ k → k < result → field before.now k ≡ field now.now k }
{
    let mut k = first;
    while k + EIGHT <= now.len() && are_same_eight(before, now, k) {
        k += EIGHT;
    }
    k
}

/// Whether the two are the same in the eight fields from `first` on. It looks at all, so that the compiler takes several at once.
fn are_same_eight(before: &[u32], now: &[u32], first: usize) -> bool
    requires size { length before.now ≡ length now.now }
    requires within { first + 8 ≤ length now.now }
    requires few { length now.now ≤ 64 }
    ensures { result ≡ true → (k : ℕ) → first ≤ k → k < first + 8 → field before.now k ≡ field now.now k }
{
    let mut same = true;
    for j in 0..EIGHT {
        let k = first + j;
        same &= before[k] == now[k];
    }
    same
}

/// Whom a walk over those who wait for one member found.
#[derive(Clone, Copy)]
struct Walk {
    reached: u64,
    waiting: u64,
}

/// Of those in the set, who has what it waits for once so much is delivered of this member, and who waits on.
fn walk_over(set: u64, places: &[Place], member: u32, count: u32) -> Walk
    requires size { length places.now ≤ 64 }
    requires members { (i : ℕ) → length places.now ≤ i → bit_at set i ≡ 0 }
    ensures reached { (i value : ℕ) → bit_at set i ≡ 1 → place_of places.now i ≡ Waits member value
        → value ≤ count → bit_at result.reached i ≡ 1 }
    ensures waiting { (i value : ℕ) → bit_at set i ≡ 1 → place_of places.now i ≡ Waits member value
        → count < value → bit_at result.waiting i ≡ 1 }
    ensures no_others { (i : ℕ) → bit_at set i ≡ 0 → bit_at result.reached i ≡ 0 }
    ensures none_waits { (i : ℕ) → bit_at set i ≡ 0 → bit_at result.waiting i ≡ 0 }
{
    let mut left = set;
    let mut reached = 0;
    let mut waiting = 0;
    while let Some(i) = members::first(left) {
        left = members::without(left, i);
        let standing = places[i as usize].standing_at(member, count);
        reached = members::with_if(reached, i, standing.is_reached);
        waiting = members::with_if(waiting, i, standing.still_waits);
    }
    Walk { reached, waiting }
}

/// Lets the sender wait for the member that its place names.
fn wait(waiting: &mut [u64], sender: u32, place: Place)
    requires sender { sender < 64 }
    requires within { (k value : ℕ) → place ≡ Waits k value → k < length waiting.old }
    ensures waits { (k value : ℕ) → place ≡ Waits k value
        → bit_at (slice_index waiting.new k) sender ≡ 1 }
    ensures others { (k i : ℕ) → i ≢ sender
        → bit_at (slice_index waiting.new k) i ≡ bit_at (slice_index waiting.old k) i }
{
    if let Place::Waits { field, .. } = place {
        let set = &mut waiting[field as usize];
        *set = members::with(*set, sender);
    }
}

fn ready_with(ready: u64, sender: u32, place: Place) -> u64
    requires { sender < 64 }
    ensures is_in { place ≡ Ready → bit_at result sender ≡ 1 }
    ensures is_out { place ≢ Ready → bit_at result sender ≡ 0 }
    ensures others { (i : ℕ) → i ≢ sender → bit_at result i ≡ bit_at ready i }
{
    match place {
        Place::Ready => members::with(ready, sender),
        Place::Free | Place::Waits { .. } => members::without(ready, sender),
    }
}
