//! What is under way, in the order in which it is due.

ghost use Rattle.std.specs.BinaryHeap.{KeepsHeap, heap_capacity, heap_items, heap_len};
ghost use Rattle.std.specs.Prelude.{◌+◌, ◌<◌, ◌↔◌, ◌∷◌, ◌≡◌, ◌≤◌, IfNone, IfSome, IsPermutation, IsTrue, OnOk, OnSome};
ghost use Rattle.std.specs.Prelude.{[], length, option_copied, option_map};
ghost use Rattle.world_state.specs.queue.Finding.{HoldsAt, HoldsNoneAt, IsSlotFor, NoSlotFor};
ghost use Rattle.world_state.specs.queue.{Places.{IsFirst, first_entry, numbers_of}, Queues.reversed};

use slab::Slab;
use std::alloc::{AllocError, Global};
use std::cmp::Reverse;
use std::collections::BinaryHeap;
use std::marker::Model;

/// When something is due: its time, its rank at that time, and the numbers that part what is of one rank.
#[derive(Clone, Copy, Debug, PartialEq, Eq, PartialOrd, Ord)]
pub struct DueAt {
    pub at: u64,
    pub rank: u32,
    pub device: u32,
    pub link: u32,
    pub cause: u64,
}

/// What is due, with its place.
#[derive(Drop)]
pub struct Entry<T> {
    pub place: DueAt,
    pub content: T,
}

/// A place, with the slot of what is due there.
#[derive(Clone, Copy, PartialEq, Eq, PartialOrd, Ord)]
struct Slotted {
    place: DueAt,
    slot: usize,
}

/// What is under way: each thing at its place, the first of them at hand.
#[derive(Drop)]
pub struct UnderWay<T> {
    heap: BinaryHeap<Reverse<Slotted>>,
    contents: Slab<T>,
}

impl<T> Model for UnderWay<T> {
    ghost use Rattle.world_state.specs.queue.Queues.{Queue};

    ghost Value = { Queue T };

    ghost use Rattle.std.specs.BinaryHeap.{heap_capacity, heap_items, heap_len};
    ghost use Rattle.world_state.specs.queue.Queues.{entries_in, room_of, IsSound};

    ghost view = { λ q. record {
      entries = entries_in q.contents (heap_items q.heap);
      room = room_of q.contents (heap_len q.heap) (heap_capacity q.heap);
    } };

    ghost invariant = { λ q. IsSound q.contents (heap_items q.heap) };
}

// Pushes onto a heap that has room.
fn push_reserved(heap: &mut BinaryHeap<Reverse<Slotted>>, item: Reverse<Slotted>)
    requires { heap_len heap.old < heap_capacity heap.old }
    ensures len { heap_len heap.new ≡ heap_len heap.old + 1 }
    ensures capacity { heap_capacity heap.old ≤ heap_capacity heap.new }
    ensures items { IsPermutation (item ∷ heap_items heap.old) (heap_items heap.new) }
    ensures heap_order { KeepsHeap reversed (heap_items heap.old) (heap_items heap.new) }
{
    let _ = heap.push(item);
}

/// The slot of the first of these places that has the rank and the cause.
fn slot_for(places: &[Reverse<Slotted>], rank: u32, cause: u64) -> Option<usize>
    ensures found { IfSome result (IsSlotFor places.now rank cause) }
    ensures none { IfNone result (NoSlotFor places.now rank cause) }
{
    'places: for slotted in places {
        let place = &slotted.0.place;
        if place.cause == cause && place.rank == rank {
            return Some(slotted.0.slot);
        }
    }
    None
}

impl<T> UnderWay<T> {
    /// Nothing is under way.
    pub fn new(alloc: Global) -> UnderWay<T>
        ensures { result.entries ≡ [] }
    {
        UnderWay {
            heap: BinaryHeap::new(alloc),
            contents: Slab::new(alloc),
        }
    }

    /// How many are under way.
    pub fn len(&self) -> usize
        ensures { result ≡ length self.now.entries }
    {
        self.heap.len()
    }

    /// Is nothing under way?
    pub fn is_empty(&self) -> bool
        ensures { IsTrue result ↔ (self.now.entries ≡ []) }
    {
        self.len() == 0
    }

    /// How many more may be put under way before more room is taken.
    pub fn room(&self) -> usize
        ensures { result ≡ self.now.room }
    {
        let places = self.heap.capacity() - self.heap.len();
        let contents = self.contents.capacity() - self.contents.len();
        places.min(contents)
    }

    /// Takes room for so many more.
    pub fn reserve(&mut self, more: usize) -> Result<(), AllocError>
        ensures entries { self.new.entries ≡ self.old.entries }
        ensures room { OnOk result (more ≤ self.new.room) }
    {
        self.contents.reserve(more)?;
        self.heap.reserve(more)
    }

    /// Puts one under way, for which there is room.
    pub fn put(&mut self, place: DueAt, content: T)
        requires { 0 < self.old.room }
        ensures entries { IsPermutation (record { place = place; content = content }
            ∷ self.old.entries) self.new.entries }
        ensures room { self.old.room ≤ self.new.room + 1 }
    {
        let slot = self.contents.insert_reserved(content);
        push_reserved(&mut self.heap, Reverse(Slotted { place, slot }));
    }

    /// The place of the first.
    pub fn first(&self) -> Option<DueAt>
        ensures first { IfSome result (λ place. IsFirst self.now.entries place) }
        ensures none { IfNone result (self.now.entries ≡ []) }
    {
        match self.heap.peek() {
            Some(first) => Some(first.0.place),
            None => None,
        }
    }

    /// What is due first.
    pub fn peek(&self) -> Option<&T>
        ensures is { option_copied result ≡ option_map (λ e. e.content) (first_entry self.now.entries) }
        ensures first { IfSome (first_entry self.now.entries) (λ e. IsFirst self.now.entries e.place) }
    {
        match self.heap.peek() {
            Some(first) => self.contents.get(first.0.slot),
            None => None,
        }
    }

    /// What is due at a place of this rank and this cause. It is None exactly where nothing is.
    ///
    /// It looks through all places.
    pub fn find(&self, rank: u8, cause: u64) -> Option<&T>
        ensures found { IfSome result (λ content. HoldsAt self.now.entries rank cause content.now) }
        ensures none { IfNone result (HoldsNoneAt self.now.entries rank cause) }
    {
        match slot_for(self.heap.as_slice(), u32::from(rank), cause) {
            Some(slot) => self.contents.get(slot),
            None => None,
        }
    }

    /// Takes the first out.
    pub fn take_first(&mut self) -> Option<Entry<T>>
        ensures first { IfSome result (λ entry. IsFirst self.old.entries entry.place) }
        ensures head { result ≡ first_entry self.old.entries }
        ensures entries { IfSome result (λ entry. IsPermutation self.old.entries (entry ∷ self.new.entries)) }
        ensures room { OnSome result (self.new.room ≡ self.old.room + 1) }
        ensures none { IfNone result (self.old.entries ≡ []) }
        ensures unchanged { IfNone result (self.new ≡ self.old) }
    {
        let Reverse(first) = self.heap.pop()?;
        let content = self.contents.remove(first.slot);
        Some(Entry {
            place: first.place,
            content,
        })
    }
}
