//! Insertion and removal at any place of a ring. Only the items between that place and the nearer end move, each by
//! one place.
ghost use Rattle.std.specs.Prelude.{◌≡◌, ◌-◌, ◌<◌, ◌≤◌, [], ◌∷◌, ◌++◌, Some, length, insert, remove, slice_get};
ghost use Rattle.std.specs.Prelude.{slice_index_or};
ghost use Rattle.std.specs.Prelude.{slice_set};
ghost use Rattle.circular_buffer.specs.Buffer.{buffer};

use circular_buffer::HeapCircularBuffer;
use std::mem;

/// The item at a place.
pub fn standing_at<T>(ring: &HeapCircularBuffer<T>, place: usize) -> &T
    requires { place < length ring.now.items }
    ensures { (d : T) → slice_index_or ring.now.items place d ≡ result.now }
{
    match ring.get(place) {
        Some(item) => item,
        None => unreachable!(),
    }
}

/// Removes the item at a place. The order of the others does not change. Only the items between that
/// place and the nearer end move: at most half of the ring.
pub fn take_at<T>(ring: &mut HeapCircularBuffer<T>, place: usize) -> Option<T>
    requires { place < length ring.old.items }
    ensures item { result ≡ slice_get ring.old.items place }
    ensures others { ring.new ≡ buffer (remove ring.old.items place) ring.old.capacity }
{
    let behind = ring.len() - 1 - place;
    if place <= behind {
        take_by_front(ring, place)
    } else {
        take_by_back(ring, behind)
    }
}

// Removes the item that follows `ahead` others, which move on by one place.
fn take_by_front<T>(ring: &mut HeapCircularBuffer<T>, ahead: usize) -> Option<T>
    requires { ahead < length ring.old.items }
    ensures item { result ≡ slice_get ring.old.items ahead }
    ensures others { ring.new ≡ buffer (remove ring.old.items ahead) ring.old.capacity }
{
    let Some(mut held) = ring.pop_front() else {
        unreachable!();
    };
    for place in 0..ahead {
        exchange(ring, place, &mut held);
    }
    Some(held)
}

// Removes the item that precedes `behind` others, which move up by one place.
fn take_by_back<T>(ring: &mut HeapCircularBuffer<T>, behind: usize) -> Option<T>
    requires { behind < length ring.old.items }
    ensures item { let place = length ring.old.items - 1 - behind in result ≡ slice_get ring.old.items place }
    ensures others { let place = length ring.old.items - 1 - behind in ring.new
        ≡ buffer (remove ring.old.items place) ring.old.capacity }
{
    let Some(mut held) = ring.pop_back() else {
        unreachable!();
    };
    let last = ring.len();
    for moved in 0..behind {
        exchange(ring, last - 1 - moved, &mut held);
    }
    Some(held)
}

/// Inserts an item at a place. The order of the others does not change. Only the items between that
/// place and the nearer end move: at most half of the ring.
pub fn put_at<T>(ring: &mut HeapCircularBuffer<T>, place: usize, item: T)
    requires place { place ≤ length ring.old.items }
    requires room { length ring.old.items < ring.old.capacity }
    ensures { ring.new ≡ buffer (insert ring.old.items place item) ring.old.capacity }
{
    if place < ring.len() - place {
        put_by_front(ring, place, item);
    } else {
        put_by_back(ring, place, item);
    }
}

// Inserts an item after `ahead` others, which move up by one place.
fn put_by_front<T>(ring: &mut HeapCircularBuffer<T>, ahead: usize, item: T)
    requires place { ahead ≤ length ring.old.items }
    requires room { length ring.old.items < ring.old.capacity }
    ensures { ring.new ≡ buffer (insert ring.old.items ahead item) ring.old.capacity }
{
    let mut held = item;
    for moved in 0..ahead {
        exchange(ring, ahead - 1 - moved, &mut held);
    }
    match ring.try_push_front(held) {
        Ok(()) => {}
        Err(_refused) => unreachable!(),
    }
}

// Inserts an item at a place. The items from that place on move on by one place.
fn put_by_back<T>(ring: &mut HeapCircularBuffer<T>, place: usize, item: T)
    requires place { place ≤ length ring.old.items }
    requires room { length ring.old.items < ring.old.capacity }
    ensures { ring.new ≡ buffer (insert ring.old.items place item) ring.old.capacity }
{
    let mut held = item;
    for moved in place..ring.len() {
        exchange(ring, moved, &mut held);
    }
    match ring.try_push_back(held) {
        Ok(()) => {}
        Err(_refused) => unreachable!(),
    }
}

/// Adds an item at the end.
pub fn put_last<T>(ring: &mut HeapCircularBuffer<T>, item: T)
    requires { length ring.old.items < ring.old.capacity }
    ensures { ring.new ≡ buffer (ring.old.items ++ item ∷ []) ring.old.capacity }
{
    match ring.try_push_back(item) {
        Ok(()) => {}
        Err(_refused) => unreachable!(),
    }
}

// Exchanges the item at a place for another.
fn exchange<T>(ring: &mut HeapCircularBuffer<T>, place: usize, held: &mut T)
    requires { place < length ring.old.items }
    ensures ring { ring.new ≡ buffer (slice_set ring.old.items place held.old) ring.old.capacity }
    ensures held { slice_get ring.old.items place ≡ Some held.new }
{
    match ring.get_mut(place) {
        Some(item) => mem::swap(item, held),
        None => unreachable!(),
    }
}
