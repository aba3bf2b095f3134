//! Binary search in a ring: the place of the first item that fails a test.
ghost use Rattle.std.specs.Prelude.{◌≤◌, Bool, length};
ghost use Rattle.std.specs.List.Sorted.{IsPartitionedBy};
ghost use Rattle.link_buffers.specs.proof.BinarySearch.{IsTest, IsFirstToFail};

use crate::ring_insertion_and_removal::standing_at;
use circular_buffer::HeapCircularBuffer;

/// The place of the first item that fails a test, or the ring's length. An item that follows a failing
/// one must fail too. Of 50,000 items it reads 16.
pub fn partition_point<T, P: Fn(&T) -> bool>(ring: &HeapCircularBuffer<T>, pred: P) -> usize
    requires { P.IsAlwaysCallable pred }
    ensures bound { result ≤ length ring.now.items }
    ensures parts { (p : T → Bool) → IsTest P.Fn pred p → IsPartitionedBy p ring.now.items
        → IsFirstToFail p ring.now.items result }
{
    let mut low = 0;
    let mut high = ring.len();
    while low < high {
        let middle = low + (high - low) / 2;
        if pred(standing_at(ring, middle)) {
            low = middle + 1;
        } else {
            high = middle;
        }
    }
    low
}
