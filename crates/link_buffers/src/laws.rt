//! Laws of flights and of queues. The functions do nothing: their contracts hold at every list of
//! copies or entries.
ghost use Rattle.std.specs.Prelude.{◌≡◌, ◌≤◌, ℕ, false, List, [], ◌∷◌, All, Contains, count_by};
ghost use Rattle.pals_model.specs.declared.flight_copy.FlightCopy.{FlightCopy};
ghost use Rattle.pals_model.specs.Flights.{is_of, oldest, without_oldest};
ghost use Rattle.link_buffers.specs.declared.due_queue.DueEntry.{DueEntry};
ghost use Rattle.link_buffers.specs.proof.FirstAndLeastItems.{IsFirst, least};
ghost use Rattle.link_buffers.specs.proof.DueQueues.{is_entry, with_entry, without_entry};

/// The oldest copy of a round is the first copy in the list with that round. The others are the copies
/// before it and after it. If there is no oldest copy, no copy has that round, and all remain.
pub fn oldest_copy_is_first()
    ensures some { (round : ℕ) (copies : List FlightCopy) (copy : FlightCopy)
        → oldest round copies ≡ Some copy → IsFirst (is_of round) copies copy (without_oldest round copies) }
    ensures none { (round : ℕ) (copies : List FlightCopy) → oldest round copies ≡ None
        → All (λ copy. is_of round copy ≡ false) copies }
    ensures left { (round : ℕ) (copies : List FlightCopy) → oldest round copies ≡ None
        → without_oldest round copies ≡ copies }
{}

/// The least number of a list is in it, and none is less. Only an empty list has none.
pub fn least_is_in_the_list()
    ensures some { (numbers : List ℕ) (n : ℕ) → least numbers ≡ Some n
        → Contains numbers n × All (λ other. n ≤ other) numbers }
    ensures none { (numbers : List ℕ) → least numbers ≡ None → numbers ≡ [] }
{}

/// Adding an entry raises its count by one and changes no other count. Removing an entry lowers its
/// count by one.
pub fn entries_are_counted()
    ensures with { (entry other : DueEntry) (entries : List DueEntry)
        → count_by (is_entry other) (with_entry entry entries) ≡ count_by (is_entry other) (entry ∷ entries) }
    ensures without { (entry other : DueEntry) (entries : List DueEntry)
        → Contains entries entry → count_by (is_entry other) (entry ∷ without_entry entry entries)
        ≡ count_by (is_entry other) entries }
{}
