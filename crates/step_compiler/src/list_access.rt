//! ItemList of lists at places that may be past their end.
ghost use Rattle.std.specs.Prelude.{◌≡◌, slice_index_or, slice_set, true};

/// The item at a place of a list, or another one past its end.
pub fn item_at<T: Copy>(items: &[T], at: usize, none: T) -> T
    ensures { result ≡ slice_index_or items.now at none }
{
    if at < items.len() { items[at] } else { none }
}

/// Sets the mark at a place of a list. Past its end nothing happens.
pub fn mark(marks: &mut [bool], at: usize)
    ensures { marks.new ≡ slice_set marks.old at true }
{
    if at < marks.len() {
        marks[at] = true;
    }
}
