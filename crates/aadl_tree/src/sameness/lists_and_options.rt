//! Whether two lists, options or boxes have the same meaning, item by item.
ghost use Rattle.std.specs.Prelude.{◌≡◌, ◌↔◌, IsTrue, map, option_map};

use super::same_meaning::Same;

impl<T: Same> Same for Box<T> {
    ghost use Rattle.std.specs.Prelude.{Box};
    ghost use Rattle.std.specs.declared.alloc.Global.{Global};

    ghost Meaning = { T.Meaning };

    ghost meaning = { λ boxed. T.meaning boxed.value };

    fn same(&self, other: &Box<T>) -> bool {
        (**self).same(&**other)
    }
}

/// Returns whether two lists have items with the same meaning in the same order.
pub fn same_items<T: Same>(left: &[T], right: &[T]) -> bool
    ensures { IsTrue result ↔ (map T.meaning left.now ≡ map T.meaning right.now) }
{
    if left.len() != right.len() {
        return false;
    }
    for at in 0..left.len() {
        if !left[at].same(&right[at]) {
            return false;
        }
    }
    true
}

/// Returns whether two optional values have the same meaning.
pub fn same_option<T: Same>(left: &Option<T>, right: &Option<T>) -> bool
    ensures { IsTrue result ↔ (option_map T.meaning left.now ≡ option_map T.meaning right.now) }
{
    match (left, right) {
        (None, None) => true,
        (Some(left), Some(right)) => left.same(right),
        _ => false,
    }
}
