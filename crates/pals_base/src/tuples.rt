//! Tuples: the values of a port over the steps of a round.
ghost use Rattle.std.specs.Prelude.{◌≡◌, IfOk, replicate, slice_index_or};
ghost use Rattle.pals_base.specs.declared.basic_types.PortValue.TheVariants.{Absent};
ghost use Rattle.pals_base.specs.Tuples.{column, cut};

use crate::basic_types::{NoMemory, PortValue};
use crate::item_list::ItemList;
use std::alloc::Global;

/// The values of a port over the steps of a round.
pub type Tuple = ItemList<PortValue>;

/// Returns the value at an index, or `Absent` past the end.
pub fn place(tuple: &[PortValue], at: usize) -> PortValue
    ensures { result ≡ slice_index_or tuple.now at Absent }
{
    if at < tuple.len() {
        tuple[at]
    } else {
        PortValue::Absent
    }
}

/// Returns a tuple of absent values. Errors: out of memory.
pub fn absent(alloc: Global, places: usize) -> Result<Tuple, NoMemory>
    ensures { IfOk result (λ tuple. tuple ≡ replicate places Absent) }
{
    Ok(ItemList::from_vec(vec![in alloc; PortValue::Absent; places]?))
}

/// Returns a copy of a tuple in which all values after the first `count` are absent. Errors: out of memory.
pub fn cut(alloc: Global, count: usize, tuple: &[PortValue]) -> Result<Tuple, NoMemory>
    ensures { IfOk result (λ t. t ≡ cut count tuple.now) }
{
    if count >= tuple.len() {
        return ItemList::from_slice(alloc, tuple);
    }
    let mut places = Vec::from_slice(alloc, &tuple[..count])?;
    let late: Vec<PortValue> = vec![in alloc; PortValue::Absent; tuple.len() - count]?;
    places.extend_from_slice(late.as_slice())?;
    Ok(ItemList::from_vec(places))
}

/// Returns the value at an index of each tuple. Errors: out of memory.
pub fn column(alloc: Global, at: usize, tuples: &[Tuple]) -> Result<Tuple, NoMemory>
    ensures { IfOk result (λ c. c ≡ column at tuples.now) }
{
    let mut places = ItemList::new(alloc);
    for tuple in tuples {
        places.push(place(tuple.as_slice(), at))?;
    }
    Ok(places)
}
