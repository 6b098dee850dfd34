//! A list for each member of a group.

ghost use Rattle.std.specs.Prelude.{◌≡◌, ◌<◌, [], ◌∷◌, ◌++◌, length, replicate, slice_set, IfOk, OnOk, OnErr};
ghost use Rattle.cb_causality.specs.Lists.{contents, lists_in};

use cb_times::NoMemory;
use std::alloc::Global;

/// That many empty lists.
pub fn empty_lists<T: Drop>(alloc: Global, size: usize) -> Result<Vec<Vec<T>>, NoMemory>
    ensures { IfOk result (λ lists. contents lists.items ≡ replicate size []) }
{
    let mut lists = Vec::new(alloc);
    for _ in 0..size {
        lists.push(Vec::new(alloc))?;
    }
    Ok(lists)
}

/// Puts an item at the end of one of the lists.
pub fn append<T: Drop>(lists: &mut Vec<Vec<T>>, at: usize, item: T) -> Result<(), NoMemory>
    requires { at < length lists.old.items }
    ensures ok { OnOk result (let before = contents lists.old.items in
        contents lists.new.items ≡ slice_set before at (lists_in before at ++ item ∷ [])) }
    ensures err { OnErr result (contents lists.new.items ≡ contents lists.old.items) }
{
    let list = &mut lists[at];
    list.push(item)?;
    Ok(())
}

/// One of the lists.
pub fn list_of<T>(lists: &[Vec<T>], at: usize) -> &[T]
    requires { at < length lists.now }
    ensures { result.now ≡ lists_in (contents lists.now) at }
{
    lists[at].as_slice()
}
