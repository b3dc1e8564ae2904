//! The type `FirstNames`: a map from each name in a list to the first index at which it stands.

ghost use Rattle.std.specs.Prelude.{◌≡◌, ℕ, List, [], ◌∷◌, ◌++◌, length, Option, Some, OnOk};
ghost use Rattle.cool_classes.specs.FirstNames.{first_index, is_index, shown_names, FindsFirst};

use indexmap::IndexMap;
use std::alloc::{AllocError, Global};

/// Each name with its first index, from 0.
pub(crate) type FirstNames = IndexMap<Vec<u8>, u32>;

/// The first index of a name.
pub(crate) fn first_index(names: &FirstNames, name: &[u8]) -> Option<u32>
    ensures { (row : List (Option (List ℕ))) → FindsFirst (shown_names names.now.entries) row → result ≡ first_index 0 row name.now }
{
    names.get(name).copied()
}

/// Whether a name stands first at this index.
pub(crate) fn is_first_at(names: &FirstNames, name: &[u8], index: u32) -> bool
    ensures { (row : List (Option (List ℕ))) → FindsFirst (shown_names names.now.entries) row → result ≡ is_index index (first_index 0 row name.now) }
{
    match first_index(names, name) {
        Some(first) => first == index,
        None => false,
    }
}

/// Notes the name at the next index, unless it stands at an earlier one. Returns `Err` only if memory runs out.
pub(crate) fn add_name(
    alloc: Global,
    names: &mut FirstNames,
    name: &[u8],
    index: u32,
) -> Result<(), AllocError>
    ensures { OnOk result ((row : List (Option (List ℕ))) → index ≡ length row → FindsFirst (shown_names names.old.entries) row → FindsFirst (shown_names names.new.entries) (row ++ Some name.now ∷ [])) }
{
    if names.get(name).is_some() {
        return Ok(());
    }
    names.insert(Vec::from_slice(alloc, name)?, index)?;
    Ok(())
}
