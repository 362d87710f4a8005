//! The maps of an index, which all have its keys.
ghost use Rattle.std.specs.Prelude.{◌≡◌, List, false, IfSome, OnOk};
ghost use Rattle.std.specs.List.{All};
ghost use Rattle.mq_dim_index.specs.Maps.{MapsKeys};
ghost use Rattle.mq_dim_index.specs.Places.{Tuple, is_there, with_key, without_key};

use crate::dimension_map::DimensionMap;
use mq_values::{DimTest, Key, Memory};

/// Whether one of these is the map of this dimension.
pub fn is_mapped(maps: &[DimensionMap], dimension: usize) -> bool {
    for map in maps {
        if map.is_of(dimension) {
            return true;
        }
    }
    false
}

/// Puts a key that is new into each map. Where there is no memory for it the maps are dropped: without them a range only
/// takes longer.
pub fn add_to_maps(maps: &mut Vec<DimensionMap>, key: &Key)
    ensures { (keys : List Tuple) →
        All (MapsKeys keys) maps.old.items → is_there keys key.now ≡ false → All (MapsKeys (with_key keys key.now)) maps.new.items }
{
    if add_to_each(maps.as_mut_slice(), key).is_err() {
        maps.clear();
    }
}

// Puts a key that is new into each map.
fn add_to_each(maps: &mut [DimensionMap], key: &Key) -> Result<(), Memory>
    ensures { (keys : List Tuple) →
        All (MapsKeys keys) maps.old → is_there keys key.now ≡ false → OnOk result (All (MapsKeys (with_key keys key.now)) maps.new) }
{
    for map in maps.iter_mut() {
        map.insert(key)?;
    }
    Ok(())
}

/// Takes a key away from each map.
pub fn take_from_maps(maps: &mut Vec<DimensionMap>, key: &Key)
    ensures { (keys : List Tuple) → All (MapsKeys keys) maps.old.items → All (MapsKeys (without_key keys key.now)) maps.new.items }
{
    take_from_each(maps.as_mut_slice(), key);
}

// The same.
fn take_from_each(maps: &mut [DimensionMap], key: &Key)
    ensures { (keys : List Tuple) → All (MapsKeys keys) maps.old → All (MapsKeys (without_key keys key.now)) maps.new }
{
    for map in maps.iter_mut() {
        map.remove(key);
    }
}

/// The map whose dimension's test leaves the fewest keys, where these are fewer than `most`.
pub fn shortest_map<'a>(
    maps: &'a [DimensionMap],
    tests: &[DimTest],
    most: usize,
) -> Option<&'a DimensionMap>
    ensures { (keys : List Tuple) → All (MapsKeys keys) maps.now → IfSome result (λ found. MapsKeys keys found.now) }
{
    let mut fewest = most;
    let mut found = None;
    for map in maps {
        let count = map.count(tests, fewest);
        if count < fewest {
            fewest = count;
            found = Some(map);
        }
    }
    found
}
