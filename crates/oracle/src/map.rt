//! An ordered map, changed at one key.
ghost use Rattle.std.specs.Prelude.{◌≡◌, OnOk, OnErr};
ghost use Rattle.model.specs.Maps.{put, store};

use std::collections::BTreeMap;
use values::NoMemory;

/// Puts the value at the key.
pub(crate) fn put<K: Ord + Drop, V: Drop>(
    map: &mut BTreeMap<K, V>,
    key: K,
    value: V,
) -> Result<(), NoMemory>
    ensures ok { OnOk result (map.new.entries ≡ put K.cmp key value map.old.entries) }
    ensures err { OnErr result (map.new.entries ≡ map.old.entries) }
{
    map.insert(key, value)?;
    Ok(())
}

/// Puts the value at the key, or takes out what is there.
pub(crate) fn store<K: Ord + Drop, V: Drop>(
    map: &mut BTreeMap<K, V>,
    key: K,
    value: Option<V>,
) -> Result<(), NoMemory>
    ensures ok { OnOk result (map.new.entries ≡ store K.cmp key value map.old.entries) }
    ensures err { OnErr result (map.new.entries ≡ map.old.entries) }
{
    // The length of a map comes with the fact that its keys ascend.
    let _len = map.len();
    match value {
        Some(value) => put(map, key, value)?,
        None => {
            map.remove(&key);
        }
    }
    Ok(())
}
