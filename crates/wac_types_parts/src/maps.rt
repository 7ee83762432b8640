//! Maps by name.

ghost use Rattle.std.specs.Prelude.{◌≡◌, OnOk};
ghost use Rattle.wac_types_base.specs.Entries.{put_entry};

use std::alloc::{AllocError, Global};
use wac_types_base::NamedMap;

/// Puts a value under a name, which is copied.
pub fn insert_under<T: Drop>(
    alloc: Global,
    map: &mut NamedMap<T>,
    name: &str,
    value: T,
) -> Result<(), AllocError>
    ensures { OnOk result (map.new ≡ put_entry map.old name.now value) }
{
    let name = String::from_str(alloc, name)?;
    let _ = map.insert(name, value)?;
    Ok(())
}
