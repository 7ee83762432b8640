//! Collections whose interfaces export no name twice.

ghost use Rattle.wac_merging.specs.Named.{NamesDiffer};

use wac_types_base::Types;

/// No interface here exports a name twice. It looks at each and changes nothing: its contract tells so.
pub fn see_named(types: &Types)
    ensures { NamesDiffer types.now }
{
    for interface in types.interfaces() {
        let _ = interface.exports.len();
    }
}
