//! A map that is closed, and the values that are left in it, proved from the clauses of `nm_set`.
ghost use Rattle.std.specs.Prelude.{IfSome};
ghost use Rattle.nm_callers.specs.Returning.{IsLeftIn};

use nm_edge::Key;
use nm_set::Map;

/// Closes a map, and returns the least key that is left, with its value. `None`: the map was not
/// closed, or it has no key. Proved: otherwise the map has the key with that value after the turns of
/// the close.
pub fn close_for_least(map: Map) -> Option<(Key, u64)>
    ensures { IfSome result (λ e. IsLeftIn map e.0 e.1) }
{
    let Ok(left) = map.close() else {
        return None;
    };
    let key = *left.report.keys.first()?;
    let value = left.values.of_key(0)?;
    Some((key, value))
}
