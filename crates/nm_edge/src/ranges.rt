//! The ranges of a radix tree.
ghost use Rattle.std.specs.Prelude.{◌≡◌, ◌≢◌};
ghost use Rattle.nm_edge.specs.Ranges.{IsParting, covers};

/// Returns whether a key is in the range of a router: the two differ only in bits up to the
/// router's lowest one.
pub fn covers(router: u64, key: u64) -> bool
    ensures { result ≡ covers router key }
{
    (key ^ router) / 2 < (router & router.wrapping_neg())
}

/// Returns the router between two keys: the greater key, with all bits cleared below the highest
/// bit in which the keys differ.
pub fn parting(key: u64, other: u64) -> u64
    requires { key ≢ other }
    ensures { IsParting key other result }
{
    let below = 63 - (key ^ other).leading_zeros();
    let greater = if key < other { other } else { key };
    greater >> below << below
}
