//! Laws of maps whose values are replaced.
ghost use Rattle.nm_puts.specs.Replaced.{ReplacedValuesHavePuts};

/// Law: in every ordered run, if a call has replaced a value, each history of the map has its put. The
/// put is of this call. It finds the value that the call returns, in the old leaf, and leaves the value
/// that the call stored for the new leaf.
pub fn replaced_values_have_puts()
    ensures { ReplacedValuesHavePuts }
{}
