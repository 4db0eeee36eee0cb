//! One atomic step on a word in the memory of C.
ghost use Rattle.std.specs.Prelude.{◌≡◌};

use std::marker::Brand;
use std::sync::atomic::Ordering::SeqCst;
use std::sync::atomic::raw;

/// Writes a number, and returns the one that was there, by one sequentially consistent exchange. So
/// if two threads do it at once, the second finds what the first has written.
pub(crate) fn swap(word: &mut u64, new: u64) -> u64
    ensures { (result ≡ word.old) × (word.new ≡ new) }
{
    unsafe { raw::swap::<Brand>(&raw const *word, new, SeqCst) }
}
