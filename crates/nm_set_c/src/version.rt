//! The library's version.
ghost use Rattle.std.specs.Prelude.{◌≡◌};
ghost use Rattle.nm_set_c.specs.Outcomes.{IsCodeOf};

use crate::outcome::Outcome;

/// Its three numbers, as the header of the same library has them.
const MAJOR: u32 = 0;

const MINOR: u32 = 1;

const PATCH: u32 = 0;

/// Writes the version of the library that a program runs with; the header has the version that the
/// program was compiled with. Returns `Done`.
#[unsafe(no_mangle)]
pub extern "C" fn nm_set_version(major: &mut u32, minor: &mut u32, patch: &mut u32) -> i32
    ensures { IsCodeOf (λ o. (o ≡ Outcome.Done) × (major.new ≡ MAJOR) × (minor.new ≡ MINOR)
        × (patch.new ≡ PATCH)) result }
{
    *major = MAJOR;
    *minor = MINOR;
    *patch = PATCH;
    Outcome::Done.code()
}
