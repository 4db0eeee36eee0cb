//! Gates, which let a worker play its next line or stop it.
ghost use Rattle.std.specs.Prelude.{◌≡◌, ℕ, false, true};

/// Each worker asks the gate before each of its lines; a line is played only if the gate lets the
/// worker play it. No clause says how often the gate is asked for a line.
pub trait Gate: Sync {
    /// What the gate knows of a worker that it lets play the line of that number.
    ghost lets: { Self → ℕ → ℕ → Type 0 };

    /// What the gate knows of a worker that it stops before that line.
    ghost stops: { Self → ℕ → ℕ → Type 0 };

    /// Lets the worker play its line, or stops it there. Lines are numbered in the file from 1.
    fn turn(&self, worker: u32, line: u32) -> bool
        ensures lets { result ≡ true → Self.lets self.now worker line }
        ensures stops { result ≡ false → Self.stops self.now worker line };
}
