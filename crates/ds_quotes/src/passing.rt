ghost use Rattle.std.specs.Prelude.{◌<◌, ℕ};
ghost use Rattle.ds_quotes.specs.Passing.{IsDownward, IsPassing};

/// A test of numbers.
pub(crate) trait Trial {
    ghost use Rattle.std.specs.Prelude.{◌≡◌, ℕ, Bool};

    // The numbers that it takes.
    ghost takes: { Self → ℕ → Type 0 };

    // What it answers of a number.
    ghost outcome: { Self → ℕ → Bool };

    /// Whether a number passes.
    fn passes(&self, value: u64) -> bool
        requires { takes self.now value }
        ensures { result ≡ outcome self.now value };
}

/// How many numbers below a limit pass a test, where below each one that passes all do: found by halves, so that no more
/// are tested than the limit has binary digits.
pub(crate) fn passing_below<T: Trial>(trial: &T, limit: u64) -> u64
    requires taken { (value : ℕ) → value < limit → T.takes trial.now value }
    requires downward { IsDownward limit (T.outcome trial.now) }
    ensures { IsPassing limit (T.outcome trial.now) result }
{
    let mut passed = 0;
    let mut failed = limit;
    while passed < failed {
        let middle = passed + (failed - passed) / 2;
        if trial.passes(middle) {
            passed = middle + 1;
        } else {
            failed = middle;
        }
    }
    passed
}
