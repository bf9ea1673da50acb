// The search for the lowest place, and for the highest, at which a test holds.
#![tactic(auto)]

ghost use Rattle.std.specs.Prelude.{◌≡◌, ◌<◌, ℕ, Bool};
ghost use Rattle.definitions.specs.Outcome.{lowest};
ghost use Rattle.search.specs.Highest.{highest};

// The lowest place below the count at which a test holds: a closure, asked about the places from 0 on, up to the first where it does.
pub fn lowest<F: Fn(usize) -> bool>(count: usize, test: F) -> Option<usize>
    requires { (k : ℕ) → k < count → F.pre test k }
    ensures { (is : ℕ → Bool) → ((k : ℕ) (r : Bool) → k < count → F.post test k r → r ≡ is k) → result ≡ lowest is count }
{
    (0..count).find(
        |&k|
            requires { F.pre test k }
        { test(k) },
    )
}

// The highest place below the count at which a test holds: a closure, asked about the places from the last one down, up to the first where
// it does.
pub fn highest<F: Fn(usize) -> bool>(count: usize, test: F) -> Option<usize>
    requires { (k : ℕ) → k < count → F.pre test k }
    ensures { (is : ℕ → Bool) → ((k : ℕ) (r : Bool) → k < count → F.post test k r → r ≡ is k) → result ≡ highest is count }
{
    (0..count).rfind(
        |&i|
            requires { F.pre test i }
        { test(i) },
    )
}
