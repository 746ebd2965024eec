//! Words with a bit for each priority.

ghost use Rattle.std.specs.Prelude.{◌≡◌, ℕ, ◌<◌, ◌==◌, if◌then◌else◌};
ghost use Rattle.std.specs.Int.{bit_at};
ghost use Rattle.osqueue.specs.declared.ready.TheConstants.{PRIORITIES};

/// Whether the priority's bit is set.
pub fn is_marked(word: u32, priority: u8) -> bool
    requires { priority < PRIORITIES }
    ensures { bit_at word priority ≡ (if result then 1 else 0) }
{
    (word >> u32::from(priority)) & 1 == 1
}

/// The word with the priority's bit set.
pub fn marked(word: u32, priority: u8) -> u32
    requires { priority < PRIORITIES }
    ensures { (q : ℕ) → bit_at result q ≡ (if q == priority then 1 else bit_at word q) }
{
    word | (1 << u32::from(priority))
}

/// The word without the priority's bit.
pub fn unmarked(word: u32, priority: u8) -> u32
    requires { priority < PRIORITIES }
    ensures bits { (q : ℕ) → bit_at result q ≡ (if q == priority then 0 else bit_at word q) }
    ensures fewer { bit_at word priority ≡ 1 → result < word }
{
    word & !(1 << u32::from(priority))
}

/// The greatest priority whose bit is set.
pub fn greatest(word: u32) -> u8
    requires { 0 < word }
    ensures marked { bit_at word result ≡ 1 }
    ensures above { (q : ℕ) → result < q → bit_at word q ≡ 0 }
    ensures within { result < PRIORITIES }
{
    word.ilog2() as u8
}
