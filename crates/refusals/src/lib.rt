// What every refusal has: document 01's number.

#![tactic(auto)]

ghost use Rattle.std.specs.Prelude.{◌≡◌, ◌<◌, ℕ};
ghost use Rattle.refusals.specs.Number.{number_of};

// A refusal of one kind alone is a struct without fields in the crate that refuses, and not one type over all numbers: its name says what is refused.
pub trait Numbered: Copy {
    ghost number: { Self → ℕ };

    // The refusal's number.
    fn number(self) -> u8
        ensures { result ≡ number self };

    // 0 says that nothing was refused.
    ghost positive: { (why : Self) → 0 < number why };
}

// The number of an answer: its refusal's, 0 where nothing was refused.
pub fn number_of<T, E: Numbered>(answer: &Result<T, E>) -> u8
    ensures { result ≡ number_of E.number answer.now }
{
    match answer {
        Ok(_) => 0,
        Err(why) => why.number(),
    }
}
