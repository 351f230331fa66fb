// Answers and the numbers of their refusals in document 01's table.
#![tactic(auto)]

ghost use Rattle.std.specs.Prelude.{◌≡◌, ℕ};
ghost use Rattle.answers.specs.Answers.{number_in};

// A reason of refusal, with its number in the table. One that stands alone is a unit struct: its name tells more in a signature than a number would.
pub trait Numbered {
    ghost number: { Self → ℕ };

    fn number(self) -> u32
        ensures { result ≡ number self };
}

// An answer's number: 0 where it is accepted, else the refusal's.
pub fn number_of<T: Drop, E: Numbered>(answer: Result<T, E>) -> u32
    ensures { result ≡ number_in E.number answer }
{
    answer.err().map_or(0, E::number)
}
