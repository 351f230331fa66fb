// Day counts of dates.
ghost use Rattle.std.specs.Prelude.{◌≡◌};
ghost use Rattle.calendar.specs.Answers.{count_of};

// The day count of a date, 0 where it is none: of a first day, which is one, so that no caller has to show it.
#[tactic(auto, unfolding(calendar::specs::Answers::count_of))]
pub fn count_of(date: u32) -> u32
    ensures { result ≡ (count_of date).1 }
{
    calendar::day_count(date).unwrap_or(0)
}
