// The daily rate that is stored beside an annual one.
ghost use Rattle.std.specs.Prelude.{◌≡◌};
ghost use Rattle.rates.specs.Rate.{rate_of};

// The daily rate of an annual rate, 0 where it is over the greatest.
pub fn daily_rate(annual: u64) -> u64
    ensures { result ≡ (rate_of annual).1 }
{
    rates::daily_rate(annual).unwrap_or(0)
}
