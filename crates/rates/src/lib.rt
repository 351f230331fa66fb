// The daily rate of an annual rate (document 01, "Daily rate"; document 02, Req 02), from a table whose rule is proved of every entry.
#![tactic(auto)]

mod table;

ghost use Rattle.std.specs.Prelude.{◌≡◌};
ghost use Rattle.rates.specs.Rate.{rate_number, rate_of, rate_stated};
ghost use Rattle.rates.specs.Laws.{Laws};
ghost use Rattle.rates.specs.Examples.{Examples};

use crate::table::DAILY;
use answers::Numbered;

// The greatest annual rate, in thousandths of a percent.
pub const GREATEST: u64 = 4000;

// The daily rate of the greatest annual rate, in units of 1/10^10.
pub const GREATEST_DAILY: u64 = 1074598;

// The number of an annual rate over the greatest.
pub const OVER: u32 = 6;

// The refusal of an annual rate over the greatest.
#[derive(Clone, Copy, Debug, PartialEq, Eq)]
pub struct OverGreatest;

impl Numbered for OverGreatest {
    ghost number = { λ _. rate_number };

    fn number(self) -> u32 {
        OVER
    }
}

// The daily rate of an annual one, in units of 1/10^10.
#[tactic(auto, unfolding(crate::specs::Rate::rate_of))]
pub fn daily_rate(annual: u64) -> Result<u64, OverGreatest>
    ensures { rate_stated result ≡ rate_of annual }
{
    if GREATEST < annual {
        return Err(OverGreatest);
    }
    Ok(u64::from(DAILY[annual as usize]))
}

// What callers may rely on of daily rates, and the worked examples of the papers that speak of them alone. It does nothing.
#[tactic(auto, using(crate::proofs::Laws::laws, crate::proofs::Examples::examples))]
pub fn theorems()
    ensures { Laws × Examples }
{}
