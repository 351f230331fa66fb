// The account of a right (document 01, "Advance", "Settle" and "Rate"): interest accrues by days, a settlement pays interest first, and
// rates and settlements lead to the account of a day. Every entry takes any numbers, and those that reckon
// answer `OutOfRange` where they are no account.
#![tactic(auto)]

ghost use Rattle.std.specs.Prelude.{◌≡◌};
ghost use Rattle.account.specs.Accrual.{worth};
ghost use Rattle.account.specs.Invariant.{Fits};
ghost use Rattle.account.specs.Opening.{opening};

mod accrual;
mod paying;
mod ranges;
mod replaying;
mod walking;

pub use crate::accrual::accrue;
pub use crate::paying::{interest_of, pay};
pub use crate::replaying::replay;

// Money, in whole cents.
#[derive(Clone, Copy, Default, PartialEq, Eq, PartialOrd, Ord)]
pub struct Cents(pub u64);

// A day of the right, counted from its first day, day 0; or a count of days.
#[derive(Clone, Copy, Default, PartialEq, Eq, PartialOrd, Ord)]
pub struct Day(pub u32);

#[derive(Clone, Copy, Default)]
pub struct Settlement {
    pub day: Day,
    pub cents: Cents,
}

// An annual rate, in thousandths of a percent, from its first day on; and its daily rate, in units of 1/10^10, which follows from it.
#[derive(Clone, Copy, Default)]
pub struct RateOrder {
    pub first: Day,
    pub annual: u64,
    pub daily: u64,
}

// The money of a right: the fraction of a cent of interest due is in units of 1/10^10.
#[derive(Clone, Copy, Default)]
pub struct Account {
    pub outstanding: Cents,
    pub due: Cents,
    pub fraction: u64,
    pub principal_paid: Cents,
    pub interest_paid: Cents,
}

impl Account {
    // The most settlements and rate orders that an account is worked out from.
    pub const SETTLEMENTS: usize = 240;

    pub const RATES: usize = 16;

    // Units of interest in a cent.
    pub const CENT: u64 = 10000000000;

    // The most cents of each figure, the greatest daily rate, and the last day.
    pub const CENTS: Cents = Cents(1000000000000);

    pub const DAILY: u64 = rates::GREATEST_DAILY;

    pub const DAYS: Day = Day(6000);

    // The account of a right as it opens: everything is outstanding.
    #[tactic(auto, unfolding(crate::specs::Opening::opening))]
    pub fn opening(cents: Cents) -> Account
        ensures { result ≡ opening cents.0 }
    {
        Account {
            outstanding: cents,
            ..Account::default()
        }
    }

    // Due plus outstanding: no settlement may be over it.
    fn worth(self) -> Cents
        requires fits { Fits self }
        ensures { result.0 ≡ worth self }
    {
        Cents(self.due.0 + self.outstanding.0)
    }
}

// Why there is no account: a settlement is over due plus outstanding; or the numbers given are no account, rate or day of one.
#[derive(Clone, Copy, Debug, PartialEq, Eq)]
pub enum Unreckoned {
    Overpaid,
    OutOfRange,
}
