// Interest accrues by days.
ghost use Rattle.std.specs.Prelude.{◌≡◌, ◌≤◌, ◌+◌, ◌*◌, ◌/◌, ◌%◌};
ghost use Rattle.rates.specs.Rate.{greatest_daily};
ghost use Rattle.account.specs.Accrual.{accrued_days, with_interest};
ghost use Rattle.account.specs.Reckoning.{accrued};
ghost use Rattle.account.specs.Invariant.{Fits};

use crate::ranges::is_account;
use crate::{Account, Cents, Day, Unreckoned};

// So many times the interest of one day, where that and the fraction go over 64 bits: whole cents, and what is below a cent, are multiplied apart.
#[tactic(auto, using(crate::proofs::Bounds::whole_bound, crate::proofs::Bounds::rest_bound, crate::proofs::ClosedForm::apart))]
fn accrue_apart(account: Account, one: u64, n: u64) -> Account
    requires fits { Fits account }
    requires bounds { (one ≤ 1000000000000 * greatest_daily) × (n ≤ 6000) }
    ensures { result ≡ with_interest account (account.due.0 + (one * n + account.fraction) / 10000000000) ((one * n + account.fraction) % 10000000000) }
{
    let rest = account.fraction + n * (one % Account::CENT);
    Account {
        due: Cents(account.due.0 + n * (one / Account::CENT) + rest / Account::CENT),
        fraction: rest % Account::CENT,
        ..account
    }
}

// So many days at one daily rate, at once: the interest of all days and the fraction are divided by 10^10 once, where they fit 64 bits.
#[tactic(auto, using(crate::proofs::Bounds::product_bound, crate::proofs::ClosedForm::together))]
pub fn accrue_days(account: Account, daily: u64, days: Day) -> Account
    requires fits { Fits account }
    // At most 6,000 days is no invariant of `Day`, since every entry takes any numbers.
    requires daily_le_greatest_daily { (daily ≤ greatest_daily) × (days.0 ≤ 6000) }
    ensures { result ≡ accrued_days days.0 daily account }
{
    let one = account.outstanding.0 * daily;
    let n = u64::from(days.0);
    let (units, over) = one.carrying_mul(n, account.fraction);
    if over != 0 {
        return accrue_apart(account, one, n);
    }
    Account {
        due: Cents(account.due.0 + units / Account::CENT),
        fraction: units % Account::CENT,
        ..account
    }
}

// So many days at one daily rate.
#[tactic(auto, using(crate::proofs::RangeTests::account_fits), unfolding(crate::specs::Reckoning::accrued))]
pub fn accrue(account: Account, daily: u64, days: Day) -> Result<Account, Unreckoned>
    ensures { result ≡ accrued account daily days.0 }
{
    if !is_account(account) || Account::DAILY < daily || Account::DAYS < days {
        return Err(Unreckoned::OutOfRange);
    }
    Ok(accrue_days(account, daily, days))
}
