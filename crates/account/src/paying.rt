// A settlement pays interest first.
ghost use Rattle.std.specs.Prelude.{◌≡◌, ◌≤◌, min};
ghost use Rattle.account.specs.Accrual.{paid_off, worth};
ghost use Rattle.account.specs.Invariant.{Fits};
ghost use Rattle.account.specs.Reckoning.{paid};

use crate::ranges::is_account;
use crate::{Account, Cents, Unreckoned};

// What a settlement takes as interest, of so much that is due.
pub fn interest_of(cents: Cents, due: Cents) -> Cents
    ensures { result.0 ≡ min cents.0 due.0 }
{
    cents.min(due)
}

// A settlement that is not over due plus outstanding.
#[tactic(auto, unfolding(crate::specs::Accrual::paid_off))]
pub fn pay_off(account: Account, cents: Cents) -> Account
    requires fits { Fits account }
    requires cents_bound { cents.0 ≤ worth account }
    ensures { result ≡ paid_off cents.0 account }
{
    let interest = interest_of(cents, account.due);
    let principal = cents.0 - interest.0;
    Account {
        outstanding: Cents(account.outstanding.0 - principal),
        due: Cents(account.due.0 - interest.0),
        principal_paid: Cents(account.principal_paid.0 + principal),
        interest_paid: Cents(account.interest_paid.0 + interest.0),
        ..account
    }
}

#[tactic(auto, using(crate::proofs::RangeTests::account_fits), unfolding(crate::specs::Reckoning::paid))]
pub fn pay(account: Account, cents: Cents) -> Result<Account, Unreckoned>
    ensures { result ≡ paid account cents.0 }
{
    if !is_account(account) {
        return Err(Unreckoned::OutOfRange);
    }
    if account.worth() < cents {
        return Err(Unreckoned::Overpaid);
    }
    Ok(pay_off(account, cents))
}
