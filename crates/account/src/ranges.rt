// Numbers within which the arithmetic of an account fits 64 bits.
ghost use Rattle.std.specs.Prelude.{◌≡◌};
ghost use Rattle.account.specs.Ranges.{is_account, is_first, is_next, is_rising};

use crate::{Account, Day, RateOrder};

#[tactic(auto, unfolding(crate::specs::Ranges::is_account))]
pub fn is_account(account: Account) -> bool
    ensures { result ≡ is_account account }
{
    account.outstanding <= Account::CENTS
        && account.due <= Account::CENTS
        && account.fraction < Account::CENT
        && account.principal_paid <= Account::CENTS
        && account.interest_paid <= Account::CENTS
}

// Whether an order may be the first: it holds from day 0 on, at a daily rate that is not too great.
pub fn is_first(order: &RateOrder) -> bool
    ensures { result ≡ is_first order.now }
{
    order.first == Day(0) && order.daily <= Account::DAILY
}

// Whether an order may stand behind another: it begins later, at a daily rate that is not too great.
pub fn is_next(order: &RateOrder, later: &RateOrder) -> bool
    ensures { result ≡ is_next order.now.first.0 later.now }
{
    order.first < later.first && later.daily <= Account::DAILY
}

// Whether each order may stand behind the one before it.
#[tactic(auto, unfolding(crate::specs::Ranges::is_rising))]
pub fn are_rising(order: &RateOrder, later: &[RateOrder]) -> bool
    ensures { result ≡ is_rising order.now.first.0 later.now }
{
    let mut before = order;
    for next in later {
        if !is_next(before, next) {
            return false;
        }
        before = next;
    }
    true
}
