// The account that rates and settlements lead to, from the opening on.
ghost use Rattle.std.specs.Prelude.{◌≡◌, ◌≤◌, false};
ghost use Rattle.account.specs.Reckoning.{replayed};
ghost use Rattle.account.specs.Walked.{left_of};

use crate::ranges::{are_rising, is_first};
use crate::walking::Elapsed;
use crate::{Account, Cents, Day, RateOrder, Settlement, Unreckoned};

// From a day to today, settlement by settlement: the cost follows settlements and rates, not days. Each settlement and each order is tested as the walk
// comes to it, the orders behind today at its end. A settlement that is over is not paid and the walk goes on, as numbers out of range are told first.
#[tactic(auto, using(crate::proofs::RangeTests::not_later, crate::proofs::RangeTests::after_today, crate::proofs::Replays::unordered, crate::proofs::Replays::untimely))]
fn replay_from(
    start: Elapsed,
    settlements: &[Settlement],
    today: Day,
) -> Result<Account, Unreckoned>
    // At most 6,000 days is no invariant of `Day`, since every entry takes any numbers.
    requires { (start.day.0 ≤ today.0) × (today.0 ≤ 6000) }
    ensures { result ≡ left_of false start.entry settlements.now today.0 }
{
    let mut walk = start;
    let mut outcome = Ok(());
    for settlement in settlements {
        if settlement.day <= walk.day || today < settlement.day {
            return Err(Unreckoned::OutOfRange);
        }
        walk = walk.elapse(settlement.day)?;
        if walk.account.worth() < settlement.cents {
            outcome = Err(Unreckoned::Overpaid);
        } else {
            walk = walk.pay(settlement.cents);
        }
    }
    let last = walk.elapse(today)?;
    if !are_rising(last.order, last.later) {
        return Err(Unreckoned::OutOfRange);
    }
    outcome?;
    Ok(last.account)
}

#[tactic(auto, using(crate::proofs::Replays::left_all, crate::proofs::Bounds::bounds_begin), unfolding(crate::specs::Ranges::is_schedule, crate::specs::Reckoning::replayed))]
pub fn replay(
    recognised: Cents,
    rates: &[RateOrder],
    settlements: &[Settlement],
    today: Day,
) -> Result<Account, Unreckoned>
    ensures { result ≡ replayed recognised.0 rates.now settlements.now today.0 }
{
    if Account::CENTS < recognised
        || Account::DAYS < today
        || Account::RATES < rates.len()
        || Account::SETTLEMENTS < settlements.len()
    {
        return Err(Unreckoned::OutOfRange);
    }
    let (order, later) = rates.split_first().ok_or(Unreckoned::OutOfRange)?;
    if !is_first(order) {
        return Err(Unreckoned::OutOfRange);
    }
    let start = Elapsed {
        account: Account::opening(recognised),
        day: Day(0),
        order,
        later,
    };
    replay_from(start, settlements, today)
}
