// A walk through the days, order by order: the cost is the number of orders, not of days.
ghost use Rattle.std.specs.Prelude.{◌≡◌, ◌≤◌, ◌<◌, ◌+◌, ◌-◌, false, length};
ghost use Rattle.std.specs.Result.{IfOk, IfErr};
ghost use Rattle.rates.specs.Rate.{greatest_daily};
ghost use Rattle.account.specs.Accrual.{accrued_days, paid_off, worth};
ghost use Rattle.account.specs.Invariant.{Bounded};
ghost use Rattle.account.specs.Ranges.{is_rising};
ghost use Rattle.account.specs.Walk.{Next};
ghost use Rattle.account.specs.declared.Unreckoned.TheVariants.{OutOfRange};

use crate::accrual::accrue_days;
use crate::paying::pay_off;
use crate::ranges::is_next;
use crate::{Account, Cents, Day, RateOrder, Unreckoned};

// How far a walk has come: the account as a day begins, the order at hand, and those behind it. The day and the figures are in range, the order has begun
// and is not too high, and the next one has not begun.
#[derive(Clone, Copy)]
pub struct Elapsed<'a> {
    pub account: Account,
    pub day: Day,
    pub order: &'a RateOrder,
    pub later: &'a [RateOrder],
    pub ghost in_range: { day.0 ≤ 6000 },
    pub ghost bounded: { Bounded day.0 account },
    pub ghost begun: { order.now.first.0 ≤ day.0 },
    pub ghost low: { order.now.daily ≤ greatest_daily },
    pub ghost next: { Next order.now.first.0 day.0 later.now },
}

impl<'a> Elapsed<'a> {
    ghost use Rattle.account.specs.Walked.{Went};

    // The account as `day` begins, after days at the rate of the order at hand.
    fn account_on(self, day: Day) -> Account
        // At most 6,000 days is no invariant of `Day`, since every entry takes any numbers.
        requires { (self.day.0 ≤ day.0) × (day.0 ≤ 6000) }
        ensures { result ≡ accrued_days (day.0 - self.entry.day.0) self.entry.order.now.daily self.entry.account }
    {
        let days = Day(day.0 - self.day.0);
        accrue_days(self.account, self.order.daily, days)
    }

    // On to the first day of the next order, tested as the walk comes to it, or to `end` if that is no later.
    #[tactic(auto, using(crate::proofs::Walks::no_next, crate::proofs::Walks::bounded_on))]
    fn step(self, end: Day) -> Result<Elapsed<'a>, Unreckoned>
        // At most 6,000 days is no invariant of `Day`, since every entry takes any numbers.
        requires { (self.day.0 < end.0) × (end.0 ≤ 6000) }
        ensures went { IfOk result (λ walk. Went self.entry walk) }
        ensures nearer { IfOk result (λ walk. (walk.day.0 ≤ end.0) × (length walk.later.now + (end.0 - walk.day.0) < length self.entry.later.now + (end.0 - self.entry.day.0))) }
        ensures unordered { IfErr result (λ e. (e ≡ OutOfRange) × (is_rising self.entry.order.now.first.0 self.entry.later.now ≡ false)) }
    {
        match self.later.split_first() {
            Some((next, rest)) if next.first < end => {
                if !is_next(self.order, next) {
                    return Err(Unreckoned::OutOfRange);
                }
                Ok(Elapsed {
                    account: self.account_on(next.first),
                    day: next.first,
                    order: next,
                    later: rest,
                })
            }
            _ => Ok(Elapsed {
                account: self.account_on(end),
                day: end,
                order: self.order,
                later: self.later,
            }),
        }
    }

    // The interest of the days up to `end`, order by order: a loop up to a day, as each step goes as far as an order does.
    #[tactic(auto, using(crate::proofs::Walks::walk_begins, crate::proofs::Walks::went_on))]
    pub fn elapse(self, end: Day) -> Result<Elapsed<'a>, Unreckoned>
        // At most 6,000 days is no invariant of `Day`, since every entry takes any numbers.
        requires { (self.day.0 ≤ end.0) × (end.0 ≤ 6000) }
        ensures went { IfOk result (λ walk. Went self.entry walk × (walk.day.0 ≡ end.0)) }
        ensures unordered { IfErr result (λ e. (e ≡ OutOfRange) × (is_rising self.entry.order.now.first.0 self.entry.later.now ≡ false)) }
    {
        let mut walk = self;
        while walk.day < end {
            walk = walk.step(end)?;
        }
        Ok(walk)
    }

    // A settlement of the day at hand.
    #[tactic(auto, using(crate::proofs::Walks::bounded_behind))]
    pub fn pay(self, cents: Cents) -> Elapsed<'a>
        requires { cents.0 ≤ worth self.account }
        ensures account { result.account ≡ paid_off cents.0 self.entry.account }
        ensures same { (result.day ≡ self.entry.day) × (result.order ≡ self.entry.order) × (result.later ≡ self.entry.later) }
    {
        Elapsed {
            account: pay_off(self.account, cents),
            day: self.day,
            order: self.order,
            later: self.later,
        }
    }
}
