// A month of one right, by calls: a program begins with the empty book, and each call takes the book that the last one gave back.
#![tactic(auto)]

mod printing;

use crate::printing::{put_positions, put_refused, put_totals};
use book::{Called, Cents, Day, Opening, Parts, ReachedBook};

// Prints a call's answer, and answers the book after it. A write that fails is let go.
fn told<T: Drop, F: FnOnce(T)>(rt: &impl Print, called: Called<T>, say: F) -> ReachedBook
    requires { F.IsAlwaysCallable say }
{
    let Called { answer, book } = called;
    match answer {
        Ok(value) => say(value),
        Err(refusal) => put_refused(rt, refusal),
    }
    book
}

// Two holders finance a right of 2,500,000.00 euros at 2 percent.
fn open_right(rt: &impl Print, book: ReachedBook) -> ReachedBook {
    let opening = Opening {
        first: 20240101,
        term: Day(1826),
        annual: 2000,
        cents: Cents(250000000),
        holders: &[101, 202],
        shares: &[600000, 400000],
    };
    told(rt, book::open_book(book, opening), |()| {
        let _ = println!(rt; "The right is open.");
    })
}

fn advance(rt: &impl Print, book: ReachedBook, date: u32) -> ReachedBook {
    told(rt, book::advance(book, date), |days| {
        let _ = println!(rt; "{} days passed.", days.0);
    })
}

fn transfer(
    rt: &impl Print,
    book: ReachedBook,
    cedent: u32,
    assignee: u32,
    parts: Parts,
) -> ReachedBook {
    told(rt, book::transfer(book, cedent, assignee, parts), |parts| {
        let _ = println!(rt; "{} parts remain with the cedent.", parts.0);
    })
}

fn settle(rt: &impl Print, book: ReachedBook, cents: Cents) -> ReachedBook {
    told(rt, book::settle(book, cents), |taken| {
        let _ = println!(rt;
            "{} cents taken as interest, {} as principal.",
            taken.interest.0, taken.principal.0
        );
    })
}

fn rate(rt: &impl Print, book: ReachedBook, date: u32, annual: u64) -> ReachedBook {
    told(rt, book::rate(book, date, annual), |_| {
        let _ = println!(rt; "The rate is revised.");
    })
}

// The month's calls. The second settlement of 31 January is refused, and the month goes on with the book that came back.
fn month(rt: &impl Print, book: ReachedBook) -> ReachedBook {
    let opened = open_right(rt, book);
    let communicated = advance(rt, opened, 20240115);
    let assigned = transfer(rt, communicated, 101, 303, Parts(250000));
    let ended = advance(rt, assigned, 20240131);
    let settled = settle(rt, ended, Cents(5000000));
    let unchanged = settle(rt, settled, Cents(5000000));
    rate(rt, unchanged, 20240116, 1850)
}

fn main(rt: HostRuntime) {
    let book = month(&rt, ReachedBook::empty());
    put_totals(&rt, &book);
    put_positions(&rt, &book);
}
