// A book that calls reached, and what a call gives back: its answer and the book after it.
ghost use Rattle.std.specs.Fn.{FnOnceReturnsAtMut};
ghost use Rattle.std.specs.Prelude.{◌≡◌};
ghost use Rattle.book_model.specs.Book.{empty_book};
ghost use Rattle.book_model.specs.Reached.{Reached};

use crate::{Book, Refusal};

// A book that calls reached from the empty one. Only calls make one, so that every call may rely on it.
#[derive(Clone, Copy)]
pub struct ReachedBook {
    pub book: Book,
    ghost reached: { ∥ Reached book ∥₁ },
}

impl ReachedBook {
    pub fn empty() -> ReachedBook
        ensures { result.book ≡ empty_book }
    {
        ReachedBook {
            book: Book::empty(),
        }
    }

    // By value: a call in place on the book, and the book after it.
    pub fn call<T, E, F: FnOnce(&mut ReachedBook) -> Result<T, E>>(self, call: F) -> Called<T, E>
        requires { F.IsAlwaysCallable call }
        ensures { FnOnceReturnsAtMut F.FnOnce call self result.answer result.book }
    {
        let mut after = self;
        let answer = call(&mut after);
        Called {
            answer,
            book: after,
        }
    }
}

// A refused call gives back the book that came in: a reached one, but where an opening is called on any book.
#[derive(Clone, Copy)]
pub struct Called<T, E = Refusal, B = ReachedBook> {
    pub answer: Result<T, E>,
    pub book: B,
}
