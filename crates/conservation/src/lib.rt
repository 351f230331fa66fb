// One theorem over lists of calls: the book equals the tally of document 01, to the cent. And document 01's checked examples.
#![tactic(auto)]

ghost use Rattle.conservation.specs.Conservation.{Conservation, ReachedConserved, ReachedBookConserved};
ghost use Rattle.conservation.specs.Edges.{Edges};
ghost use Rattle.conservation.specs.Examples.{Examples};
ghost use Rattle.conservation.specs.Refusals.{Refusals};

// After every accepted opening and every list of Advance, Rate, Transfer and Settle calls, in any order and refused ones included, the
// book equals the tally; and every reached open book has such a history, also where its type says that it is reached. It does nothing.
pub fn conservation()
    ensures { Conservation × ReachedConserved × ReachedBookConserved }
{}

// The twelve checked examples of document 01 together, the edges of its table "What stops a call", and what every refusal gives back, about the
// definitions that the contracts cite. It does nothing.
pub fn checked_examples()
    ensures { Examples × Edges × Refusals }
{}
