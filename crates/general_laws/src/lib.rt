#![tactic(auto)]

// General laws of numbers and lists, below every other crate: definitions in specs/, laws in proofs/, and no code.
