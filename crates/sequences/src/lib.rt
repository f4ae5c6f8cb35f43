// Sequences of the functions that C links: what a caller gets and leaves that calls one after the other, each with what the one before left.
// There is no code here: what the functions promise is chained in specs/, and proofs/ has what follows.
#![tactic(auto)]
