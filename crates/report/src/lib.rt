// The reach report of the request 2026-03: what its two calls answer and list.
// There is no code here: specs/ has the rules with their laws, and what is promised of them; proofs/ proves it.
#![tactic(auto)]
