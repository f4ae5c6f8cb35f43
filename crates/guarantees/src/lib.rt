// What the rules of the card guarantee: theorems on what `card` defines, in proofs/.
// There is no code here.
#![tactic(auto)]
