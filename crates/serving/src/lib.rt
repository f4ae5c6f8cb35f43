// What a batch makes of the bytes that arrive at a port: the rule in specs/, and in proofs/ what it guarantees.
// There is no code here: `batch` serves by this rule.
#![tactic(auto)]
