// What the checks of a call find on an audited card: the rule in specs/. There is no code here: the calls check by this rule.
#![tactic(auto)]
