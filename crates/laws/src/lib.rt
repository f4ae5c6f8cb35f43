#![tactic(auto)]

// Laws of what `card` defines, and the forms in which contracts cite its rules.
// There is no code here.
