// The customer's demands as theorems on the definitions of rules: no code.
#![tactic(auto)]
