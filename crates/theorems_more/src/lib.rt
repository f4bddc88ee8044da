// Further theorems on the definitions of rules: which refusal is given, what judging and the list answer. No code.
#![tactic(auto)]
