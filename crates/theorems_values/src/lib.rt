// The theorem `signed-values`: what the operators make of words is what they mean of signed numbers. No code.
#![tactic(auto)]
