// Code 11 in document 01's words. No code.
#![tactic(auto)]
