// Demand 3 over any machine whose steps have footprints: definitions and laws only, no code.
#![tactic(auto)]
