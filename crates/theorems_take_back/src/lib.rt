// Request [6]: theorems on taking back one kept step and what came of it. No code.
#![tactic(auto)]
