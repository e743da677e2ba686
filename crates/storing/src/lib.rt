// One step of a run, in specs/: what it is given, what it says and counts, and that what is stored of it is the definition's. No code.
#![tactic(auto)]
