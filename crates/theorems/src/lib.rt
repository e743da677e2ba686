// What the list of every accepted text keeps (demand 3), in specs/. No code.
#![tactic(auto)]
