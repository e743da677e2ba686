// Cases that the definition has only so that its functions are total, in specs/: no text meets them. No code.
#![tactic(auto)]
