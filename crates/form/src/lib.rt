// The plain form of a derivation, what writing it answers, and what reading it gives. Definitions and laws only; no code.
#![tactic(auto)]
