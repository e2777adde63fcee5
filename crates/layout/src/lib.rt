// A text laid out anew: what may differ, and what a reading of it gives. Definitions and laws only; no code.
#![tactic(auto)]
