// The customer's demands in their own words, proved about the definitions. Definitions and laws only; no code.
#![tactic(auto)]
