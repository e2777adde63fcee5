// Texts of the paper with their answers, proved about the definitions. Definitions and laws only; no code.
#![tactic(auto)]
