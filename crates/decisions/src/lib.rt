// Whether a rule takes bytes, which token comes next, whether its value is bad: decided for every text. Laws only; no code.
#![tactic(auto)]
