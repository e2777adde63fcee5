// The vocabulary in which token rules are written: classes of bytes, rules, and what a rule takes. And
// numbers written over others, which is what every lent table and buffer is at the end.
// Definitions and laws only (specs/); no code.
#![tactic(auto)]
