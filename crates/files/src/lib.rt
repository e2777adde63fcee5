// Stored files: the bytes of a text's node table, what writing them answers and what checking them answers. Definitions and laws only; no code.
#![tactic(auto)]
