// Looks at the next tokens: a token where one must come, a head, a name, and the end of a text.
#![tactic(auto)]

pub mod answer;
pub mod end;
pub mod head;
pub mod names;
