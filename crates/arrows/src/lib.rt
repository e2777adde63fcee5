// What an arrow makes of the values on its two sides, and whether the level has it.
#![tactic(auto)]

ghost use Rattle.std.specs.Prelude.{◌≡◌};
ghost use Rattle.grammar.specs.Level;
ghost use Rattle.grammar.specs.Nodes;
ghost use Rattle.moves.specs.Means.{level_of, role_of, arrow_of};

use moves::{Arrow, Forms, Role};

// The role of the value behind it.
pub fn right_role(arrow: Arrow) -> Role
    ensures { role_of result ≡ Nodes.right_role_of (arrow_of arrow) }
{
    match arrow {
        Arrow::Right => Role::ThatAfter,
        Arrow::Left => Role::This,
    }
}

// The role of the value before it. No one function for both sides: it would hold the same four roles, and a side to choose by.
pub fn left_role(arrow: Arrow) -> Role
    ensures { role_of result ≡ Nodes.left_role_of (arrow_of arrow) }
{
    match arrow {
        Arrow::Right => Role::This,
        Arrow::Left => Role::ThatBefore,
    }
}

// `->`, and `<-` if the level has it.
pub fn has_arrow(forms: Forms, arrow: Arrow) -> bool
    ensures { result ≡ Level.has_arrow_of (level_of forms) (arrow_of arrow) }
{
    match arrow {
        Arrow::Right => true,
        Arrow::Left => forms.leftward,
    }
}
