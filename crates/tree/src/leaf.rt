// Values without members: literals and Nestings.
// A function with a `requires` is this crate's own: the numbers that it asks for hold in every text that is read, and a node's words then
// hold them.
ghost use Rattle.grammar.specs.Tokens.{wording};
ghost use Rattle.grammar.specs.Nodes.{kind_number_of};
ghost use Rattle.moves.specs.Means.{node_kind_of};
ghost use Rattle.moves.specs.declared.Shape.TheVariants as Shape;
ghost use Rattle.tree.specs.Readers.{Within, Literal, Nesting};
ghost use Rattle.tree.specs.Tellings.{wording_detail, wording_shape, ToldAs, LeafTold};

use crate::start::Start;
use lexicon::{Form, Kind};
use look::answer::Read;
use look::names::{name, two_colons};
use moves::{NodeKind, Role, Shape};
use reading::{Refusal, Refused};
use table::{Entry, put};
use token::bad::bad_place;

// What a literal's node tells, its kind as a word of the table, and what the literal is to a colon. A token that is no literal has no node,
// and the word 0.
#[derive(Clone, Copy)]
pub struct Telling {
    pub kind: u32,
    pub detail: u32,
    pub shape: Shape,
}

fn told_text(form: Form) -> Telling
    ensures { ToldAs 7 (wording_detail (wording form)) (wording_shape (wording form)) result }
{
    let (detail, shape) = match form {
        Form::Quoted => (1, Shape::Name),
        Form::Word => (2, Shape::Name),
        Form::HeadWord(head) => (2, Shape::Bare(head)),
        Form::CodePoint => (3, Shape::Name),
    };
    Telling {
        kind: NodeKind::Text as u32,
        detail,
        shape,
    }
}

fn plain(kind: NodeKind, detail: u32) -> Telling
    ensures { ToldAs (kind_number_of (node_kind_of kind)) detail Shape.Other result }
{
    Telling {
        kind: kind as u32,
        detail,
        shape: Shape::Other,
    }
}

pub(crate) fn told(kind: Kind) -> Telling
    ensures { LeafTold kind result }
{
    match kind {
        Kind::Ignorance => plain(NodeKind::Ignorance, 0),
        Kind::Boolean(truth) => plain(NodeKind::Boolean, u32::from(truth)),
        Kind::Integer { .. } => plain(NodeKind::Integer, 0),
        Kind::Fraction => plain(NodeKind::Fraction, 0),
        Kind::Bits => plain(NodeKind::Bits, 0),
        Kind::Blob => plain(NodeKind::Blob, 0),
        Kind::Text(form) => told_text(form),
        Kind::Later | Kind::Symbol(_) | Kind::Colon | Kind::TwoColons => Telling {
            kind: 0,
            detail: 0,
            shape: Shape::Other,
        },
    }
}

// A literal by itself, if its value is not bad.
pub(crate) fn leaf(text: &[u8], start: &Start, table: &mut [u32]) -> Result<Read, Refused>
    requires { Within text.now start.now }
    ensures { Literal text.now start.now.token table.old table.new start.now.index start.now.parent result }
{
    let t = start.token;
    if t.bad {
        return Err(Refused {
            refusal: Refusal::BadValue,
            place: bad_place(text, t),
        });
    }
    let tells = told(t.kind);
    put(
        table,
        start.index,
        Entry {
            kind: tells.kind,
            first: t.first as u32,
            end: t.end as u32,
            parent: start.parent as u32,
            role: Role::Root,
            detail: tells.detail,
            skip: (start.index + 1) as u32,
        },
    );
    Ok(Read {
        end: t.end,
        nodes: 1,
        shape: tells.shape,
    })
}

// A Nesting: `::` and a Text, once or more.
pub(crate) fn names(text: &[u8], start: &Start, table: &mut [u32]) -> Result<Read, Refused>
    requires { Within text.now start.now }
    ensures { Nesting text.now start.now.token table.old table.new start.now.index start.now.parent result }
{
    let mut at = start.token.end;
    // A name has as many bytes as it has, so no range counts the places. The let else is the prescribed form, as in value.rt.
    loop {
        let named = name(text, at);
        let Ok(end) = named else {
            return Err(named.unwrap_err());
        };
        let Some(next) = two_colons(text, end) else {
            put(
                table,
                start.index,
                Entry {
                    kind: NodeKind::Nesting as u32,
                    first: start.token.first as u32,
                    end: end as u32,
                    parent: start.parent as u32,
                    role: Role::Root,
                    detail: 0,
                    skip: (start.index + 1) as u32,
                },
            );
            return Ok(Read {
                end,
                nodes: 1,
                shape: Shape::Name,
            });
        };
        at = next;
    }
}
