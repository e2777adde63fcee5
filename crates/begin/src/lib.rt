// How a value begins: 6, 7 and, for a bracket, 11 are tested here.
#![tactic(auto)]

ghost use Rattle.std.specs.Prelude.{◌≡◌};
ghost use Rattle.lexicon.specs.declared.Sign.TheVariants as Sign;
ghost use Rattle.lexicon.specs.declared.Kind.TheVariants as Kind;
ghost use Rattle.look.specs.Looks.{HeadHere};
ghost use Rattle.begin.specs.Begins.{refused_at, Deeper, Begins};

use level::collection_of;
use lexicon::{Head, Kind, Sign, Token};
use look::head::{Headed, head_at};
use moves::{CurlyFrame, Forms, Frame, Front, Mode, SquareFrame, Style};
use reading::{Limits, Refusal, Refused};

pub mod sign;

// A text, and what it is read by: the limits, and the forms of the level.
#[derive(Clone, Copy)]
pub struct Reader<'a> {
    pub text: &'a [u8],
    pub limits: Limits,
    pub forms: Forms,
}

#[derive(Clone, Copy)]
pub enum Begin {
    Literal,
    Names,
    // `(` without a head, and what comes behind it
    Round(Result<Token, Refused>),
    // another bracket, or a head: what is expected, and from where
    Bracket { mode: Mode, at: usize },
}

// A refusal at the token t.
#[inline(always)]
fn refused(refusal: Refusal, t: Token) -> Result<Begin, Refused>
    ensures { result ≡ Err (refused_at refusal t) }
{
    Err(Refused {
        refusal,
        place: t.first,
    })
}

impl Reader<'_> {
    // One bracket more, if there may be one.
    #[inline(always)]
    fn deeper(self, t: Token, depth: usize, begun: Begin) -> Result<Begin, Refused>
        ensures { Deeper self.entry.limits depth t begun result }
    {
        if depth >= self.limits.depth {
            return refused(Refusal::TooDeep, t);
        }
        Ok(begun)
    }

    // A head, if the level has it.
    #[inline(always)]
    fn head_open(self, t: Token, depth: usize, head: Head, end: usize) -> Result<Begin, Refused>
        ensures { t.kind ≡ Kind.Symbol Sign.RoundOpen → HeadHere self.entry.text.now t.end head end → Begins self.entry.text.now self.entry.limits self.entry.forms depth t result }
    {
        let Some(style) = collection_of(self.forms, head) else {
            return refused(Refusal::NewerForm, t);
        };
        self.deeper(
            t,
            depth,
            Begin::Bracket {
                mode: Mode::Head(style),
                at: end,
            },
        )
    }

    #[inline(always)]
    fn round_open(self, t: Token, depth: usize) -> Result<Begin, Refused>
        ensures { t.kind ≡ Kind.Symbol Sign.RoundOpen → Begins self.entry.text.now self.entry.limits self.entry.forms depth t result }
    {
        match head_at(self.text, t.end) {
            Headed::At { head, end } => self.head_open(t, depth, head, end),
            Headed::Other(first) => self.deeper(t, depth, Begin::Round(first)),
        }
    }

    #[inline(always)]
    fn square_open(self, t: Token, depth: usize) -> Result<Begin, Refused>
        ensures { t.kind ≡ Kind.Symbol Sign.SquareOpen → Begins self.entry.text.now self.entry.limits self.entry.forms depth t result }
    {
        if !self.forms.intervals {
            return refused(Refusal::NewerForm, t);
        }
        self.deeper(
            t,
            depth,
            Begin::Bracket {
                mode: Mode::Want(Frame::Square(SquareFrame::Opened)),
                at: t.end,
            },
        )
    }

    #[inline(always)]
    fn curly_open(self, t: Token, depth: usize) -> Result<Begin, Refused>
        ensures { t.kind ≡ Kind.Symbol Sign.CurlyOpen → Begins self.entry.text.now self.entry.limits self.entry.forms depth t result }
    {
        self.deeper(
            t,
            depth,
            Begin::Bracket {
                mode: Mode::Want(Frame::Curly(CurlyFrame::Members {
                    style: Style::Lot,
                    front: Front::Start,
                })),
                at: t.end,
            },
        )
    }

    // The value that the token t begins, at a place for a value.
    pub fn begins(self, t: Token, depth: usize) -> Result<Begin, Refused>
        ensures { Begins self.entry.text.now self.entry.limits self.entry.forms depth t result }
    {
        match t.kind {
            Kind::Later => refused(Refusal::NewerForm, t),
            Kind::Symbol(Sign::RoundOpen) => self.round_open(t, depth),
            Kind::Symbol(Sign::CurlyOpen) => self.curly_open(t, depth),
            Kind::Symbol(Sign::SquareOpen) => self.square_open(t, depth),
            Kind::Symbol(_) => refused(Refusal::WrongPlace, t),
            Kind::Colon => refused(Refusal::WrongPlace, t),
            Kind::TwoColons => Ok(Begin::Names),
            _ => Ok(Begin::Literal),
        }
    }
}
