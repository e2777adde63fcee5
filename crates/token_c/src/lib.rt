// The tokens for C, as numbers: what the comparison with the second program calls.
#![tactic(auto)]

ghost use Rattle.std.specs.Prelude.{◌≡◌};
ghost use Rattle.lexicon.specs.Front.{Front};
ghost use Rattle.token_c.specs.Numbers.{star_number_of, sign_number_of, head_number_of, form_number_of, kind_number_of, detail_number_of, words_of, TokenWords};

use lexicon::{Bound, Form, Head, Kind, Next, Sign};

// The place behind the byte-order mark and the first line.
#[unsafe(no_mangle)]
pub extern "C" fn muon_front(text: &[u8]) -> usize
    ensures { Front text.now result }
{
    space::front::front(text)
}

// The conversions are functions, and no `From`: neither the enums nor `u64` are this crate's.

fn star_number(low: Bound, high: Bound) -> u64
    ensures { result ≡ star_number_of low high }
{
    match (low, high) {
        (Bound::LessEqual, Bound::LessEqual) => 12,
        (Bound::LessEqual, Bound::Less) => 13,
        (Bound::Less, Bound::LessEqual) => 14,
        (Bound::Less, Bound::Less) => 15,
        (Bound::LessEqual, Bound::Open) => 16,
        (Bound::Less, Bound::Open) => 17,
        (Bound::Open, Bound::LessEqual) => 18,
        (Bound::Open, Bound::Less) => 19,
        (Bound::Open, Bound::Open) => 20,
    }
}

fn sign_number(sign: Sign) -> u64
    ensures { result ≡ sign_number_of sign }
{
    match sign {
        Sign::RoundOpen => 0,
        Sign::RoundClose => 1,
        Sign::CurlyOpen => 2,
        Sign::CurlyClose => 3,
        Sign::SquareOpen => 4,
        Sign::SquareClose => 5,
        Sign::Comma => 6,
        Sign::ArrowRight => 7,
        Sign::ArrowLeft => 8,
        Sign::Dots => 9,
        Sign::Star { low, high } => star_number(low, high),
    }
}

fn head_number(head: Head) -> u64
    ensures { result ≡ head_number_of head }
{
    4 + head as u64
}

fn form_number(form: Form) -> u64
    ensures { result ≡ form_number_of form }
{
    match form {
        Form::Quoted => 1,
        Form::Word => 2,
        Form::CodePoint => 3,
        Form::HeadWord(head) => head_number(head),
    }
}

fn kind_number(kind: Kind) -> u64
    ensures { result ≡ kind_number_of kind }
{
    match kind {
        Kind::Ignorance => 1,
        Kind::Boolean(_) => 2,
        Kind::Integer { .. } => 3,
        Kind::Fraction => 4,
        Kind::Bits => 5,
        Kind::Blob => 6,
        Kind::Text(_) => 7,
        Kind::Later => 8,
        Kind::Symbol(_) | Kind::Colon | Kind::TwoColons => 9,
    }
}

fn detail_number(kind: Kind) -> u64
    ensures { result ≡ detail_number_of kind }
{
    match kind {
        Kind::Ignorance | Kind::Fraction | Kind::Bits | Kind::Blob | Kind::Later => 0,
        Kind::Boolean(value) => u64::from(value),
        Kind::Integer { signed } => u64::from(signed),
        Kind::Text(form) => form_number(form),
        Kind::Symbol(sign) => sign_number(sign),
        Kind::Colon => 10,
        Kind::TwoColons => 11,
    }
}

// Kind, first byte, byte after the last, detail, bad.
fn words(answer: Next) -> [u64; 5]
    ensures { result ≡ words_of answer }
{
    match answer {
        Next::Token(token) => [
            kind_number(token.kind),
            token.first as u64,
            token.end as u64,
            detail_number(token.kind),
            u64::from(token.bad),
        ],
        Next::End(place) => [0, place as u64, place as u64, 0, 0],
        Next::NoToken(place) => [10, place as u64, place as u64, 0, 0],
    }
}

// The token at or after a place.
#[unsafe(no_mangle)]
pub extern "C" fn muon_token(text: &[u8], at: usize, out: &mut [u64; 5])
    ensures { TokenWords text.now at out.new }
{
    *out = words(token::next::next(text, at));
}
