// The names that the definitions of tokens and the code share. Definitions and laws stand in specs/ and proofs/; no code.
#![tactic(auto)]

// The eight byte sets of the class table.
#[derive(Clone, Copy)]
pub enum Set {
    Binary,
    Octal,
    Decimal,
    Hexadecimal,
    Base64,
    WordStart,
    WordRest,
    Dividing,
}

// Where a literal ends, and whether its value is bad.
#[derive(Clone, Copy)]
pub struct Literal {
    pub end: usize,
    pub bad: bool,
}

// A text is not UTF-8: refusal 3 has the place.
#[derive(Clone, Copy)]
pub struct NotUtf8 {
    pub at: usize,
}

// The answer of the UTF-8 test, and the steps that it took up to its place.
#[derive(Clone, Copy)]
pub struct Tested {
    pub encoding: Result<(), NotUtf8>,
    pub steps: usize,
}

// The numeric bases of Integer, Fraction and code point literals.
#[derive(Clone, Copy)]
pub enum Base {
    Two,
    Eight,
    Ten,
    Sixteen,
}

// The sides of a sign with a star: nothing, `<` or `<=`.
#[derive(Clone, Copy)]
pub enum Bound {
    Open,
    Less,
    LessEqual,
}

// The symbols.
#[derive(Clone, Copy)]
pub enum Sign {
    RoundOpen,
    RoundClose,
    CurlyOpen,
    CurlyClose,
    SquareOpen,
    SquareClose,
    Comma,
    ArrowRight,
    ArrowLeft,
    Dots,
    Star { low: Bound, high: Bound },
}

// The thirteen head words.
#[derive(Clone, Copy)]
pub enum Head {
    Array,
    Set,
    Bag,
    Mix,
    IntervalSet,
    IntervalBag,
    TupleArray,
    Relation,
    TupleBag,
    Article,
    Excuse,
    Heading,
    Renaming,
}

// How a Text is written: quoted, as a bare word that is or is not a head word, or as a code point.
#[derive(Clone, Copy)]
pub enum Form {
    Quoted,
    Word,
    HeadWord(Head),
    CodePoint,
}

// The kinds of tokens, each with what the tree needs to know of it.
#[derive(Clone, Copy)]
pub enum Kind {
    Ignorance,
    Boolean(bool),
    Integer { signed: bool },
    Fraction,
    Bits,
    Blob,
    Text(Form),
    Later,
    Symbol(Sign),
    Colon,
    TwoColons,
}

// A token: its kind, its first byte, the byte after its last, and whether its value is bad (refusal 5).
#[derive(Clone, Copy)]
pub struct Token {
    pub kind: Kind,
    pub first: usize,
    pub end: usize,
    pub bad: bool,
}

// What comes next in a text: a token, the end, or a byte at which no token starts (refusal 4).
#[derive(Clone, Copy)]
pub enum Next {
    Token(Token),
    End(usize),
    NoToken(usize),
}
