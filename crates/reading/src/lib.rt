// What a reading answers, and the rules that it judges by: number, place, count and the lent table, case by case.
#![tactic(auto)]

ghost use Rattle.std.specs.Prelude.{◌≡◌};
ghost use Rattle.reading.specs.Answers.{answer};
ghost use Rattle.reading.specs.Refusals.{answer_of};

use grammar::NODE_WORDS;

// Why a call refuses, with the numbers of document 01 and of the requests.
#[derive(Clone, Copy, PartialEq, Eq)]
pub enum Refusal {
    Level = 1,
    TooLong = 2,
    NotUtf8 = 3,
    NoToken = 4,
    BadValue = 5,
    WrongPlace = 6,
    NewerForm = 7,
    NoRoom = 8,
    NotTheLiteral = 9,
    OutOfRange = 10,
    TooDeep = 11,
    NotTheMark = 12,
    OtherVersion = 13,
    NotTheFile = 14,
    RetiredArrow = 15,
}

// A refusal, and its place.
#[derive(Clone, Copy)]
pub struct Refused {
    pub refusal: Refusal,
    pub place: usize,
}

// The answer of a reading: its number (0 accepted), its place, and its count.
#[derive(Clone, Copy)]
pub struct Answer {
    pub number: u32,
    pub place: usize,
    pub count: usize,
}

impl Answer {
    pub fn accepted(place: usize, count: usize) -> Answer
        ensures { result ≡ answer 0 place count }
    {
        Answer {
            number: 0,
            place,
            count,
        }
    }

    // No room: of all refusals this one has a count, of what is needed.
    pub fn no_room(place: usize, count: usize) -> Answer
        ensures { result ≡ answer 8 place count }
    {
        Answer {
            number: Refusal::NoRoom as u32,
            place,
            count,
        }
    }
}

impl From<Refused> for Answer {
    ghost from_gives = { λ refused a. a ≡ answer_of refused };

    fn from(refused: Refused) -> Answer {
        Answer {
            number: refused.refusal as u32,
            place: refused.place,
            count: 0,
        }
    }
}

// What a token is judged by: how many brackets may be open at once, and whether the backward arrow `<-` may be read.
#[derive(Clone, Copy)]
pub struct Limits {
    pub depth: usize,
    pub arrow: bool,
}

// What a text is judged by: how many bytes it may have, how many nodes a table may have, and what each token is judged by.
#[derive(Clone, Copy)]
pub struct Rules {
    pub text: usize,
    pub nodes: usize,
    pub limits: Limits,
}

// The sizes of document 01: bytes of a text, nodes of a table, open brackets.
pub const TEXT: usize = 32768;

pub const NODES: usize = 1024;

pub const DEPTH: usize = 32;

// Words of the longest table that is made use of.
pub const TABLE: usize = NODES * NODE_WORDS;

// The rules of today: `<-` is retired.
pub const BASE: Rules = Rules {
    text: TEXT,
    nodes: NODES,
    limits: Limits {
        depth: DEPTH,
        arrow: false,
    },
};

// The old rules, by which it is read: texts whose files were stored before are checked by them, and texts are converted by them.
pub const OLD_RULES: Rules = Rules {
    text: TEXT,
    nodes: NODES,
    limits: Limits {
        depth: DEPTH,
        arrow: true,
    },
};
