// What opens, joins and closes a bracket, by the numbers of kind, role and detail. What is written is told for every number.
#![tactic(auto, using(buffer::proofs::Appending::appends_nothing))]

ghost use Rattle.std.specs.Prelude.{◌≡◌};
ghost use Rattle.buffer.specs.Appends.{Appends};
ghost use Rattle.form.proofs.Walk.{sign_bytes, comma as comma_bytes, last_sign_of};
ghost use Rattle.marks.specs.ByNumber.{opening_by, closing_by, lead_by, counted_by, last_comma_of, tail_by};

use buffer::Writer;

// Kinds by their numbers, as a lent table has them: the functions promise something of every number, so that an enum would need another
// variant for the rest and be no plainer. Those below Pair have no children.
pub const PAIR: u32 = 9;

const TUPLE: u32 = 10;

const LOT: u32 = 11;

const ARRAY: u32 = 12;

const SET: u32 = 13;

const BAG: u32 = 14;

const INTERVAL: u32 = 15;

// Roles by their numbers.
const ROOT: u32 = 0;

const THAT_AFTER: u32 = 2;

pub const THAT_BEFORE: u32 = 3;

const NAME: u32 = 4;

const VALUE: u32 = 5;

const COUNT: u32 = 6;

const LOW: u32 = 7;

const HIGH: u32 = 8;

const SINGLE: u32 = 9;

pub fn open(kind: u32, out: &mut Writer)
    ensures { Appends out.old (opening_by kind) out.new }
{
    match kind {
        PAIR | TUPLE => out.put(b'('),
        LOT => out.put(b'{'),
        ARRAY => out.copy(b"(Array:{"),
        SET => out.copy(b"(Set:{"),
        BAG => out.copy(b"(Bag:{"),
        _ => out.put(b'['),
    }
}

pub fn close(kind: u32, out: &mut Writer)
    ensures { Appends out.old (closing_by kind) out.new }
{
    match kind {
        PAIR | TUPLE => out.put(b')'),
        LOT => out.put(b'}'),
        ARRAY | SET | BAG => out.copy(b"})"),
        _ => out.put(b']'),
    }
}

// The sign of an Interval by its detail; an empty one and a single value have none.
fn sign(detail: u32, out: &mut Writer)
    ensures { Appends out.old (sign_bytes detail) out.new }
{
    match detail {
        2 => out.copy(b"<=*<="),
        3 => out.copy(b"<=*<"),
        4 => out.copy(b"<*<="),
        5 => out.copy(b"<*<"),
        6 => out.copy(b"<=*"),
        7 => out.copy(b"<*"),
        8 => out.copy(b"*<="),
        9 => out.copy(b"*<"),
        10 => out.put(b'*'),
        11 => out.copy(b".."),
        _ => {}
    }
}

// In front of a further member, `before` being the role of the child in front, or no child's.
fn comma(before: u32, out: &mut Writer)
    ensures { Appends out.old (comma_bytes before) out.new }
{
    if before != ROOT {
        out.put(b',');
    }
}

// In front of a child of this role, in a bracket with this detail.
pub fn lead(detail: u32, before: u32, role: u32, out: &mut Writer)
    ensures { Appends out.old (lead_by detail before role) out.new }
{
    match role {
        THAT_AFTER | COUNT => out.put(b':'),
        VALUE => if before == NAME {
            out.put(b':')
        } else {
            comma(before, out)
        },
        HIGH => sign(detail, out),
        ROOT | LOW | SINGLE => {}
        _ => comma(before, out),
    }
}

// How many attributes children are, as far as a Tuple's tail must know it.
#[derive(Drop)]
pub enum Attributes {
    No,
    // a name, whose value may follow
    Name,
    One,
    More,
}

// With one child more: a that before its this counts as two.
pub fn counted(done: Attributes, role: u32) -> Attributes
    ensures { result ≡ counted_by done role }
{
    if role == THAT_BEFORE {
        return Attributes::More;
    }
    match done {
        Attributes::No => if role == NAME {
            Attributes::Name
        } else {
            Attributes::One
        },
        Attributes::Name => Attributes::One,
        Attributes::One | Attributes::More => Attributes::More,
    }
}

// The comma of a Tuple's single attribute.
fn last_comma(done: Attributes, out: &mut Writer)
    ensures { Appends out.old (last_comma_of done) out.new }
{
    match done {
        Attributes::Name | Attributes::One => out.put(b','),
        Attributes::No | Attributes::More => {}
    }
}

// The sign of an Interval without a high bound, which stands last.
fn last_sign(detail: u32, out: &mut Writer)
    ensures { Appends out.old (last_sign_of detail) out.new }
{
    match detail {
        6 | 7 | 10 => sign(detail, out),
        _ => {}
    }
}

// Behind the last child.
pub fn tail(kind: u32, detail: u32, done: Attributes, out: &mut Writer)
    ensures { Appends out.old (tail_by kind detail done) out.new }
{
    match kind {
        TUPLE => last_comma(done, out),
        INTERVAL => last_sign(detail, out),
        _ => {}
    }
}
