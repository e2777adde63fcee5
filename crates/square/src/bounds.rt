// An Interval's bounds, `as u32` the detail of its node: a bound with `<=` is closed, one with `<` is open.
#[derive(Clone, Copy)]
pub(crate) enum Bounds {
    // `[]`
    Empty = 0,
    // `[v]`
    Single = 1,
    // `[v<=*<=w]`
    ClosedClosed = 2,
    ClosedOpen = 3,
    OpenClosed = 4,
    OpenOpen = 5,
    // `[v<=*]`
    FromClosed = 6,
    FromOpen = 7,
    // `[*<=v]`
    ToClosed = 8,
    ToOpen = 9,
    // `[*]`
    All = 10,
    // `[v..w]`
    Dots = 11,
}
