// What makes one of these types from another: a frame from its bracket's own, a node's kind from a style, a move from a frame.
ghost use Rattle.std.specs.Prelude.{◌≡◌};
ghost use Rattle.moves.specs.declared.Frame.TheVariants as Frame;
ghost use Rattle.moves.specs.Means.{kind_of, node_kind_of};

use crate::{CurlyFrame, Frame, Mode, Move, NodeKind, Role, RoundFrame, SquareFrame, Style};

impl From<RoundFrame> for Frame {
    ghost from_gives = { λ round frame. frame ≡ Frame.Round round };

    fn from(frame: RoundFrame) -> Self {
        Frame::Round(frame)
    }
}

impl From<CurlyFrame> for Frame {
    ghost from_gives = { λ curly frame. frame ≡ Frame.Curly curly };

    fn from(frame: CurlyFrame) -> Self {
        Frame::Curly(frame)
    }
}

impl From<SquareFrame> for Frame {
    ghost from_gives = { λ square frame. frame ≡ Frame.Square square };

    fn from(frame: SquareFrame) -> Self {
        Frame::Square(frame)
    }
}

impl From<Style> for NodeKind {
    ghost from_gives = { λ style kind. node_kind_of kind ≡ kind_of style };

    fn from(style: Style) -> Self {
        match style {
            Style::Lot => NodeKind::Lot,
            Style::Array => NodeKind::Array,
            Style::Set => NodeKind::Set,
            Style::Bag => NodeKind::Bag,
        }
    }
}

impl Move {
    // The move to a place where a value is wanted.
    pub fn want<F: Into<Frame>>(frame: F, role: Role) -> Self
        ensures { (wanted : Frame) × F.converts frame wanted × (result ≡ Move.To (Mode.Want wanted) role) }
    {
        Move::To {
            mode: Mode::Want(frame.into()),
            role,
        }
    }

    // The bracket's end, where its node has no detail.
    pub fn ends(kind: NodeKind, role: Role) -> Self
        ensures { result ≡ Move.Close kind 0 role }
    {
        Move::Close {
            kind,
            detail: 0,
            role,
        }
    }
}
