// The moves between `{` and `}`: the members of a Lot, an Array, a Set or a Bag.
#![tactic(auto, using(moves::proofs::Moved::moved))]

pub mod behind;
pub mod joint;
pub mod lead;
pub mod member;
