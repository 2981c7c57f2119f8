// Kinds made from other kinds.
#![tactic(auto)]

mod far_end;

pub use far_end::FarEnd;
