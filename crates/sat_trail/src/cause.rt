//! How a variable was put on the trail, in sixteen bytes, where a reason of its own type would take twenty-four.

#[derive(Clone, Copy, Debug)]
pub enum Kind {
    Decision,
    FromBook,
    FromUnit,
}

/// The number is that of the clause; a decision has none, and it's 0.
#[derive(Clone, Copy, Debug)]
pub struct Cause {
    pub number: u64,
    pub level: u32,
    pub kind: Kind,
}
