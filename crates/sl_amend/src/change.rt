use sl_types::{AppId, Entry, PoolId};

/// What a row does, once it is read.
#[derive(Clone, Copy)]
pub enum Change<'a> {
    /// A pool gets this quota.
    Quota(PoolId, u32),
    /// An applicant of this code is made, with a choice.
    Join(&'a str, Entry),
    /// An applicant gets one more choice.
    Add(AppId, Entry),
    /// The choice at an index is taken away.
    Drop(AppId, usize),
    /// An applicant is taken away.
    Withdraw(AppId),
    /// The choice at an index gets this score.
    Score(AppId, usize, u32),
}
