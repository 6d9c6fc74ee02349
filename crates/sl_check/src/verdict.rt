use sl_types::{AppId, PoolId};

/// What a check finds: the first fault in the order raises, pools left unsettled, limits, admissions and
/// counts, with the lowest number. That a list of raises is the certificate is this project's own.
#[derive(Clone, Copy, Debug, PartialEq, Eq)]
pub enum Verdict {
    /// The raises prove the limits, and the admissions and the counts are those of the limits.
    Yes,
    /// The raise of this number, counted from 1, is the first that doesn't replay.
    RaiseUnjust(u32),
    /// The lowest pool that isn't settled at what the raises reach.
    Unsettled(PoolId),
    /// The lowest pool whose limit isn't its effective limit there.
    LimitWrong(PoolId),
    /// The lowest applicant whose index isn't that of the admitted choice.
    AdmissionWrong(AppId),
    /// The lowest pool whose count isn't that of the admissions.
    CountWrong(PoolId),
}
