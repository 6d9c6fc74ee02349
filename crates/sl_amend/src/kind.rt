ghost use Rattle.std.specs.Prelude.{◌≡◌};
ghost use Rattle.sl_amend.specs.Kinds.{kind_of};

/// What an amendment does.
#[derive(Clone, Copy, Debug, PartialEq, Eq)]
pub enum Kind {
    /// A pool gets another quota.
    Quota,
    /// An applicant is made, or gets a further choice.
    New,
    /// An applicant gets one more choice.
    Add,
    /// A choice is taken away.
    Drop,
    /// An applicant is taken away.
    Withdraw,
    /// A choice gets another score.
    Score,
}

impl Kind {
    /// The kind of a word.
    pub fn of(field: &[u8]) -> Option<Kind>
        ensures { result ≡ kind_of field.now }
    {
        if field == "quota".as_bytes() {
            Some(Kind::Quota)
        } else if field == "new".as_bytes() {
            Some(Kind::New)
        } else if field == "add".as_bytes() {
            Some(Kind::Add)
        } else if field == "drop".as_bytes() {
            Some(Kind::Drop)
        } else if field == "withdraw".as_bytes() {
            Some(Kind::Withdraw)
        } else if field == "score".as_bytes() {
            Some(Kind::Score)
        } else {
            None
        }
    }
}
