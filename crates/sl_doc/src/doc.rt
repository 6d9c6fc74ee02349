use sl_types::Raise;
use std::marker::Model;

/// What a result document holds: the published limit of each pool, in points, and how many applicants it
/// admits; for each applicant the index in their list of the admitted choice, or the length of the list; and
/// the raises that are to prove the limits, in order.
#[derive(Drop)]
pub struct Doc {
    pub limits: Vec<u32>,
    pub counts: Vec<u32>,
    pub admitted: Vec<u32>,
    pub raises: Vec<Raise>,
}

impl Model for Doc {
    ghost use Rattle.sl_doc.specs.Document.{Document, document};

    ghost Value = { Document };

    ghost view = { λ s. document s.limits.items s.counts.items s.admitted.items s.raises.items };
}
