use std::alloc::AllocError;

/// There was too little memory.
#[derive(Clone, Copy, Debug, PartialEq, Eq)]
pub struct OutOfMemory;

impl From<AllocError> for OutOfMemory {
    fn from(_refusal: AllocError) -> OutOfMemory {
        OutOfMemory
    }
}
