use sl_floor::Receipt;

/// How a command ended: its status, and the receipt of the floor on which it cleared an instance,
/// if it did.
#[derive(Drop)]
pub struct Ended {
    pub status: u8,
    pub receipt: Option<Receipt>,
}
