ghost use Rattle.std.specs.Prelude.{◌≡◌};
ghost use Rattle.sl_run.specs.Receipt.{done_with, done_without};

use sl_floor::Receipt;

/// How a command ended that was carried out.
#[derive(Drop)]
pub struct Done {
    pub status: u8,
    /// A line for people, if there is one.
    pub line: Option<Vec<u8>>,
    /// The receipt of the floor on which it cleared an instance, if it did.
    pub receipt: Option<Receipt>,
}

impl Done {
    /// With status 0, and the receipt of a floor.
    pub fn with_receipt(receipt: Receipt) -> Done
        ensures { result ≡ done_with receipt }
    {
        Done {
            status: 0,
            line: None,
            receipt: Some(receipt),
        }
    }

    /// With a status, and no receipt.
    pub fn without_receipt(status: u8) -> Done
        ensures { result ≡ done_without status }
    {
        Done {
            status,
            line: None,
            receipt: None,
        }
    }
}
