/// The share of all seats of a floor together.
pub const WHOLE_SHARE: u32 = 1_048_576;

/// How many tickets all seats of a floor may draw together.
pub const FIRST_ALLOWANCE: u64 = 1_152_921_504_606_846_976;
