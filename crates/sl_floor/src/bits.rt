// Bits of words, 64 to a word.
ghost use Rattle.std.specs.Prelude.{◌≡◌, ◌≢◌, ℕ, ◌*◌, ◌/◌, ◌^◌, ◌<◌, ◌≤◌, true, false, length, IfSome, IfNone};
ghost use Rattle.sl_floor.specs.Sets.{has_bit, has_pool_bit, IsFirstBit};

// Whether a bit of a word is 1.
fn has_bit(word: u64, bit: usize) -> bool
    requires { bit < 64 }
    ensures { result ≡ has_bit word bit }
{
    (word >> bit) & 1 == 1
}

// The word with one bit made 1 or 0.
fn with_bit(word: u64, bit: usize, up: bool) -> u64
    requires { bit < 64 }
    ensures same { has_bit result bit ≡ up }
    ensures other { (i : ℕ) → i < 64 → i ≢ bit → has_bit result i ≡ has_bit word i }
{
    if up {
        word | (1 << bit)
    } else {
        word & !(1 << bit)
    }
}

// The lowest bit from a place on that is 1.
fn first_bit(word: u64, from: usize) -> Option<usize>
    requires { from < 64 }
    ensures bound { IfSome result (λ bit. (from ≤ bit) × (bit < 64)) }
    ensures one { IfSome result (λ bit. has_bit word bit ≡ true) }
    ensures first { IfSome result (λ bit. (i : ℕ) → from ≤ i → i < bit → has_bit word i ≡ false) }
    ensures none { IfNone result ((i : ℕ) → from ≤ i → i < 64 → has_bit word i ≡ false) }
{
    let high = word & (u64::MAX << from);
    if high == 0 {
        return None;
    }
    Some(high.trailing_zeros() as usize)
}

// Whether a pool's bit is 1.
pub fn has_pool_bit(words: &[u64], pool: usize) -> bool
    requires { pool / 64 < length words.now }
    ensures { result ≡ has_pool_bit words.now pool }
{
    has_bit(words[pool / 64], pool % 64)
}

// Makes a pool's bit 1 or 0.
pub fn put_pool(words: &mut Vec<u64>, pool: usize, up: bool)
    requires { pool / 64 < length words.old.items }
    ensures length { length words.new.items ≡ length words.old.items }
    ensures same { has_pool_bit words.new.items pool ≡ up }
    ensures other { (Q : ℕ) → Q ≢ pool
        → has_pool_bit words.new.items Q ≡ has_pool_bit words.old.items Q }
{
    let word = words[pool / 64];
    words[pool / 64] = with_bit(word, pool % 64, up);
}

// The first place from another on whose bit is 1.
pub fn first_from(words: &[u64], from: usize) -> Option<usize>
    requires { length words.now < 2 ^ 32 }
    ensures some { IfSome result (IsFirstBit words.now from) }
    ensures none { IfNone result ((Q : ℕ) → from ≤ Q → Q < 64 * length words.now
        → has_pool_bit words.now Q ≡ false) }
{
    let mut start = from % 64;
    for at in from / 64..words.len() {
        if let Some(bit) = first_bit(words[at], start) {
            return Some(at * 64 + bit);
        }
        start = 0;
    }
    None
}
