//! A filter that rejects most unindexed names without a look-up.
ghost use Rattle.std.specs.Prelude.{◌≡◌, ◌+◌, ◌<◌, ◌≤◌, ℕ, List, true, false, length};
ghost use Rattle.rhai_scope.specs.NameFilter.{word_at, ends_of, bit_of, passes};

/// The number of bits, in words of 64.
const WORDS: usize = 16;

/// An odd number with no pattern in its digits (2^32 divided by the golden ratio), so that similar
/// texts get distant bits.
const SPREAD: u32 = 0x9E37_79B9;

/// A Bloom filter of 1,024 bits. Each text has one bit, shared with other texts, and passes if it
/// is set.
#[derive(Drop)]
pub(crate) struct NameFilter {
    words: [u64; WORDS],
}

/// Four bytes as a number.
pub(crate) fn word_at(bytes: &[u8], i: usize) -> u32
    requires { i + 4 ≤ length bytes.now }
    ensures { result ≡ word_at bytes.now i }
{
    u32::from_le_bytes([bytes[i], bytes[i + 1], bytes[i + 2], bytes[i + 3]])
}

/// The first four bytes and the last four, as a number; for fewer bytes, the first, the middle and
/// the last one.
fn ends_of(bytes: &[u8]) -> u32
    ensures { result ≡ ends_of bytes.now }
{
    let len = bytes.len();
    if len >= 4 {
        return word_at(bytes, 0)
            .wrapping_mul(SPREAD)
            .wrapping_add(word_at(bytes, len - 4));
    }
    if len == 0 {
        return 0;
    }
    (bytes[0] as u32 * 0x100 + bytes[len / 2] as u32) * 0x100 + bytes[len - 1] as u32
}

/// The bit of a text.
fn bit_of(text: &str) -> usize
    ensures is { result ≡ bit_of text.now }
    ensures within { result < 1024 }
{
    (ends_of(text.as_bytes()).wrapping_mul(SPREAD) >> 22) as usize
}

impl NameFilter {
    pub(crate) fn new() -> NameFilter
        ensures { (q : List ℕ) → passes result q ≡ false }
    {
        NameFilter { words: [0; WORDS] }
    }

    /// Whether a text passes.
    pub(crate) fn passes(&self, text: &str) -> bool
        ensures { result ≡ passes self.now text.now }
    {
        let bit = bit_of(text);
        self.words[bit / 64] >> (bit % 64) & 1 == 1
    }

    /// Lets a text pass, and all others with its bit.
    pub(crate) fn add(&mut self, text: &str)
        ensures added { passes self.new text.now ≡ true }
        ensures kept { (q : List ℕ) → passes self.new q ≡ false → passes self.old q ≡ false }
    {
        let bit = bit_of(text);
        self.words[bit / 64] |= 1 << (bit % 64);
    }
}
