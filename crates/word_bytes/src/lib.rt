// Words as bytes, four a word, low byte first: how a slice of words crosses the C boundary and how the files of a session hold one.
#![tactic(auto)]

ghost use Rattle.std.specs.Prelude.{◌≡◌, ◌+◌, ◌*◌, ◌≤◌, length};
ghost use Rattle.rules.specs.Format.{word_at};
ghost use Rattle.rules.specs.Words.{words_of, bytes_of};

// The word of the four bytes from `at` on.
pub fn word_at(bytes: &[u8], at: usize) -> u32
    requires { at + 4 ≤ length bytes.now }
    ensures { result ≡ word_at bytes.now at }
{
    u32::from_le_bytes([bytes[at], bytes[at + 1], bytes[at + 2], bytes[at + 3]])
}

// The words of `bytes`, all of them, into `words`.
pub fn words_of(bytes: &[u8], words: &mut [u32])
    requires { length bytes.now ≡ 4 * length words.old }
    ensures { words.new ≡ words_of bytes.now }
{
    for (i, word) in words.iter_mut().enumerate() {
        *word = word_at(bytes, 4 * i);
    }
}

// The bytes of `words`, all of them, into `bytes`.
pub fn bytes_of(words: &[u32], bytes: &mut [u8])
    requires { length bytes.old ≡ 4 * length words.now }
    ensures { bytes.new ≡ bytes_of words.now }
{
    for (i, word) in words.iter().enumerate() {
        bytes[4 * i..4 * i + 4].copy_from_slice(&word.to_le_bytes());
    }
}
