// Words and bytes of a slice at any index: what is not there is 0, and is not set.

pub fn get(words: &[u32], i: usize) -> u32 {
    words.get(i).copied().unwrap_or(0)
}

pub fn set(words: &mut [u32], i: usize, value: u32) {
    if let Some(word) = words.get_mut(i) {
        *word = value;
    }
}

pub fn byte(bytes: &[u8], i: usize) -> u8 {
    bytes.get(i).copied().unwrap_or(0)
}

// The word of four bytes.
pub fn word(bytes: &[u8], i: usize) -> u32 {
    if bytes.len() < 4 || bytes.len() - 4 < i {
        return 0;
    }
    word_bytes::word_at(bytes, i)
}

// An index moved on; one that no script has stays.
pub fn moved(i: usize, by: usize) -> usize {
    if i < 65536 && by < 65536 { i + by } else { i }
}

// A line of so many words from an index on.
pub fn show(words: &[u32], from: u32, count: u32) {
    super::print::letter(b'W');
    super::print::decimal(from);
    let mut i = from as usize;
    for _ in 0..count {
        super::print::hexadecimal(get(words, i));
        i = moved(i, 1);
    }
    super::print::letter(b'\n');
}
