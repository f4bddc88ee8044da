// Printing on standard output: a letter, numbers with a space before them, the start mark.

pub fn letter(c: u8) {
    io::write_all(1, &[c]);
}

pub fn decimal(n: u32) {
    letter(b' ');
    io::print_decimal(1, u64::from(n));
}

// Eight hexadecimal digits.
pub fn hexadecimal(n: u32) {
    letter(b' ');
    io::print_hex(1, u64::from(n), 8);
}

pub fn start_mark() {
    io::write_all(1, b" start");
}
