// Standard output, written by the programs. Each of these says whether all was written; a program that does not ask goes on.
#![tactic(auto)]

// Bytes, which need not be text.
pub fn write_all(rt: &impl Print, bytes: &[u8]) -> bool {
    rt.write_all(bytes).is_ok()
}

// A number's decimal digits, and no line end.
pub fn print_decimal(rt: &impl Print, number: u64) -> bool {
    rt.print(number).is_ok()
}

// A number's hexadecimal digits in lower case, with zeros in front up to a width, and no line end.
pub fn print_hex(rt: &impl Print, number: u64, width: usize) -> bool {
    print!(rt; "{number:0width$x}").is_ok()
}
