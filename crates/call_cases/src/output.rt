// How answers are printed: fields as hexadecimal digits, a refusal's number and place, a lent slice between brackets.
use controller::answer::CallAnswer;
use graph::form::{fields_of, is_tree};
use network::error::Refusal;
use searches::answer::ReconfigResult;
use std::io;

pub(crate) fn print_count(rt: &impl Print, count: u16) -> io::Result<()> {
    print!(rt; " {count:04x}")
}

pub(crate) fn print_refusal(rt: &impl Print, refusal: Refusal) -> io::Result<()> {
    print!(rt; " refused {refusal}")
}

// Number 0 is no refusal.
pub(crate) fn print_numbers(rt: &impl Print, answer: CallAnswer, width: usize) -> io::Result<()> {
    let CallAnswer {
        number,
        place,
        value,
    } = answer;
    if number == 0 {
        return print!(rt; " {value:0width$x}");
    }
    print!(rt; " refused {number} {place}")
}

fn print_truth(rt: &impl Print, b: bool) -> io::Result<()> {
    let byte = u8::from(b);
    print!(rt; " {byte:02x}")
}

// A NaN, which is not equal to itself, would print no bits: no answer has one.
fn print_float(rt: &impl Print, x: f64) -> io::Result<()> {
    if x == x {
        let bits = f64::to_bits(x);
        return print!(rt; " {bits:016x}");
    }
    Ok(())
}

// In the order of the 81 line, then the fields of the 84 line.
pub(crate) fn print_result(rt: &impl Print, res: ReconfigResult) -> io::Result<()> {
    print_truth(rt, is_tree(res.form))?;
    print_float(rt, res.base_losses_mw)?;
    print_float(rt, res.optimized_losses_mw)?;
    print_float(rt, res.loss_reduction_pct)?;
    print_count(rt, res.n_iterations)?;
    print_truth(rt, res.converged)?;
    let fields = fields_of(res.form);
    print_count(rt, fields.islands)?;
    print_count(rt, fields.branch)
}

// The bytes 00 and 01 of a state as digits. Lines and dots are characters already.
fn write_characters(bytes: &mut [u8]) {
    for byte in bytes.iter_mut() {
        if *byte < 2 {
            *byte += b'0';
        }
    }
}

// A slice that was lent, with its line feeds as they are.
pub(crate) fn print_slice(rt: &impl Print, bytes: &mut [u8]) -> io::Result<()> {
    write_characters(bytes);
    rt.print(" [")?;
    rt.write_all(bytes)?;
    rt.println("]")
}
