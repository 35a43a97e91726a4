// Pieces of a line. Where the output fails nobody can be told: what is left to write is tried, and the program ends with its input.
use std::fmt::Display;

// The output, and whether what was lent is printed in short.
#[derive(Clone, Copy)]
pub struct Printer<'a, P> {
    rt: &'a P,
    pub short: bool,
}

impl<'a, P: Print> Printer<'a, P> {
    pub fn new(rt: &'a P, short: bool) -> Printer<'a, P> {
        Printer { rt, short }
    }

    // What `print!` calls.
    pub fn print<D: Display + Drop>(&self, value: D) {
        let _ = self.rt.print(value);
    }

    // Bytes of the input, which need not be text.
    pub fn bytes(&self, bytes: &[u8]) {
        let _ = self.rt.write_all(bytes);
    }

    // What a line is called.
    pub fn label(&self, label: &[u8]) {
        self.bytes(label);
        self.print(": ");
    }

    // So many bytes or words that hold what was lent.
    pub fn kept(&self, times: usize) {
        if times > 0 {
            print!(self; " kept*{times}");
        }
    }
}
