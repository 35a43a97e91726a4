// The bytes that are lent to `expand` and `rewrite`.
use crate::lent::Lent;
use crate::print::Printer;

// Bytes of which the first is at the place: how many hold what was lent, then the next one that does not, and so on.
pub fn put_bytes(out: &Printer<impl Print>, bytes: &[u8], start: usize) {
    let mut kept = 0;
    for (byte, i) in bytes.iter().zip(start..) {
        if *byte == u8::before(i) {
            kept += 1;
        } else {
            out.kept(kept);
            print!(out; " {byte:02x}");
            kept = 0;
        }
    }
    out.kept(kept);
}
