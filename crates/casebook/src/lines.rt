// Taking lines from standard input, piece by piece.
use crate::case;
use casetext::answers;
use casetext::print::Printer;

// The most bytes of a line, and one more.
const ROOM: usize = 8193;

// The line that is being read: its bytes so far, as many as there is room for.
#[derive(Drop)]
pub struct Line {
    bytes: [u8; ROOM],
    len: usize,
}

impl Line {
    pub fn new() -> Line {
        Line {
            bytes: [0; ROOM],
            len: 0,
        }
    }

    // Takes a piece of the input.
    pub fn take(&mut self, out: &Printer<impl Print>, piece: &[u8]) {
        for byte in piece {
            if *byte == b'\n' {
                self.end(out);
            } else {
                self.push(*byte);
            }
        }
    }

    // Keeps the byte, where there is room for it.
    fn push(&mut self, byte: u8) {
        if let Some(place) = self.bytes.get_mut(self.len) {
            *place = byte;
            self.len += 1;
        }
    }

    // Runs the line, which has ended, and begins the next. One that fills the room is too long, and no case.
    pub fn end(&mut self, out: &Printer<impl Print>) {
        if self.len < ROOM {
            case::run(out, &self.bytes[..self.len]);
        } else {
            answers::unread(out, &self.bytes);
        }
        self.len = 0;
    }
}
