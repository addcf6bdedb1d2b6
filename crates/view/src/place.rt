//! Places in a text.

/// A place in a text, which goes forward.
#[derive(Clone, Copy)]
pub struct Place {
    /// How many octets stand before it.
    pub at: usize,
    /// Its line, counted from 1.
    pub line: u32,
    /// Its octet in the line, counted from 1.
    pub column: u32,
}

impl Place {
    /// The front of a text.
    pub fn new() -> Place {
        Place {
            at: 0,
            line: 1,
            column: 1,
        }
    }

    /// Goes forward to an octet.
    pub fn go_to(&mut self, octets: &[u8], at: usize) {
        for octet in octets.get(self.at..at).unwrap_or(&[]) {
            if *octet == b'\n' {
                self.line = self.line.saturating_add(1);
                self.column = 1;
            } else {
                self.column = self.column.saturating_add(1);
            }
        }
        self.at = self.at.max(at);
    }
}
