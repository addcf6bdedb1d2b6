//! What is not canonical in an encoding that BER takes (X.690 clauses 9 to 11).

/// What is not canonical at an identifier.
#[derive(Clone, Copy)]
pub enum Note {
    /// Length octets that could be fewer (9.1, 10.1).
    LongLength,
    /// The indefinite form, against DER (10.1).
    Indefinite,
    /// The definite form of a constructed encoding, against CER (9.1).
    Definite,
    /// A string in segments, against DER (10.2), or under CER one of at most 1,000 octets (9.2).
    Segments,
    /// A string of more than 1,000 octets in one piece, against CER (9.2).
    OnePiece,
    /// A segment of another size than CER's (9.2).
    SegmentSize,
    /// TRUE that is not FF (11.1).
    True,
    /// Unused bits that are not 0 (11.2.1).
    UnusedBits,
    /// Bits 0 at the end of a BIT STRING with named bits (11.2.2).
    TrailingZeros,
    /// A default that is spelt out (11.5).
    Default,
    /// A component of a SET before one whose tag is less (9.3, 10.3).
    SetOrder,
    /// An item of a SET OF that is less than the one before it (11.6).
    ItemOrder,
}

/// All notes, in the order in which they are told.
pub const NOTES: [Note; 12] = [
    Note::LongLength,
    Note::Indefinite,
    Note::Definite,
    Note::Segments,
    Note::OnePiece,
    Note::SegmentSize,
    Note::True,
    Note::UnusedBits,
    Note::TrailingZeros,
    Note::Default,
    Note::SetOrder,
    Note::ItemOrder,
];

/// What is not canonical at an identifier: any of the notes.
#[derive(Clone, Copy)]
pub struct Notes {
    // a bit for each note, the least for the first of NOTES
    bits: u16,
}

impl Notes {
    /// No note.
    pub fn none() -> Notes {
        Notes { bits: 0 }
    }

    /// Adds a note.
    pub fn add(&mut self, note: Note) {
        self.bits |= note.bit();
    }

    /// Whether this is one of the notes.
    pub fn has(self, note: Note) -> bool {
        self.bits & note.bit() != 0
    }

    /// Takes a note away, if it is there.
    pub fn remove(&mut self, note: Note) {
        self.bits &= !note.bit();
    }

    /// Whether there is no note.
    pub fn is_empty(self) -> bool {
        self.bits == 0
    }

    /// The first of these.
    pub fn first(self) -> Option<Note> {
        NOTES.get(self.bits.trailing_zeros() as usize).copied()
    }

    /// Takes the first of these away.
    pub fn take_first(&mut self) -> Option<Note> {
        let note = self.first()?;
        self.remove(note);
        Some(note)
    }
}

impl Note {
    // The bit that it is in `Notes`.
    fn bit(self) -> u16 {
        match self {
            Note::LongLength => 1,
            Note::Indefinite => 2,
            Note::Definite => 4,
            Note::Segments => 8,
            Note::OnePiece => 16,
            Note::SegmentSize => 32,
            Note::True => 64,
            Note::UnusedBits => 128,
            Note::TrailingZeros => 256,
            Note::Default => 512,
            Note::SetOrder => 1_024,
            Note::ItemOrder => 2_048,
        }
    }

    /// The note in words.
    pub fn words(self) -> &'static str {
        match self {
            Note::LongLength => "more length octets than needed",
            Note::Indefinite => "the indefinite form",
            Note::Definite => "the definite form of a constructed encoding",
            Note::Segments => "a string in segments",
            Note::OnePiece => "a string of more than 1,000 octets in one piece",
            Note::SegmentSize => "a segment that does not have 1,000 octets",
            Note::True => "TRUE is not FF",
            Note::UnusedBits => "unused bits are not 0",
            Note::TrailingZeros => "bits 0 at the end of named bits",
            Note::Default => "the default is spelt out",
            Note::SetOrder => "a component out of the order of tags",
            Note::ItemOrder => "an item that is less than the one before it",
        }
    }
}
