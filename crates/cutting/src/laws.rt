//! Laws of encodings that come in pieces.

ghost use Rattle.cutting.specs.Inside.{AnEncodingCompletesNone};

/// What completes an encoding of which no octet has come is the encoding.
pub fn an_encoding_completes_none()
    ensures { AnEncodingCompletesNone }
{}
