//! The order of values, and the longest encodings that DER and CER write.

mod orders;
mod refusals;
