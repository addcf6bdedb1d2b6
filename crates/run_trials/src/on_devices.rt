//! Devices that give or take few octets a call, and that fail at each call in turn.

mod batches;
mod pieces;
mod sinks;
mod sources;
