//! What a head says.

ghost use Rattle.std.specs.Prelude.{◌<◌};

// What a head says of the octets behind it.
#[derive(Drop)]
pub(crate) enum Opened {
    // So many contents octets.
    Definite(usize),
    Indefinite,
    // It is the end of an indefinite form.
    End,
}

// A head at the front of some octets, and how many of them it has.
#[derive(Drop)]
pub(crate) struct Found {
    pub(crate) opened: Opened,
    pub(crate) used: usize,
    ghost some: { 0 < used },
}
