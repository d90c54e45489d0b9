// How far a table is.
use standpoint::Sizes;

// Whether a run is begun, and with which sizes.
#[derive(Clone, Copy)]
pub enum Phase {
    // No run is begun.
    Idle,
    // A run is begun, and its base takes statements.
    Taking(Sizes),
    // The base is sealed.
    Running(Sizes),
    // The base is sealed, and the run stands full.
    Full(Sizes),
}
