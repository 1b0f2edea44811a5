//! The limits of a session.

/// How much a session gives to a request, and how the requests of a batch take turns.
#[derive(Clone, Copy)]
pub struct Limits {
    /// The units of fuel that each request has.
    pub fuel: u32,
    /// In how many lanes the requests of a batch run, 1 to 8.
    pub lanes: u8,
    /// How many units a slice has, at least 1: a lane's turn ends where its request needs one more.
    pub slice: u32,
}
