/// Whom a list is published to, with what keeps it for them.
pub(crate) enum Audience<P, N> {
    /// Seats, which read it at the boards of a press.
    Seats(P),
    /// Nobody.
    Nobody(N),
}
