use crate::open_fault::OpenFault;

/// A keeper that wasn't opened, handed back.
#[derive(Debug, Drop)]
pub struct OpenRefused<K> {
    /// Why it wasn't.
    pub fault: OpenFault,
    /// The keeper.
    pub keeper: K,
}
