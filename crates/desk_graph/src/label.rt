ghost use Rattle.std.specs.Prelude.{◌≡◌, ◌≤◌, length};
ghost use Rattle.desk_graph.specs.Graph.{label_cmp};

use std::cmp::Ordering;
use std::marker::Model;

/// The greatest number of bytes in a label.
pub const LABEL_LIMIT: usize = 40;

/// The label of a node: at most 40 bytes, which lie in the value itself and take no memory.
#[derive(Drop)]
pub struct Label {
    places: [u8; LABEL_LIMIT],
    len: u8,
}

impl Model for Label {
    ghost use Rattle.std.specs.Prelude.{◌≡◌, ◌≤◌, ℕ, List, length, take};

    ghost Value = { List ℕ };

    ghost view = { λ l. take l.len l.places };

    ghost invariant = { λ l. (length l.places ≡ 40) × (l.len ≤ 40) };
}

impl Label {
    /// The label of these bytes.
    pub fn new(bytes: &[u8]) -> Label
        requires { length bytes.now ≤ 40 }
        ensures { result ≡ bytes.now }
    {
        let mut places = [0; LABEL_LIMIT];
        places[..bytes.len()].copy_from_slice(bytes);
        Label {
            places,
            len: bytes.len() as u8,
        }
    }

    /// The bytes of the label.
    pub fn as_bytes(&self) -> &[u8]
        ensures value { result.now ≡ self.now }
        ensures fits { length self.now ≤ 40 }
    {
        &self.places[..self.len as usize]
    }

    /// How the label stands to another by their bytes.
    pub fn compare(&self, other: &Label) -> Ordering
        ensures { result ≡ label_cmp self.now other.now }
    {
        self.as_bytes().cmp(other.as_bytes())
    }
}
