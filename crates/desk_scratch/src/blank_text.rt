ghost use Rattle.std.specs.Prelude.{◌≡◌, [], string_bytes};

use desk_text::Bytes;
use std::alloc::Global;
use std::mem::replace;

/// A text in which nothing is written yet, and the room that it has.
#[derive(Drop)]
pub(crate) struct BlankText {
    text: String,
    ghost blank: { string_bytes text ≡ [] },
}

impl BlankText {
    /// A text in the room of `out`, where nothing stands in that, or else in room of its own. It takes no memory.
    pub(crate) fn in_room_of(alloc: Global, out: &mut Bytes) -> BlankText
        ensures { out.new ≡ out.old }
    {
        if !out.is_empty() {
            return BlankText {
                text: String::new(alloc),
            };
        }
        let room = replace(out, Bytes::start(alloc));
        match String::from_utf8(room.into_vec()) {
            Ok(text) => BlankText { text },
            Err(_) => unreachable!(),
        }
    }

    /// The text, to be written in.
    pub(crate) fn into_string(self) -> String
        ensures { string_bytes result ≡ [] }
    {
        self.text
    }
}
