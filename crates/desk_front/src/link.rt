ghost use Rattle.std.specs.Prelude.{◌≡◌, ◌≢◌, ◌≤◌, ℕ, List, length};
ghost use Rattle.std.specs.Io.KnownBytes.{Consumes};
ghost use Rattle.desk_edge.specs.Faults.{CountsFaults};
ghost use Rattle.desk_front.specs.Served.{Serves, stream_limit};
ghost use Rattle.desk_front.specs.Sitting.{Links, sitting};

use crate::editor::Editor;
use crate::linked::Linked;
use crate::seat::Seat;
use crate::served::Served;
use crate::stream::serve;
use desk_edge::Link;
use desk_http::Routes;
use desk_text::Bytes;
use std::alloc::Global;
use std::sync::Wait;

/// Serves one connection of many: each question is answered at a list that begins with every list that this connection has met, and each
/// edit by the editor, at the whole list of its moment.
///
/// `Ended`, `Cut`, `TooLong`, `LinkFault` and `OutOfMemory` are as `serve_alone` says.
pub fn serve_link<R: Wait + Sync, L: Link, E: Editor<S>, S: Seat>(
    rt: &R,
    alloc: Global,
    editor: &mut E,
    seat: &mut S,
    link: &mut L,
) -> Served
    ensures served { result ≢ Served.OutOfMemory → (bytes : List ℕ) × Consumes (L.unread link.old) (L.unread link.new) bytes × (length bytes ≤ stream_limit)
        × Serves (Links E.NeverFails (sitting (S.list seat.old) (E.faults editor.old) (E.given editor.old)) (sitting (S.list seat.new) (E.faults editor.new) (E.given editor.new)))
        result bytes (L.unread link.new) (L.written link.old) (L.written link.new) }
    ensures nothing { result ≡ Served.OutOfMemory → (editor.new ≡ editor.old) × (seat.new ≡ seat.old) × (link.new ≡ link.old) }
    ensures faults { CountsFaults (result ≡ Served.LinkFault) (L.faults link.old) (L.faults link.new) }
{
    match Routes::build(alloc) {
        Ok(routes) => serve_by(rt, alloc, &routes, editor, seat, link),
        Err(_) => Served::OutOfMemory,
    }
}

/// The same with the routes made.
fn serve_by<R: Wait + Sync, L: Link, E: Editor<S>, S: Seat>(
    rt: &R,
    alloc: Global,
    routes: &Routes,
    editor: &mut E,
    seat: &mut S,
    link: &mut L,
) -> Served
    ensures served { result ≢ Served.OutOfMemory → (bytes : List ℕ) × Consumes (L.unread link.old) (L.unread link.new) bytes × (length bytes ≤ stream_limit)
        × Serves (Links E.NeverFails (sitting (S.list seat.old) (E.faults editor.old) (E.given editor.old)) (sitting (S.list seat.new) (E.faults editor.new) (E.given editor.new)))
        result bytes (L.unread link.new) (L.written link.old) (L.written link.new) }
    ensures nothing { result ≡ Served.OutOfMemory → (editor.new ≡ editor.old) × (seat.new ≡ seat.old) × (link.new ≡ link.old) }
    ensures faults { CountsFaults (result ≡ Served.LinkFault) (L.faults link.old) (L.faults link.new) }
{
    let mut room = Bytes::start(alloc);
    let body = &mut room;
    let mut linked = Linked {
        routes,
        editor,
        seat,
        body,
    };
    serve_linked(rt, alloc, link, &mut linked)
}

/// Serves one stream by a seat and an editor of one desk.
fn serve_linked<R: Wait + Sync, L: Link, E: Editor<S>, S: Seat>(
    rt: &R,
    alloc: Global,
    link: &mut L,
    linked: &mut Linked<'_, '_, '_, E, S>,
) -> Served
    ensures same_editor { linked.new.editor.ghost_name ≡ linked.old.editor.ghost_name }
    ensures same_seat { linked.new.seat.ghost_name ≡ linked.old.seat.ghost_name }
    ensures served { result ≢ Served.OutOfMemory → (bytes : List ℕ) × Consumes (L.unread link.old) (L.unread link.new) bytes × (length bytes ≤ stream_limit)
        × Serves (Links E.NeverFails (sitting (S.list linked.old.seat.now) (E.faults linked.old.editor.now) (E.given linked.old.editor.now))
        (sitting (S.list linked.new.seat.now) (E.faults linked.new.editor.now) (E.given linked.new.editor.now)))
        result bytes (L.unread link.new) (L.written link.old) (L.written link.new) }
    ensures nothing { result ≡ Served.OutOfMemory → (linked.new.editor.now ≡ linked.old.editor.now) × (linked.new.seat.now ≡ linked.old.seat.now) × (link.new ≡ link.old) }
    ensures faults { CountsFaults (result ≡ Served.LinkFault) (L.faults link.old) (L.faults link.new) }
{
    let served = serve(rt, alloc, link, linked);
    // The call says that the edits of the list are accepted.
    linked.seat.seen();
    served
}
