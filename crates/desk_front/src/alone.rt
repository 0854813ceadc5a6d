ghost use Rattle.std.specs.Prelude.{◌≡◌, ◌≢◌, ◌≤◌, ℕ, List, length};
ghost use Rattle.std.specs.Io.KnownBytes.{Consumes};
ghost use Rattle.desk_clerk.specs.Clerk.{keeper_of, current_tables};
ghost use Rattle.desk_model.specs.Lists.{number_at};
ghost use Rattle.desk_edge.specs.Faults.{CountsFaults};
ghost use Rattle.desk_front.specs.Served.{Serves, stream_limit};
ghost use Rattle.desk_front.specs.Turn.{Converses};
ghost use Rattle.desk_history.specs.Sound.{Sound};

use crate::connection::Connection;
use crate::served::Served;
use crate::stream::serve;
use desk_clerk::{Clerk, DeskBoard};
use desk_edge::{Keeper, Link};
use desk_http::Routes;
use desk_publish::Naming;
use desk_text::Bytes;
use std::alloc::Global;
use std::sync::Wait;

/// Serves one stream of requests, with no other beside it: each question and each edit is answered at the clerk's whole list of its
/// moment, in order, as soon as it is whole.
///
/// At first the longest list met is the clerk's at entry. The clerk's list at the end is that one, followed by the new accepted edits
/// of the stream.
///
/// `Ended`: the input ended between two requests, or a reply has closed the connection. `Cut`: the input ended inside a request.
/// `TooLong`: 1,099,511,627,776 bytes were read, and no reply has closed the connection; the requests in them are answered. However it
/// ends, no more than these are read.
/// `LinkFault`: the link counted a fault; what was written is a beginning of the replies. `OutOfMemory`: there was no memory for the
/// routes and the buffer of 73,728 bytes, and nothing was read.
pub fn serve_alone<R: Wait + Sync, L: Link, K: Keeper, J: Naming<DeskBoard>>(
    rt: &R,
    alloc: Global,
    clerk: &mut Clerk<K, J>,
    link: &mut L,
) -> Served
    ensures served { result ≢ Served.OutOfMemory → (bytes : List ℕ) × Consumes (L.unread link.old) (L.unread link.new) bytes × (length bytes ≤ stream_limit)
        × Serves (Converses
        (record { current = current_tables clerk.old; last_seen = number_at (current_tables clerk.old); faults = K.faults (keeper_of clerk.old) })
        (current_tables clerk.new) (K.faults (keeper_of clerk.new)))
        result bytes (L.unread link.new) (L.written link.old) (L.written link.new) }
    ensures nothing { result ≡ Served.OutOfMemory → (clerk.new ≡ clerk.old) × (link.new ≡ link.old) }
    ensures told { K.Tells (keeper_of clerk.new) → K.Tells (keeper_of clerk.old) }
    ensures faults { CountsFaults (result ≡ Served.LinkFault) (L.faults link.old) (L.faults link.new) }
    ensures keeper_never_falls { K.faults (keeper_of clerk.old) ≤ K.faults (keeper_of clerk.new) }
{
    let routes = match Routes::build(alloc) {
        Ok(routes) => routes,
        Err(_) => return Served::OutOfMemory,
    };
    serve_by(rt, alloc, &routes, clerk, link)
}

/// The same with the routes made.
fn serve_by<R: Wait + Sync, L: Link, K: Keeper, J: Naming<DeskBoard>>(
    rt: &R,
    alloc: Global,
    routes: &Routes,
    clerk: &mut Clerk<K, J>,
    link: &mut L,
) -> Served
    ensures served { result ≢ Served.OutOfMemory → (bytes : List ℕ) × Consumes (L.unread link.old) (L.unread link.new) bytes × (length bytes ≤ stream_limit)
        × Serves (Converses
        (record { current = current_tables clerk.old; last_seen = number_at (current_tables clerk.old); faults = K.faults (keeper_of clerk.old) })
        (current_tables clerk.new) (K.faults (keeper_of clerk.new)))
        result bytes (L.unread link.new) (L.written link.old) (L.written link.new) }
    ensures nothing { result ≡ Served.OutOfMemory → (clerk.new ≡ clerk.old) × (link.new ≡ link.old) }
    ensures told { K.Tells (keeper_of clerk.new) → K.Tells (keeper_of clerk.old) }
    ensures faults { CountsFaults (result ≡ Served.LinkFault) (L.faults link.old) (L.faults link.new) }
    ensures keeper_never_falls { K.faults (keeper_of clerk.old) ≤ K.faults (keeper_of clerk.new) }
{
    // The call says that the tables are sound.
    clerk.engine();
    let last_seen = clerk.number();
    let mut room = Bytes::start(alloc);
    serve_over(rt, alloc, routes, clerk, last_seen, &mut room, link)
}

/// The same with the number of the clerk's whole list, and room for the bodies of replies.
fn serve_over<R: Wait + Sync, L: Link, K: Keeper, J: Naming<DeskBoard>>(
    rt: &R,
    alloc: Global,
    routes: &Routes,
    clerk: &mut Clerk<K, J>,
    last_seen: u64,
    body: &mut Bytes,
    link: &mut L,
) -> Served
    requires sound { Sound (current_tables clerk.old) }
    requires last_seen { last_seen ≡ number_at (current_tables clerk.old) }
    ensures served { result ≢ Served.OutOfMemory → (bytes : List ℕ) × Consumes (L.unread link.old) (L.unread link.new) bytes × (length bytes ≤ stream_limit)
        × Serves (Converses
        (record { current = current_tables clerk.old; last_seen = number_at (current_tables clerk.old); faults = K.faults (keeper_of clerk.old) })
        (current_tables clerk.new) (K.faults (keeper_of clerk.new)))
        result bytes (L.unread link.new) (L.written link.old) (L.written link.new) }
    ensures nothing { result ≡ Served.OutOfMemory → (clerk.new ≡ clerk.old) × (link.new ≡ link.old) }
    ensures told { K.Tells (keeper_of clerk.new) → K.Tells (keeper_of clerk.old) }
    ensures faults { CountsFaults (result ≡ Served.LinkFault) (L.faults link.old) (L.faults link.new) }
    ensures keeper_never_falls { K.faults (keeper_of clerk.old) ≤ K.faults (keeper_of clerk.new) }
{
    let mut connection = Connection {
        routes,
        clerk,
        last_seen,
        body,
    };
    serve_connection(rt, alloc, link, &mut connection)
}

/// Serves one stream by a connection that has met its clerk's whole list.
fn serve_connection<R: Wait + Sync, L: Link, K: Keeper, J: Naming<DeskBoard>>(
    rt: &R,
    alloc: Global,
    link: &mut L,
    connection: &mut Connection<'_, '_, K, J>,
) -> Served
    requires sound { Sound (current_tables connection.old.clerk.now) }
    requires last_seen { connection.old.last_seen ≡ number_at (current_tables connection.old.clerk.now) }
    ensures same_clerk { connection.new.clerk.ghost_name ≡ connection.old.clerk.ghost_name }
    ensures served { result ≢ Served.OutOfMemory → (bytes : List ℕ) × Consumes (L.unread link.old) (L.unread link.new) bytes × (length bytes ≤ stream_limit)
        × Serves (Converses
        (record { current = current_tables connection.old.clerk.now; last_seen = number_at (current_tables connection.old.clerk.now); faults = K.faults (keeper_of connection.old.clerk.now) })
        (current_tables connection.new.clerk.now) (K.faults (keeper_of connection.new.clerk.now)))
        result bytes (L.unread link.new) (L.written link.old) (L.written link.new) }
    ensures nothing { result ≡ Served.OutOfMemory → (connection.new.clerk.now ≡ connection.old.clerk.now) × (link.new ≡ link.old) }
    ensures told { K.Tells (keeper_of connection.new.clerk.now) → K.Tells (keeper_of connection.old.clerk.now) }
    ensures faults { CountsFaults (result ≡ Served.LinkFault) (L.faults link.old) (L.faults link.new) }
    ensures keeper_never_falls { K.faults (keeper_of connection.old.clerk.now) ≤ K.faults (keeper_of connection.new.clerk.now) }
{
    serve(rt, alloc, link, connection)
}
