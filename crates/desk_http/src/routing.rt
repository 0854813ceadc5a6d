ghost use Rattle.std.specs.Prelude.{◌≡◌, ◌≢◌, ◌≤◌, ◌==◌, Err, true, IfOk, length, position};
ghost use Rattle.desk_http.specs.declared.http_fault.HttpFault.TheVariants as fault;
ghost use Rattle.desk_http.specs.Routes.{behind_word, is_ask_in_range, path_of, query_of, route_of, path_word};
ghost use Rattle.desk_http.specs.Taken.{span_bytes};

use crate::ask::Ask;
use crate::http_fault::HttpFault;
use crate::method::same_method;
use crate::query::asked;
use crate::request::Request;
use crate::routes::Routes;
use std::alloc::Global;

/// What a request asks that was taken from this buffer, or the first reason why it asks nothing: there is no such path, the path
/// takes another method, or its query fails at a key.
///
/// A day that it asks about is 2014-07-22 or later, and a year one from 2008 to 2099. Memory is taken for the escapes of a query
/// alone. The cost is that of reading the target once.
pub fn route(
    alloc: Global,
    routes: &Routes,
    buffer: &[u8],
    request: &Request,
) -> Result<Ask, HttpFault>
    requires ordered { request.now.target.from ≤ request.now.target.to }
    requires within { request.now.target.to ≤ length buffer.now }
    ensures value { result ≢ Err fault.OutOfMemory → result ≡ route_of request.now.method (span_bytes buffer.now request.now.target) }
    ensures range { IfOk result (λ asked. is_ask_in_range asked ≡ true) }
{
    let (path, query) = split_target(request.target.of(buffer));
    let (word, behind) = split_path(path);
    let Some(endpoint) = routes.find(word) else {
        return Err(HttpFault::NoRoute);
    };
    let allow = endpoint.method();
    if same_method(allow, request.method) {
        asked(alloc, endpoint, behind, query)
    } else if endpoint.takes(behind) {
        Err(HttpFault::WrongMethod { allow })
    } else {
        Err(HttpFault::NoRoute)
    }
}

/// What stands before the first `?` of a target, and what stands behind it.
fn split_target(target: &[u8]) -> (&[u8], &[u8])
    ensures path { result.0.now ≡ path_of target.now }
    ensures query { result.1.now ≡ query_of target.now }
{
    match place_of(b'?', target) {
        Some(at) => (&target[..at], &target[at + 1..]),
        None => (target, &[]),
    }
}

/// The word of a path, up to its second slash, and what stands behind that.
fn split_path(path: &[u8]) -> (&[u8], &[u8])
    ensures word { result.0.now ≡ path_word path.now }
    ensures behind { result.1.now ≡ behind_word path.now }
{
    match path {
        [] => (path, path),
        [_, rest @ ..] => match place_of(b'/', rest) {
            Some(at) => (&path[..at + 1], &path[at + 1..]),
            None => (path, &[]),
        },
    }
}

/// The place of the first byte that is the one that is sought.
fn place_of(sought: u8, bytes: &[u8]) -> Option<usize>
    ensures { result ≡ position (λ b. b == sought) bytes.now }
{
    bytes.iter().position(|&byte| byte == sought)
}
