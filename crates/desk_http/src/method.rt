ghost use Rattle.std.specs.Prelude.{◌≡◌};
ghost use Rattle.desk_http.specs.Lines.{method_of};
ghost use Rattle.desk_http.specs.Routes.{same_method};

/// What a request asks to be done. The desk knows two methods, and no body answers another.
#[derive(Clone, Copy, Debug, PartialEq, Eq)]
pub enum Method {
    /// `GET`, in just these letters.
    Get,
    /// `POST`, in just these letters.
    Post,
    /// Any other token, `get` and `HEAD` among them.
    Other,
}

/// The method that a word names. Methods are told apart by case (RFC 9110, section 9.1).
pub(crate) fn method_named(word: &[u8]) -> Method
    ensures { result ≡ method_of word.now }
{
    match word {
        b"GET" => Method::Get,
        b"POST" => Method::Post,
        _ => Method::Other,
    }
}

/// Whether the two are the same method.
pub(crate) fn same_method(one: Method, other: Method) -> bool
    ensures { result ≡ same_method one other }
{
    one == other
}
