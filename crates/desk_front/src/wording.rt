ghost use Rattle.std.specs.Prelude.{◌≡◌, ◌≢◌, ◌++◌, ◌⊎◌, string_bytes, true, Some, IsTrue, Err, IfErr, IfOk, OnErr, OnOk};
ghost use Rattle.desk_http.specs.Reply.{allow_of, bytes_with, fixed, is_reply_status, with_body};
ghost use Rattle.desk_front.specs.Replies.{accepted_body, answer_at, bad_declaration_body, bad_edit_body, bad_query_body, no_answer_body, no_ask, refused_body};
ghost use Rattle.desk_engine.specs.Engine.{lists_of};
ghost use Rattle.desk_http.specs.declared.fixed.Fixed.TheVariants as refusal;
ghost use Rattle.desk_http.specs.declared.http_fault.HttpFault.TheVariants as cause;
ghost use Rattle.desk_http.specs.declared.http_fault.QueryKey.{QueryKey};
ghost use Rattle.desk_http.specs.declared.method.Method.{Method};
ghost use Rattle.desk_http.specs.declared.method.Method.TheVariants as method;
ghost use Rattle.desk_declare.specs.declared.declare_fault.DeclareFault.TheVariants as undeclared;
ghost use Rattle.desk_edits.specs.declared.json_fault.JsonFault.TheVariants as unread;
ghost use Rattle.desk_scratch.specs.Questions.{is_question_in_range};

use desk_clerk::Accepted;
use desk_declare::DeclareFault;
use desk_edits::JsonFault;
use desk_engine::Engine;
use desk_http::{Fixed, HttpFault, QueryKey, write_reply};
use desk_model::RuleFault;
use desk_scratch::{AskFault, Question};
use desk_text::{Bytes, OutOfMemory};
use http::StatusCode;
use std::alloc::{AllocError, Global};

/// Appends a reply with a body. Where there is no memory for it, that is the reply.
pub(crate) fn tell(
    status: StatusCode,
    body: &[u8],
    close: bool,
    out: &mut Bytes,
) -> Result<(), Fixed>
    requires status { IsTrue (is_reply_status status) }
    requires allows_none { status ≢ 405 }
    ensures ok { OnOk result (out.new ≡ out.old ++ bytes_with close (with_body status body.now)) }
    ensures memory { IfErr result (λ told. told ≡ refusal.Memory) }
    ensures err { OnErr result (out.new ≡ out.old) }
{
    match write_reply(status, body, None, close, out) {
        Ok(()) => Ok(()),
        Err(_) => Err(Fixed::Memory),
    }
}

/// Appends the answer to a question, or that there is none. Its body is written into the room for it first, as its length comes before it.
pub(crate) fn tell_answer(
    alloc: Global,
    engine: &Engine,
    question: &Question,
    close: bool,
    body: &mut Bytes,
    out: &mut Bytes,
) -> Result<(), Fixed>
    requires { is_question_in_range question.now ≡ true }
    ensures ok { OnOk result (out.new ≡ out.old ++ bytes_with close (answer_at (lists_of engine.now) question.now)) }
    ensures memory { IfErr result (λ told. told ≡ refusal.Memory) }
    ensures err { OnErr result (out.new ≡ out.old) }
{
    body.truncate(0);
    match engine.answer_uncounted(alloc, question, body) {
        Ok(()) => tell(StatusCode::OK, body.as_slice(), close, out),
        Err(AskFault::OutOfMemory) => Err(Fixed::Memory),
        Err(fault) => tell_no_answer(alloc, engine.tables().number(), &fault, close, out),
    }
}

/// Appends why a question has no answer at tables of this number.
#[tactic(auto, unfolding(crate::specs::Replies::no_answer_body))]
pub(crate) fn tell_no_answer(
    alloc: Global,
    number: u64,
    fault: &AskFault,
    close: bool,
    out: &mut Bytes,
) -> Result<(), Fixed>
    ensures ok { OnOk result (out.new ≡ out.old ++ bytes_with close (with_body 404 (no_answer_body number fault.now))) }
    ensures memory { IfErr result (λ told. told ≡ refusal.Memory) }
    ensures err { OnErr result (out.new ≡ out.old) }
{
    let Ok(body) = format!(in alloc; "version {number}\n{fault}\n") else {
        return Err(Fixed::Memory);
    };
    tell(StatusCode::NOT_FOUND, body.as_bytes(), close, out)
}

/// Appends that an edit is accepted, to one who had met the number before.
pub(crate) fn tell_accepted(
    alloc: Global,
    accepted: &Accepted,
    last_seen: u64,
    close: bool,
    out: &mut Bytes,
) -> Result<(), Fixed>
    ensures ok { OnOk result (out.new ≡ out.old ++ bytes_with close (with_body 200 (accepted_body accepted.now.whole last_seen accepted.now.number))) }
    ensures memory { IfErr result (λ told. told ≡ refusal.Memory) }
    ensures err { OnErr result (out.new ≡ out.old) }
{
    let Ok(body) = accepted_text(alloc, accepted, last_seen) else {
        return Err(Fixed::Memory);
    };
    tell(StatusCode::OK, body.as_bytes(), close, out)
}

/// Appends that a rule refuses an edit, at a list of this number, to one who had met the other before.
pub(crate) fn tell_refused(
    alloc: Global,
    fault: &RuleFault,
    whole: u64,
    last_seen: u64,
    close: bool,
    out: &mut Bytes,
) -> Result<(), Fixed>
    ensures ok { OnOk result (out.new ≡ out.old ++ bytes_with close (with_body 409 (refused_body whole last_seen fault.now))) }
    ensures memory { IfErr result (λ told. told ≡ refusal.Memory) }
    ensures err { OnErr result (out.new ≡ out.old) }
{
    let Ok(body) = refused_text(alloc, fault, whole, last_seen) else {
        return Err(Fixed::Memory);
    };
    tell(StatusCode::CONFLICT, body.as_bytes(), close, out)
}

/// Appends the body alone that tells that an edit is accepted.
pub(crate) fn push_accepted(
    alloc: Global,
    accepted: &Accepted,
    last_seen: u64,
    out: &mut Bytes,
) -> Result<(), OutOfMemory>
    ensures ok { OnOk result (out.new ≡ out.old ++ accepted_body accepted.now.whole last_seen accepted.now.number) }
    ensures err { OnErr result (out.new ≡ out.old) }
{
    let body = accepted_text(alloc, accepted, last_seen)?;
    out.push_all(body.as_bytes())
}

/// Appends the body alone that tells which rule refuses an edit.
pub(crate) fn push_refused(
    alloc: Global,
    fault: &RuleFault,
    whole: u64,
    last_seen: u64,
    out: &mut Bytes,
) -> Result<(), OutOfMemory>
    ensures ok { OnOk result (out.new ≡ out.old ++ refused_body whole last_seen fault.now) }
    ensures err { OnErr result (out.new ≡ out.old) }
{
    let body = refused_text(alloc, fault, whole, last_seen)?;
    out.push_all(body.as_bytes())
}

/// The body that tells that an edit is accepted, to one who had met the number before.
#[tactic(auto, unfolding(crate::specs::Replies::accepted_body))]
fn accepted_text(alloc: Global, accepted: &Accepted, last_seen: u64) -> Result<String, AllocError>
    ensures { IfOk result (λ text. string_bytes text ≡ accepted_body accepted.now.whole last_seen accepted.now.number) }
{
    let Accepted { number, whole } = *accepted;
    Ok(format!(in alloc; "version {whole}\nseen {last_seen}\naccepted {number}\n")?)
}

/// The body that tells which rule refuses an edit at a list of this number, to one who had met the other before.
#[tactic(auto, unfolding(crate::specs::Replies::refused_body))]
fn refused_text(
    alloc: Global,
    fault: &RuleFault,
    whole: u64,
    last_seen: u64,
) -> Result<String, AllocError>
    ensures { IfOk result (λ text. string_bytes text ≡ refused_body whole last_seen fault.now) }
{
    Ok(format!(in alloc; "version {whole}\nseen {last_seen}\nrefused {fault}\n")?)
}

/// Appends why a body in JSON is no edit.
#[tactic(auto, unfolding(crate::specs::Replies::bad_edit_body))]
pub(crate) fn tell_bad_edit(
    alloc: Global,
    fault: &JsonFault,
    close: bool,
    out: &mut Bytes,
) -> Result<(), Fixed>
    ensures ok { OnOk result ((fault.now ≢ unread.OutOfMemory) × (out.new ≡ out.old ++ bytes_with close (with_body 400 (bad_edit_body fault.now)))) }
    ensures memory { IfErr result (λ told. told ≡ refusal.Memory) }
    ensures err { OnErr result (out.new ≡ out.old) }
{
    if let JsonFault::OutOfMemory = fault {
        return Err(Fixed::Memory);
    }
    let Ok(body) = format!(in alloc; "bad-edit {fault}\n") else {
        return Err(Fixed::Memory);
    };
    tell(StatusCode::BAD_REQUEST, body.as_bytes(), close, out)
}

/// Appends why a body in CSV is no declaration.
#[tactic(auto, unfolding(crate::specs::Replies::bad_declaration_body))]
pub(crate) fn tell_bad_declaration(
    alloc: Global,
    fault: &DeclareFault,
    close: bool,
    out: &mut Bytes,
) -> Result<(), Fixed>
    ensures ok { OnOk result ((fault.now ≢ undeclared.OutOfMemory) × (out.new ≡ out.old ++ bytes_with close (with_body 400 (bad_declaration_body fault.now)))) }
    ensures memory { IfErr result (λ told. told ≡ refusal.Memory) }
    ensures err { OnErr result (out.new ≡ out.old) }
{
    if let DeclareFault::OutOfMemory = fault {
        return Err(Fixed::Memory);
    }
    let Ok(body) = format!(in alloc; "bad-declaration {fault}\n") else {
        return Err(Fixed::Memory);
    };
    tell(StatusCode::BAD_REQUEST, body.as_bytes(), close, out)
}

/// Appends why a request asks nothing, where that takes a body of its own. Memory is wanting only for such a body, or where it was wanting
/// before.
pub(crate) fn tell_no_ask(
    alloc: Global,
    fault: HttpFault,
    close: bool,
    out: &mut Bytes,
) -> Result<(), Fixed>
    requires { (allow : Method) → fault ≡ cause.WrongMethod allow → allow ≢ method.Other }
    ensures ok { OnOk result ((fault ≢ cause.OutOfMemory) × (out.new ≡ out.old ++ bytes_with close (no_ask fault))) }
    ensures fixed { IfErr result (λ told. (told ≡ refusal.Memory) ⊎ ((fault ≢ cause.OutOfMemory) × (no_ask fault ≡ fixed told))) }
    ensures memory { result ≡ Err refusal.Memory → (fault ≡ cause.OutOfMemory) ⊎ ((key : QueryKey) × (fault ≡ cause.BadQuery key)) }
    ensures allow { IfErr result (λ told. allow_of told ≢ Some method.Other) }
    ensures err { OnErr result (out.new ≡ out.old) }
{
    match fault {
        HttpFault::NoRoute => Err(Fixed::NoRoute),
        HttpFault::WrongMethod { allow } => Err(Fixed::WrongMethod { allow }),
        HttpFault::BadQuery { key } => tell_bad_query(alloc, key, close, out),
        HttpFault::OutOfMemory => Err(Fixed::Memory),
    }
}

/// Appends which key of a query fails.
#[tactic(auto, unfolding(crate::specs::Replies::bad_query_body))]
fn tell_bad_query(alloc: Global, key: QueryKey, close: bool, out: &mut Bytes) -> Result<(), Fixed>
    ensures ok { OnOk result (out.new ≡ out.old ++ bytes_with close (with_body 400 (bad_query_body (cause.BadQuery key)))) }
    ensures memory { IfErr result (λ told. told ≡ refusal.Memory) }
    ensures err { OnErr result (out.new ≡ out.old) }
{
    let fault = HttpFault::BadQuery { key };
    let Ok(body) = format!(in alloc; "{fault}\n") else {
        return Err(Fixed::Memory);
    };
    tell(StatusCode::BAD_REQUEST, body.as_bytes(), close, out)
}
