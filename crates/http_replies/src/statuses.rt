//! The status of each reply.
ghost use Rattle.std.specs.Prelude.{◌≡◌};
ghost use Rattle.http_replies.specs.Statuses.{put_status, refusal_status, reply_status};

use book_commands::Reply;
use book_model::{PutAnswer, Refusal};
use http::StatusCode;

fn put_status(answer: PutAnswer) -> StatusCode
    ensures { result ≡ put_status answer }
{
    match answer {
        PutAnswer::Created { .. } => StatusCode::CREATED,
        PutAnswer::Edited { .. } | PutAnswer::Unchanged { .. } => StatusCode::OK,
    }
}

/// The status of a refusal.
fn refusal_status(refusal: Refusal) -> StatusCode
    ensures { result ≡ refusal_status refusal }
{
    match refusal {
        Refusal::NoSuchBook => StatusCode::NOT_FOUND,
        Refusal::BookExists => StatusCode::CONFLICT,
        Refusal::BadBookName => StatusCode::BAD_REQUEST,
        Refusal::NoSuchCard => StatusCode::NOT_FOUND,
        Refusal::BadCard(_) => StatusCode::BAD_REQUEST,
        Refusal::UidMismatch => StatusCode::CONFLICT,
        Refusal::VersionMismatch { .. } => StatusCode::PRECONDITION_FAILED,
        Refusal::UidTaken => StatusCode::CONFLICT,
        Refusal::SameBook => StatusCode::CONFLICT,
        Refusal::BadToken(_) => StatusCode::FORBIDDEN,
        Refusal::BadLimit => StatusCode::INSUFFICIENT_STORAGE,
        Refusal::BookFull => StatusCode::INSUFFICIENT_STORAGE,
        Refusal::ChangesSpent => StatusCode::INSUFFICIENT_STORAGE,
        Refusal::BadImport { .. } => StatusCode::BAD_REQUEST,
        Refusal::BadKey => StatusCode::BAD_REQUEST,
        Refusal::BadForget => StatusCode::CONFLICT,
        Refusal::NotGroup => StatusCode::CONFLICT,
        Refusal::TooManyBooks => StatusCode::INSUFFICIENT_STORAGE,
    }
}

/// The status of a reply (RFC 9110, section 15).
pub(crate) fn reply_status(reply: &Reply) -> StatusCode
    ensures { result ≡ reply_status reply.now }
{
    match reply {
        Reply::Created { .. } => StatusCode::CREATED,
        Reply::Put(answer) => put_status(*answer),
        Reply::Books(_) => StatusCode::OK,
        Reply::Card { .. } => StatusCode::OK,
        Reply::Gone { .. } => StatusCode::OK,
        Reply::Moved(_) => StatusCode::OK,
        Reply::Page(_) => StatusCode::OK,
        Reply::Imported(_) => StatusCode::OK,
        Reply::Forgot { .. } => StatusCode::OK,
        Reply::Tally(_) => StatusCode::OK,
        Reply::Csv(_) => StatusCode::OK,
        Reply::People(_) => StatusCode::OK,
        Reply::Refused(refusal) => refusal_status(*refusal),
        Reply::Fault(_) => StatusCode::SERVICE_UNAVAILABLE,
    }
}
