//! The reply with an open file.
ghost use Rattle.std.specs.Prelude.{◌≡◌, IfOk};
ghost use Rattle.web_docs.specs.DescribedReplies.{IsWithin};
ghost use Rattle.web_folders.specs.FileReplies.{IsFileReply, file_body as file_body_lem};

use crate::added_headers::add_headers;
use crate::body::{FilePart, FolderBody};
use crate::coding::FileCoding;
use crate::folder_files::OpenedFile;
use crate::settings::FolderSettings;
use http::{Method, StatusCode};
use http_header::{HeaderMap, HeaderValue};
use std::alloc::Global;
use web_docs::{Sends, answer_described};
use web_reply::HttpResponse;
use web_texts::NoMemory;

/// The bytes of a file of this size that are sent.
fn file_body<F: Drop>(file: F, size: u64, status: StatusCode, sends: Sends) -> FolderBody<F>
    requires { IsWithin size sends }
    ensures { result ≡ file_body_lem file size status sends }
{
    match sends {
        Sends::All => FolderBody::File(FilePart {
            file,
            first: 0,
            count: size,
        }),
        Sends::Part(first, last) => FolderBody::File(FilePart {
            file,
            first,
            count: last - first + 1,
        }),
        Sends::Nothing => {
            if status == StatusCode::OK {
                FolderBody::Omitted(size)
            } else {
                FolderBody::Empty
            }
        }
    }
}

/// The reply to a request of this method and these headers with an open file, which is stored in
/// this coding. The path says its media type and its name.
pub(crate) fn file_reply<F: Drop>(
    alloc: Global,
    settings: &FolderSettings,
    method: &Method,
    headers: &HeaderMap<HeaderValue>,
    path: &str,
    coding: FileCoding,
    opened: OpenedFile<F>,
) -> Result<HttpResponse<FolderBody<F>>, NoMemory>
    ensures { IfOk result (λ reply.
        IsFileReply settings.now method.now headers.now path.now coding opened reply) }
{
    let OpenedFile { file, facts } = opened;
    let described = facts.described(alloc, path)?;
    let reply = answer_described(alloc, &described, facts.length, method, headers)?;
    let status = reply.status();
    let body = file_body(file, facts.length, status, *reply.body());
    let mut reply = reply.set_body(body);
    add_headers(alloc, reply.headers_mut(), settings, path, coding, status)?;
    Ok(reply)
}
