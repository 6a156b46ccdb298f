//! A file, and the codings of it that stand beside it.
ghost use Rattle.std.specs.Prelude.{◌≡◌, IfOk};
ghost use Rattle.web_folders.specs.FolderReplies.{FindsFile, IsVariantReply, SendsFile};
ghost use Rattle.web_folders.specs.FolderReplies.{asks_for_coding as asks_for_coding_lem};
ghost use Rattle.web_folders.specs.FolderReplies.{file_in as file_in_lem};
ghost use Rattle.web_folders.specs.FolderReplies.{sent_file as sent_file_lem};
ghost use Rattle.web_paths.specs.PathsBelow.{sibling_of};

use crate::body::FolderBody;
use crate::coding::FileCoding;
use crate::file_reply::file_reply;
use crate::folder_files::{FolderFiles, Found, OpenedFile};
use crate::offers::CodingOffers;
use crate::settings::FolderSettings;
use http::Method;
use http_header::{ACCEPT_ENCODING, HeaderMap, HeaderValue};
use std::alloc::Global;
use web_paths::Below;
use web_reply::HttpResponse;
use web_texts::NoMemory;

/// A file that was found, and nothing of a folder.
pub(crate) fn file_in<F: Drop, D: Drop>(found: Found<F, D>) -> Option<OpenedFile<F>>
    ensures { result ≡ file_in_lem found }
{
    match found {
        Found::File(opened) => Some(opened),
        Found::Folder(_) | Found::Nothing | Found::Failed => None,
    }
}

/// The file at a path, if there is a path and a file.
fn find_file<F: FolderFiles>(
    alloc: Global,
    files: &F,
    path: &Option<Below>,
) -> Result<Option<OpenedFile<F::File>>, NoMemory>
    ensures { IfOk result (λ opened. FindsFile (F.finds files.now) path.now opened) }
{
    match path {
        Some(path) => {
            let found = files.find(alloc, path)?;
            Ok(file_in(found))
        }
        None => Ok(None),
    }
}

/// The file beside one whose name has this ending.
fn find_beside<F: FolderFiles>(
    alloc: Global,
    files: &F,
    path: &Below,
    ending: &str,
) -> Result<Option<OpenedFile<F::File>>, NoMemory>
    ensures { IfOk result (λ opened.
        FindsFile (F.finds files.now) (sibling_of path.now ending.now) opened) }
{
    let beside = path.sibling(alloc, ending)?;
    find_file(alloc, files, &beside)
}

/// The coding and the file that are sent, if the file in that coding is there.
fn sent_file<F: Drop>(
    coding: FileCoding,
    plain: OpenedFile<F>,
    brotli: Option<OpenedFile<F>>,
    gzip: Option<OpenedFile<F>>,
) -> (FileCoding, OpenedFile<F>)
    ensures { result ≡ sent_file_lem coding plain brotli gzip }
{
    match (coding, brotli, gzip) {
        (FileCoding::Brotli, Some(coded), _) => (FileCoding::Brotli, coded),
        (FileCoding::Gzip, _, Some(coded)) => (FileCoding::Gzip, coded),
        _ => (FileCoding::Identity, plain),
    }
}

fn variant_reply<F: FolderFiles>(
    alloc: Global,
    files: &F,
    settings: &FolderSettings,
    offers: &CodingOffers,
    method: &Method,
    headers: &HeaderMap<HeaderValue>,
    path: &Below,
    plain: OpenedFile<F::File>,
) -> Result<HttpResponse<FolderBody<F::File>>, NoMemory>
    ensures { IfOk result (λ reply. IsVariantReply (F.finds files.now) settings.now
        (record { method = method.now; headers = headers.now }) path.now plain reply) }
{
    let brotli = find_beside(alloc, files, path, ".br")?;
    let gzip = find_beside(alloc, files, path, ".gz")?;
    let coding = offers.coding_for(alloc, headers, brotli.is_some(), gzip.is_some())?;
    let (coding, sent) = sent_file(coding, plain, brotli, gzip);
    file_reply(
        alloc,
        settings,
        method,
        headers,
        path.as_str(),
        coding,
        sent,
    )
}

fn asks_for_coding(headers: &HeaderMap<HeaderValue>) -> bool
    ensures { result ≡ asks_for_coding_lem headers.now }
{
    headers.get(&ACCEPT_ENCODING).is_some()
}

/// The reply with an open file, or with a coding of it that stands beside it.
pub(crate) fn send_file<F: FolderFiles>(
    alloc: Global,
    files: &F,
    settings: &FolderSettings,
    offers: &CodingOffers,
    method: &Method,
    headers: &HeaderMap<HeaderValue>,
    path: &Below,
    plain: OpenedFile<F::File>,
) -> Result<HttpResponse<FolderBody<F::File>>, NoMemory>
    ensures { IfOk result (λ reply. SendsFile (F.finds files.now) settings.now
        (record { method = method.now; headers = headers.now }) path.now plain reply) }
{
    if settings.compressed && asks_for_coding(headers) {
        return variant_reply(alloc, files, settings, offers, method, headers, path, plain);
    }
    let coding = FileCoding::Identity;
    file_reply(
        alloc,
        settings,
        method,
        headers,
        path.as_str(),
        coding,
        plain,
    )
}
