//! A folder that is served.
ghost use Rattle.std.specs.Prelude.{◌≡◌, IfOk};
ghost use Rattle.web_request.specs.Head.{head_path, head_query};
ghost use Rattle.std.specs.Option.{option_map};
ghost use Rattle.web_folders.specs.FolderReplies.{IsFolderReply, ListsEntries, ListsFolder};
ghost use Rattle.web_folders.specs.FolderReplies.{RepliesWithFolder};
ghost use Rattle.web_folders.specs.FolderReplies.{RepliesWithIndex, SendsBelow, SendsFileAt};
ghost use Rattle.web_folders.specs.FolderReplies.{SendsFound, index_of, is_read as is_read_lem};

use crate::body::FolderBody;
use crate::entry::FolderEntry;
use crate::folder_files::{FolderFiles, Found, OpenedFile};
use crate::listing::{listing_page, sorted};
use crate::offers::CodingOffers;
use crate::plain_replies::{failed, is_read, listing, moved, no_such_method, not_found};
use crate::settings::FolderSettings;
use crate::variants::{file_in, send_file};
use http::Method;
use http_header::{HeaderMap, HeaderValue};
use std::alloc::Global;
use std::marker::Model;
use web_paths::Below;
use web_reply::HttpResponse;
use web_request::{App, HttpRequest};
use web_texts::NoMemory;

/// A folder that is served, with its settings. Contracts see its files and its settings.
#[derive(Drop)]
pub struct Folder<F> {
    files: F,
    settings: FolderSettings,
    offers: CodingOffers,
}

impl<F> Model for Folder<F> {
    ghost use Rattle.web_folders.specs.ServedFolders.{ServedFolder};

    ghost Value = { ServedFolder F };

    ghost view = { λ f. record { files = f.files; settings = f.settings } };
}

/// The page that lists these entries, or 404 if they could not be read.
fn listed<F: Drop>(
    alloc: Global,
    settings: &FolderSettings,
    method: &Method,
    headers: &HeaderMap<HeaderValue>,
    path: &Below,
    entries: Option<Vec<FolderEntry>>,
) -> Result<HttpResponse<FolderBody<F>>, NoMemory>
    ensures { IfOk result (λ reply. ListsEntries settings.now
        (record { method = method.now; headers = headers.now }) path.now
        (option_map (λ v. v.items) entries) reply) }
{
    let Some(entries) = entries else {
        return Ok(not_found(alloc));
    };
    let sorted = sorted(entries)?;
    let page = listing_page(alloc, path.as_str(), settings.hidden, sorted.as_slice())?;
    let reply = listing(alloc, method, page)?;
    Ok(reply)
}

/// The page that lists a folder, if folders are listed and it can be read, or 404.
fn list_folder<F: FolderFiles>(
    alloc: Global,
    files: &F,
    settings: &FolderSettings,
    method: &Method,
    headers: &HeaderMap<HeaderValue>,
    path: &Below,
    folder: &F::Folder,
) -> Result<HttpResponse<FolderBody<F::File>>, NoMemory>
    ensures { IfOk result (λ reply. ListsFolder (F.lists files.now) settings.now
        (record { method = method.now; headers = headers.now }) path.now folder.now
        settings.now.lists reply) }
{
    if !settings.lists {
        return Ok(not_found(alloc));
    }
    let entries = files.entries(alloc, folder)?;
    let reply = listed(alloc, settings, method, headers, path, entries)?;
    Ok(reply)
}

impl<F: FolderFiles + Drop> Folder<F> {
    /// A folder with these files. Returns `NoMemory` if an allocation failed.
    pub fn new(alloc: Global, files: F, settings: FolderSettings) -> Result<Folder<F>, NoMemory>
        ensures { IfOk result (λ folder.
            folder ≡ record { files = files; settings = settings }) }
    {
        let offers = CodingOffers::new(alloc)?;
        Ok(Folder {
            files,
            settings,
            offers,
        })
    }

    /// The reply with a file, at a path that no slash ended, or 404.
    fn send_at(
        &self,
        alloc: Global,
        method: &Method,
        headers: &HeaderMap<HeaderValue>,
        path: &Below,
        opened: OpenedFile<F::File>,
    ) -> Result<HttpResponse<FolderBody<F::File>>, NoMemory>
        ensures { IfOk result (λ reply. SendsFileAt (F.finds self.now.files) self.now.settings
            (record { method = method.now; headers = headers.now }) path.now opened
            path.now.ends_in_slash reply) }
    {
        if path.ends_in_slash() {
            return Ok(not_found(alloc));
        }
        send_file(
            alloc,
            &self.files,
            &self.settings,
            &self.offers,
            method,
            headers,
            path,
            opened,
        )
    }

    /// The reply with the index at this place, or with the list of the folder.
    fn send_index(
        &self,
        alloc: Global,
        method: &Method,
        headers: &HeaderMap<HeaderValue>,
        path: &Below,
        folder: &F::Folder,
        place: Option<Below>,
    ) -> Result<HttpResponse<FolderBody<F::File>>, NoMemory>
        ensures { IfOk result (λ reply. RepliesWithIndex (F.finds self.now.files)
            (F.lists self.now.files) self.now.settings
            (record { method = method.now; headers = headers.now }) path.now folder.now place
            reply) }
    {
        let files = &self.files;
        let settings = &self.settings;
        let Some(place) = place else {
            return list_folder(alloc, files, settings, method, headers, path, folder);
        };
        let found = files.find(alloc, &place)?;
        match file_in(found) {
            Some(index) => {
                let offers = &self.offers;
                send_file(
                    alloc, files, settings, offers, method, headers, &place, index,
                )
            }
            None => list_folder(alloc, files, settings, method, headers, path, folder),
        }
    }

    /// The reply for a folder: 405, the redirect to its path with a slash, its index or its list.
    fn folder_reply(
        &self,
        alloc: Global,
        target: &str,
        query: &str,
        method: &Method,
        headers: &HeaderMap<HeaderValue>,
        path: &Below,
        folder: &F::Folder,
    ) -> Result<HttpResponse<FolderBody<F::File>>, NoMemory>
        ensures { IfOk result (λ reply. RepliesWithFolder (F.finds self.now.files)
            (F.lists self.now.files) self.now.settings
            (record { path = target.now; query = query.now })
            (record { method = method.now; headers = headers.now }) path.now folder.now
            (is_read_lem method.now) reply) }
    {
        if !is_read(method) {
            return no_such_method(alloc);
        }
        if !path.ends_in_slash() {
            return moved(alloc, target, query);
        }
        let place = path.child(alloc, "index.html", self.settings.hidden)?;
        let reply = self.send_index(alloc, method, headers, path, folder, place)?;
        Ok(reply)
    }

    /// The reply with what was found at a path.
    fn send_found(
        &self,
        alloc: Global,
        target: &str,
        query: &str,
        method: &Method,
        headers: &HeaderMap<HeaderValue>,
        path: &Below,
        found: Found<F::File, F::Folder>,
    ) -> Result<HttpResponse<FolderBody<F::File>>, NoMemory>
        ensures { IfOk result (λ reply. SendsFound (F.finds self.now.files)
            (F.lists self.now.files) self.now.settings
            (record { path = target.now; query = query.now })
            (record { method = method.now; headers = headers.now }) path.now found reply) }
    {
        match found {
            Found::File(opened) => self.send_at(alloc, method, headers, path, opened),
            Found::Folder(folder) => {
                self.folder_reply(alloc, target, query, method, headers, path, &folder)
            }
            Found::Nothing => Ok(not_found(alloc)),
            Found::Failed => Ok(failed(alloc)),
        }
    }

    /// The reply with what is at a path, or 404 if there is no path.
    fn send_below(
        &self,
        alloc: Global,
        target: &str,
        query: &str,
        method: &Method,
        headers: &HeaderMap<HeaderValue>,
        below: Option<Below>,
    ) -> Result<HttpResponse<FolderBody<F::File>>, NoMemory>
        ensures { IfOk result (λ reply. SendsBelow (F.finds self.now.files)
            (F.lists self.now.files) self.now.settings
            (record { path = target.now; query = query.now })
            (record { method = method.now; headers = headers.now }) below reply) }
    {
        let Some(path) = below else {
            return Ok(not_found(alloc));
        };
        let found = self.files.find(alloc, &path)?;
        self.send_found(alloc, target, query, method, headers, &path, found)
    }

    /// Answers a request for what its path names in this folder. The path is that of the target,
    /// or of a folder served at a path of its own what is left of it after that; it has to come as
    /// it was sent, and begins with a slash.
    ///
    /// 1. 404 if the path names nothing below the folder (`Below::of_path`), or there is nothing,
    ///    and 500 if the system failed to say what is there.
    /// 2. For a file the reply of `web_docs::answer_described`, with the headers that the settings
    ///    add. With `compressed` it is that of a file beside it which the client prefers.
    /// 3. For a folder 405 if the method does not read, a 301 to the path with a slash and the same
    ///    query if none ended it, its `index.html` if there is one, its list if folders are listed,
    ///    and 404 otherwise.
    ///
    /// Returns `NoMemory` if an allocation failed.
    pub fn answer_at<A: App>(
        &self,
        alloc: Global,
        req: &HttpRequest<A>,
        path: &str,
    ) -> Result<HttpResponse<FolderBody<F::File>>, NoMemory>
        ensures { let head = req.now.request.head in
            IfOk result (λ reply. IsFolderReply (F.finds self.now.files)
            (F.lists self.now.files) self.now.settings
            (record { path = head_path head; query = head_query head })
            (record { method = head.method; headers = head.headers }) path.now reply) }
    {
        let below = Below::of_path(alloc, path, self.settings.hidden)?;
        let target = req.path();
        let query = req.query_string();
        self.send_below(alloc, target, query, req.method(), req.headers(), below)
    }

    /// Answers a request for what the path of its target names in this folder, as `answer_at` does.
    pub fn answer<A: App>(
        &self,
        alloc: Global,
        req: &HttpRequest<A>,
    ) -> Result<HttpResponse<FolderBody<F::File>>, NoMemory>
        ensures { let head = req.now.request.head in
            IfOk result (λ reply. IsFolderReply (F.finds self.now.files)
            (F.lists self.now.files) self.now.settings
            (record { path = head_path head; query = head_query head })
            (record { method = head.method; headers = head.headers }) (head_path head) reply) }
    {
        self.answer_at(alloc, req, req.path())
    }
}
