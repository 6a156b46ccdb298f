//! Reuse of the memory of an earlier request.
ghost use Rattle.std.specs.Prelude.{◌≡◌, ◌+◌, ◌≤◌, ◌++◌, length, IfErr, IsTrue, OnOk, OnErr};
ghost use Rattle.std.specs.Vec.{vec_capacity};
ghost use Rattle.web_request.specs.Head.{head_view};
ghost use Rattle.web_request.specs.Pool.{empty_head};

use crate::head::RequestHead;
use http::{Method, Version};
use http_header::HeaderMap;
use http_uri::Uri;
use std::alloc::Global;
use std::rc::Rc;

/// Writes a head over an earlier one, or into a new allocation where that one is shared. Where the
/// allocation failed, returns the head and leaves the earlier one.
pub fn put_head(
    alloc: Global,
    place: &mut Rc<RequestHead>,
    head: RequestHead,
) -> Result<(), RequestHead>
    ensures ok { OnOk result (place.new.value ≡ head) }
    ensures back { IfErr result (λ refused. refused ≡ head) }
    ensures kept { OnErr result (place.new.value ≡ place.old.value) }
{
    match Rc::get_mut(place) {
        Some(kept) => {
            *kept = head;
            Ok(())
        }
        None => match Rc::new(alloc, head) {
            Ok(new) => {
                *place = new;
                Ok(())
            }
            Err(refused) => Err(refused.value),
        },
    }
}

/// The head of a record that holds no request. It takes no memory.
pub fn empty_head(alloc: Global) -> RequestHead
    ensures { head_view result ≡ empty_head }
{
    RequestHead {
        uri: Uri::default(),
        method: Method::GET,
        version: Version::HTTP_11,
        headers: HeaderMap::new(alloc),
        peer_addr: None,
    }
}

/// Drops a head and puts another one in its memory. One that is shared stays. Returns whether it
/// went.
pub fn reset_head(place: &mut Rc<RequestHead>, head: RequestHead) -> bool
    ensures { IsTrue result → place.new.value ≡ head }
{
    match Rc::get_mut(place) {
        Some(kept) => {
            *kept = head;
            true
        }
        None => false,
    }
}

/// Moves values to the end of a list whose capacity suffices.
pub fn move_into<T>(list: &mut Vec<T>, mut values: Vec<T>)
where
    T: Drop,
    requires room { length list.old.items + length values.items ≤ vec_capacity list.old }
    ensures { list.new.items ≡ list.old.items ++ values.items }
{
    match list.append(&mut values) {
        Ok(()) => {}
        Err(_) => unreachable!(),
    }
}
