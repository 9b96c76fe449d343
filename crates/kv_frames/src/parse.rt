ghost use Rattle.std.specs.Prelude.{◌≡◌, ℕ, List, length};
ghost use Rattle.std.specs.Option.{option_map};
ghost use Rattle.kv_base.specs.declared.request.Request.{Request};
ghost use Rattle.kv_model.specs.Frames.{BeginsWithRequest, IsPartial, IsMalformed};
ghost use Rattle.kv_frames.specs.View.{request_of};
ghost use Rattle.kv_frames.specs.Reading.{put_in, after_in, request_in};
ghost use Rattle.kv_frames.specs.Parse.{IsParsed, IsFound};

use crate::cut::{Front, cut_front};
use crate::kind;
use crate::numbers::read_number;
use crate::view::{Parsed, RequestView};

/// Parses the request that the bytes begin with. Takes no memory and copies nothing: the key and
/// the value are slices of the bytes. A key of a wrong length or an item that is too large is a
/// whole request here; the session refuses it.
pub fn parse_request<'a>(bytes: &'a [u8]) -> Parsed<'a>
    ensures cases { IsParsed result bytes.now }
    ensures whole { (request : Request) (rest : List ℕ) → BeginsWithRequest bytes.now request rest
        → IsFound result request }
    ensures more { IsPartial bytes.now → result ≡ Parsed.More }
    ensures malformed { IsMalformed bytes.now → result ≡ Parsed.Malformed }
{
    match cut_front(bytes) {
        Front::More => Parsed::More,
        Front::Malformed => Parsed::Malformed,
        Front::Whole { content } => match view_request(content) {
            Some(request) => Parsed::Whole {
                request,
                length: 4 + content.len(),
            },
            None => Parsed::Malformed,
        },
    }
}

/// The request with this content.
fn view_request(content: &[u8]) -> Option<RequestView<'_>>
    ensures { option_map request_of result ≡ request_in content.now }
{
    match content {
        [kind::PUT, key_length, rest @ ..] => view_put(*key_length as usize, rest),
        [kind::GET, key @ ..] => Some(RequestView::Get { key }),
        [kind::DELETE, key @ ..] => Some(RequestView::Delete { key }),
        [kind::FLUSH] => Some(RequestView::Flush),
        [kind::AFTER, body @ ..] => view_after(body),
        _ => None,
    }
}

/// The Put whose body is the length of the key and then these bytes.
fn view_put(key_length: usize, rest: &[u8]) -> Option<RequestView<'_>>
    ensures { option_map request_of result ≡ put_in key_length rest.now }
{
    let (key, value) = rest.split_at_checked(key_length)?;
    Some(RequestView::Put { key, value })
}

/// The After with this body.
fn view_after(body: &[u8]) -> Option<RequestView<'_>>
    ensures { option_map request_of result ≡ after_in body.now }
{
    let stamp = read_number(body)?;
    Some(RequestView::After { stamp })
}
