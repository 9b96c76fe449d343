ghost use Rattle.std.specs.Prelude.{◌≡◌, length};
ghost use Rattle.kv_model.specs.Agreement.{refusal_of};
ghost use Rattle.kv_model.specs.Layout.{all_classes, is_key_length};
ghost use Rattle.kv_frames.specs.View.{request_of};

use kv_base::Reply;
use kv_frames::RequestView;

/// The most bytes of a key.
const LONGEST_KEY: usize = 255;

/// The most bytes of key and value together.
const ROOM: usize = 65_400;

/// The refusal that the sizes of the request demand.
pub fn refusal(view: &RequestView<'_>) -> Option<Reply>
    ensures { result ≡ refusal_of all_classes (request_of view.now) }
{
    match view {
        RequestView::Put { key, value } => {
            if !is_key(key) {
                return Some(Reply::BadKey);
            }
            if value.len() > ROOM - key.len() {
                return Some(Reply::TooLarge);
            }
            None
        }
        RequestView::Get { key } | RequestView::Delete { key } => {
            if is_key(key) {
                None
            } else {
                Some(Reply::BadKey)
            }
        }
        RequestView::Flush | RequestView::After { .. } => None,
    }
}

/// Whether the key may be stored: 1 to 255 bytes.
fn is_key(key: &[u8]) -> bool
    ensures { result ≡ is_key_length all_classes (length key.now) }
{
    !key.is_empty() && key.len() <= LONGEST_KEY
}
