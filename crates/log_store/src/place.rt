// Which record is a counter's.
ghost use Rattle.std.specs.Prelude.{◌≡◌, cond};
ghost use Rattle.log_store.specs.Store.{has_record, index_in};

use forms::terms::CounterId;
use log_image::records::{index_of, is_record};

// The index of a counter's record, where it has one.
pub(crate) fn find_record(image: &[u8], id: CounterId) -> Option<u32>
    ensures { result ≡ cond (has_record image.now id) (Some (index_in image.now id)) None }
{
    let index = index_of(image, id);
    is_record(image, index).then_some(index)
}
