// A counter's record changed in its place.
ghost use Rattle.std.specs.Prelude.{◌≡◌};
ghost use Rattle.log_store.specs.Store.{record_changed};

use crate::place::find_record;
use forms::record::Record;
use forms::terms::CounterId;
use log_image::records::offset_of;
use record_change::change::{Change, changed};

// Writes a counter's record over itself, changed; nothing where the counter has none.
//
// Ruled out, among others: one that writes a confirmed value over the current one; one that changes another counter's record too.
#[tactic(auto, unfolding(crate::specs::Store::record_changed))]
pub fn change_record(image: &mut [u8], id: CounterId, change: Change)
    ensures { image.new ≡ record_changed image.old id change }
{
    let Some(index) = find_record(image, id) else {
        return;
    };
    let at = offset_of(index);
    changed(Record::read(image, at), change).write(image, at);
}
