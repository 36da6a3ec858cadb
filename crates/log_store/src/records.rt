// A record put behind the others, and one taken out of their middle.
ghost use Rattle.std.specs.Prelude.{◌≡◌};
ghost use Rattle.log_store.specs.Store.{counters_added, proofs_removed, record_added, record_removed};

use crate::bytes::vacate;
use crate::place::find_record;
use forms::confirmation::Confirmation;
use forms::image::Image;
use forms::number::put_u32;
use forms::record::Record;
use forms::terms::CounterId;
use log_image::header;
use log_image::header::counter_count;
use log_image::records::{offset_of, proofs};

// Stores the record of a counter as it is taken up behind the others, and answers with how many there are; where there is no place left nothing is
// stored, and how many the header counts is the error.
//
// Ruled out, among others: one that writes over the first record; one that stores the record and leaves their count.
#[tactic(auto, unfolding(crate::specs::Store::record_added))]
pub fn add_record(image: &mut [u8], confirmation: Confirmation) -> Result<u32, u32>
    ensures value { result ≡ counters_added image.old }
    ensures image_after { image.new ≡ record_added image.old confirmation }
{
    let count = counter_count(image);
    if Image::MAX_COUNTERS <= count {
        return Err(count);
    }
    Record::new(confirmation).write(image, offset_of(count));
    put_u32(image, header::COUNTERS, count + 1);
    Ok(count + 1)
}

// Takes out a counter's record: the later ones move up to its place, the place that the last one leaves is cleared, and their count is stored.
// Answers with the number of proofs that it had; with `None` where the counter has no record, and nothing is stored.
//
// Ruled out, among others: one that leaves the bytes of the last record behind the others; one that answers with the number of counters left.
#[tactic(auto, unfolding(crate::specs::Store::record_removed))]
pub fn remove_record(image: &mut [u8], id: CounterId) -> Option<u32>
    ensures value { result ≡ proofs_removed image.old id }
    ensures image_after { image.new ≡ record_removed image.old id }
{
    let index = find_record(image, id)?;
    let proofs = proofs(image, index);
    let left = counter_count(image) - 1;
    let behind = Record::LEN * ((left - index) as usize);
    vacate(image, offset_of(index), Record::LEN, behind);
    put_u32(image, header::COUNTERS, left);
    Some(proofs)
}
