// The messages: bytes 0, 1, 2, .. and joined requests.
use forms::nonce::LEN;
use forms::request::Request;
use forms::terms::CounterId;

pub(crate) fn counted() -> [u8; 256] {
    let mut s = [0u8; 256];
    for (byte, count) in s.iter_mut().zip(0..=255) {
        *byte = count;
    }
    s
}

// A request's bytes: a nonce of bytes b, a counter and the value held before.
pub(crate) fn request(b: u8, counter: u32, before: u32) -> [u8; Request::LEN] {
    let mut s = [0u8; Request::LEN];
    Request::new([b; LEN], CounterId(counter), before).write(&mut s, 0);
    s
}
