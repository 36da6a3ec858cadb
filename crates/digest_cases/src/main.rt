// The SHA-1 digests of published strings, of every length from 0 to 256, and of joined requests, one a line in hexadecimal. The expected output
// is calculated by another implementation and not by this program.
#![tactic(auto)]

mod message;
mod show;

use forms::request::Request;
use message::{counted, request};
use show::{show, show_lengths};
use std::io;

fn main(rt: HostRuntime) -> io::Result<()> {
    show(&rt, b"")?;
    show(&rt, b"abc")?;
    show(
        &rt,
        b"abcdbcdecdefdefgefghfghighijhijkijkljklmklmnlmnomnopnopq",
    )?;
    show(
        &rt,
        b"abcdefghbcdefghicdefghijdefghijkefghijklfghijklmghijklmnhijklmnoijklmnopjklmnopqklmnopqrlmnopqrsmnopqrstnopqrstu",
    )?;
    show(&rt, &[b'a'; 10000])?;
    show_lengths(&rt, &counted(), 1)?;
    let two = [request(1, 7, 100), request(2, 9, 100)];
    show_lengths(&rt, two.as_flattened(), Request::LEN)?;
    let three = [request(3, 9, 101), request(4, 7, 101), request(6, 11, 100)];
    show_lengths(&rt, three.as_flattened(), Request::LEN)?;
    let eight = [
        request(1, 7, 100),
        request(2, 8, 100),
        request(3, 9, 100),
        request(4, 10, 100),
        request(5, 11, 100),
        request(6, 12, 100),
        request(7, 13, 100),
        request(8, 14, 100),
    ];
    show_lengths(&rt, eight.as_flattened(), Request::LEN)
}
