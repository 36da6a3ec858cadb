// The inputs that a program's arguments name, one after the other.
use std::env::FillError;
use std::io::{Read, Write};
use std::rt::{Env, Files};
use std::{fs, io, str};

// Room for the name of an input.
const NAME: usize = 4096;

const CLOSED: &[u8] = b"can't be opened\n";

// What takes an input to its end, and writes to an output what it makes of it.
pub trait Program {
    fn run<R: Read, W: Write>(&self, input: &mut R, output: &mut W) -> io::Result<()>;
}

// Runs a program on the input of a name. A file's name is text: one that is not can't be opened.
fn take_input(rt: &(impl Files + Print), program: &impl Program, name: &[u8]) -> io::Result<()> {
    rt.write_all(name)?;
    rt.write_all(b"\n")?;
    let Ok(path) = str::from_utf8(name) else {
        return rt.write_all(CLOSED);
    };
    match fs::open(rt, path) {
        Ok(mut input) => program.run(&mut input, &mut io::writer(rt)),
        Err(_) => rt.write_all(CLOSED),
    }
}

// Takes the input that the argument at a place names, and answers whether there is one. One that is longer than the buffer is an empty name, which no
// file has.
fn take_argument(
    rt: &(impl Env + Files + Print),
    program: &impl Program,
    place: usize,
) -> io::Result<bool> {
    let mut name = [0u8; NAME];
    match rt.arg(place, &mut name) {
        Ok(len) => take_input(rt, program, &name[..len])?,
        Err(FillError::TooLong) => take_input(rt, program, b"")?,
        Err(FillError::NotPresent) => return Ok(false),
    }
    Ok(true)
}

// Runs a program on each file that the arguments name: it prints the name and a newline, and then what the program writes. No contract can say what is
// read and written.
pub fn run_named(rt: &(impl Env + Files + Print), program: &impl Program) -> io::Result<()> {
    for place in 1..usize::MAX {
        if !take_argument(rt, program, place)? {
            break;
        }
    }
    Ok(())
}
