// ECMA-335's examples of compressed numbers, read and written, and document 01's refusals of numbers.
use cases::print::Bytes;
use number::{Number, NumberError};
use std::io;

const READ: [&[u8]; 7] = [
    b"\x03",
    b"\x7F",
    b"\x80\x80",
    b"\xAE\x57",
    b"\xBF\xFF",
    b"\xC0\x00\x40\x00",
    b"\xDF\xFF\xFF\xFF",
];

const REFUSED: [&[u8]; 7] = [
    b"",
    b"\x80",
    b"\xC0\x00\x40",
    b"\xE0",
    b"\xFF\x00\x00\x00\x00",
    b"\x80\x7F",
    b"\xC0\x00\x3F\xFF",
];

const WRITTEN: [u32; 8] = [
    0x03, 0x7F, 0x80, 0x2E57, 0x3FFF, 0x4000, 0x1FFFFFFF, 0x20000000,
];

// What stands at the front of `s`: a value and the offset after it, or why there is none.
fn show_read(rt: &impl Print, s: &[u8]) -> io::Result<()> {
    match number::number_at(s, 0) {
        Ok(Number { value, next }) => println!(rt; "{value:x} next {next}"),
        Err(NumberError::Cut) => println!(rt; "cut"),
        Err(NumberError::BadByte) => println!(rt; "bad first byte"),
        Err(NumberError::TooLong) => println!(rt; "longer than needed"),
    }
}

// The encoding of `v`, in five bytes that were FF before.
fn show_written(rt: &impl Print, v: u32) -> io::Result<()> {
    let mut out = [0xFFu8; 5];
    let n = number::encoding::put_number(&mut out, 0, v);
    println!(rt; "{v:x} has {n}{}", Bytes(&out))
}

pub fn run(rt: &impl Print) -> io::Result<()> {
    for s in READ.iter().chain(&REFUSED) {
        show_read(rt, s)?;
    }
    for v in WRITTEN {
        show_written(rt, v)?;
    }
    Ok(())
}
