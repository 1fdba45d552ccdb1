// A file of decimal numbers, read into an array.
ghost use Rattle.std.specs.Prelude.{◌≤◌, length, IfOk};

use std::io::Read;
use std::rt::Files;
use std::{fs, io, str};

// The number with one more decimal digit; one that does not fit 64 bits comes out as the largest.
fn with_digit(number: u64, digit: u8) -> u64 {
    number.saturating_mul(10).saturating_add(u64::from(digit))
}

// Puts the numbers of a text into `out`, in order, and answers how many there are. A number ends at the byte after its digits.
pub fn numbers(text: &[u8], out: &mut [u64]) -> usize {
    let mut count = 0;
    let mut begun = None;
    for byte in text {
        if byte.is_ascii_digit() {
            begun = Some(with_digit(begun.unwrap_or(0), *byte - b'0'));
        } else if let Some(number) = begun.take() {
            if let Some(place) = out.get_mut(count) {
                *place = number;
                count += 1;
            }
        }
    }
    count
}

// As many bytes of a file are read.
const MOST_BYTES: usize = 65536;

// Reads into the text as far as the file and the room go, and answers how many bytes there are. A read that fails ends it. One read may
// take fewer bytes than there is room for, so that their number is counted.
fn read_full(file: &mut impl Read, text: &mut [u8]) -> usize
    ensures { result ≤ length text.old }
{
    let mut n = 0;
    // By `while`: each numeral says how far it goes.
    while n < text.len() {
        match file.read(&mut text[n..]) {
            Ok(0) | Err(_) => return n,
            Ok(k) => n += k,
        }
    }
    n
}

// The first bytes of a file, and how many there are. A path is text.
fn first_bytes(rt: &impl Files, name: &[u8], text: &mut [u8]) -> io::Result<usize>
    ensures { IfOk result (λ n. n ≤ length text.old) }
{
    let path = str::from_utf8(name).map_err(|_| io::Error::from(io::ErrorKind::InvalidInput))?;
    let mut file = fs::open(rt, path)?;
    Ok(read_full(&mut file, text))
}

// Says on standard error that a file cannot be read.
fn fail(rt: &impl Eprint, name: &[u8], error: io::Error) -> io::Result<()> {
    if let Ok(path) = str::from_utf8(name) {
        eprint!(rt; "{path}")?;
    }
    eprintln!(rt; ": {error}")
}

// Puts the numbers of a file into `out`, and answers how many there are; 0 where the file cannot be read, which a line on standard error says.
// A name may be any bytes: a `&str` would ask more of callers. The text has fixed room, since no heap is used.
pub fn load(rt: &(impl Files + Eprint), name: &[u8], out: &mut [u64]) -> io::Result<usize> {
    let mut text = [0u8; MOST_BYTES];
    match first_bytes(rt, name, &mut text) {
        Ok(n) => Ok(numbers(&text[..n], out)),
        Err(error) => {
            fail(rt, name, error)?;
            Ok(0)
        }
    }
}

// Writes how many vectors of a list came out right. A name is the bytes that `load` takes.
pub fn report(rt: &impl Print, name: &[u8], right: u64, all: u64) -> io::Result<()> {
    rt.write_all(name)?;
    println!(rt; ": {right} of {all} right")
}
