// The panel: reads a deposit sheet from the file that its argument names, or from standard input, and prints its rows and acknowledgements.
#![tactic(auto)]

ghost use Rattle.std.specs.Prelude.{◌≡◌, ◌≤◌, IfOk, length};

use sheet::MAX_SHEET;
use std::env::FillError;
use std::io::{ErrorKind, Read};
use std::process::ExitCode;
use std::rt::{Env, Files};
use std::{fmt, fs, io};

// One byte more than a sheet may have, so that a longer one is told from one that just fits.
const SHEET: usize = MAX_SHEET + 1;

// More than any sheet prints: eleven bytes for an acknowledgement of one byte are the most.
const PRINT: usize = 1048576;

// As many bytes as the name of a file may have.
const NAME: usize = 4096;

// Why a sheet was not run: what could not be read or written, with the reason, or a print that is longer than its room.
#[derive(Drop)]
enum Failure<'a> {
    Io { name: &'a str, reason: io::Error },
    TooLong,
}

impl fmt::Display for Failure<'_> {
    fn fmt<W: fmt::Write>(&self, f: &mut fmt::Formatter<W>) -> fmt::Result {
        match self {
            Failure::Io { name, reason } => write!(f, "{name}: {reason}"),
            Failure::TooLong => write!(f, "the print is too long"),
        }
    }
}

// Reads until the buffer is full or the input ends, and gives how many bytes were read.
// Kept: std's `read_exact` does not say how many bytes there were, `read_to_end` allocates, and `io::copy` promises no bound on its count.
fn fill(input: &mut impl Read, buf: &mut [u8]) -> io::Result<usize>
    ensures { IfOk result (λ n. n ≤ length buf.new) }
{
    let mut done = 0;
    while done < buf.len() {
        let n = input.read(&mut buf[done..])?;
        if n == 0 {
            break;
        }
        done += n;
    }
    Ok(done)
}

// Room for a print; that its length is known is all that is said of it.
// Kept: where the array stands in `run` itself, the check unfolds its 1,048,576 bytes and gives up.
fn blank_print() -> [u8; PRINT]
    ensures { 1048576 ≡ length result }
{
    [0; PRINT]
}

// Runs a sheet and writes its print.
fn run(rt: &impl Print, bytes: &[u8]) -> Result<(), Failure<'static>> {
    let mut out = blank_print();
    let Ok(n) = sheet::run_sheet(bytes, &mut out) else {
        return Err(Failure::TooLong);
    };
    rt.write_all(&out[..n]).map_err(|reason| Failure::Io {
        name: "standard output",
        reason,
    })
}

// Runs the sheet that an input of this name gives.
fn read_and_run<'a>(
    rt: &impl Print,
    input: &mut impl Read,
    name: &'a str,
) -> Result<(), Failure<'a>> {
    let mut bytes = [0u8; SHEET];
    let n = fill(input, &mut bytes).map_err(|reason| Failure::Io { name, reason })?;
    run(rt, &bytes[..n])
}

// Runs the sheet in a file.
fn run_file<'a>(rt: &(impl Files + Print), name: &'a str) -> Result<(), Failure<'a>> {
    let mut file = fs::open(rt, name).map_err(|reason| Failure::Io { name, reason })?;
    read_and_run(rt, &mut file, name)
}

fn bad_name(reason: &str) -> Failure<'static> {
    Failure::Io {
        name: "the file's name",
        reason: io::Error::new(ErrorKind::InvalidFilename, reason),
    }
}

// Runs the sheet in the file that the first argument names, or on standard input where there is none. The name is put into `room`.
fn run_argument<'a>(
    rt: &(impl Env + Files + Input + Print),
    room: &'a mut [u8],
) -> Result<(), Failure<'a>> {
    match rt.arg(1, room) {
        Ok(n) => {
            let name = str::from_utf8(&room[..n]).map_err(|_| bad_name("not UTF-8"))?;
            run_file(rt, name)
        }
        Err(FillError::TooLong) => Err(bad_name("too long")),
        Err(FillError::NotPresent) => read_and_run(rt, &mut rt.reader(), "standard input"),
    }
}

fn main(rt: HostRuntime) -> ExitCode {
    let mut room = [0u8; NAME];
    match run_argument(&rt, &mut room) {
        Ok(()) => ExitCode::SUCCESS,
        Err(failure) => {
            let _ = eprintln!(rt; "{failure}");
            ExitCode::FAILURE
        }
    }
}
