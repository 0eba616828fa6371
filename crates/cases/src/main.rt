// Runs stored cases through the library and compares each text with the stored one.
//
// A container holds one case after the other: three lengths of four octets, high octet first, and
// then the group file, the step records or the plan, and the expected text. Cases are numbered from 0.
#![tactic(auto)]

ghost use Rattle.std.specs.Prelude.{◌≡◌, ◌+◌, ◌*◌, get_or};

use files::read_full;
use std::fmt::{Display, Formatter};
use std::fs::File;
use std::io::Read;
use std::rt::Files;
use std::{fmt, io};

// A proved loop has to end, and nothing says that a file does.
const CASES_MOST: u64 = 1000000;

// The listings, the texts of an evening, and the lines of `word`.
const LISTINGS: [(&str, &str); 10] = [
    ("plain", "plain.cases"),
    ("damage", "damage.cases"),
    ("outlets", "outlets.cases"),
    ("losses", "losses.cases"),
    ("trips", "trips.cases"),
    ("unsure", "unsure.cases"),
    ("own checks", "own_checks.cases"),
    ("workshop", "workshop.cases"),
    ("partners", "partners.cases"),
    ("made", "made.cases"),
];

const EVENINGS: [(&str, &str); 2] = [("points", "points.cases"), ("planned", "planned.cases")];

const WORDS: [(&str, &str); 2] = [("word", "word.cases"), ("worded", "worded.cases")];

// A container that ends in the midst of a case, or has one that is larger than any that is stored.
#[derive(Clone, Copy)]
struct Broken;

// What came of a container's cases: how many agree and how many differ, the first that differs, and
// whether a broken case ended it.
#[derive(Clone, Copy)]
struct Tally {
    agree: u64,
    differ: u64,
    first: Option<u64>,
    broken: bool,
}

impl Display for Tally {
    fn fmt<W: fmt::Write>(&self, f: &mut Formatter<W>) -> fmt::Result {
        write!(f, "{} agree, {} differ", self.agree, self.differ)?;
        if let Some(first) = self.first {
            write!(f, ", first case {first}")?;
        }
        if self.broken {
            write!(f, ", then a broken case")?;
        }
        Ok(())
    }
}

// ---- one case

fn number(octets: [u8; 4]) -> usize
    ensures { result ≡ ((get_or octets 0 0 * 256 + get_or octets 1 0) * 256 + get_or octets 2 0) * 256 + get_or octets 3 0 }
{
    u32::from_be_bytes(octets) as usize
}

// Reads the input's next n octets to the start of the buffer, or as many as it has room for: all of
// each case that is stored.
fn part<'b>(input: &mut impl Read, buffer: &'b mut [u8], n: usize) -> Result<&'b [u8], Broken> {
    let room = n.min(buffer.len());
    let octets = &mut buffer[..room];
    if read_full(input, octets) < n {
        return Err(Broken);
    }
    Ok(octets)
}

// Reads and runs the next case: whether it agrees, and None where the container ends. Its records may
// be some more than the 10,000 that are read.
fn next_case<F: Fn(&[u8], &[u8], &[u8]) -> bool>(
    agrees: &F,
    input: &mut impl Read,
) -> Result<Option<bool>, Broken>
    requires { F.IsAlwaysCallable agrees.now }
{
    let mut head = [0u8; 12];
    match read_full(input, &mut head) {
        0 => return Ok(None),
        12 => {}
        _ => return Err(Broken),
    }
    let mut file = [0u8; 4096];
    let mut list = [0u8; 90180];
    let mut text = [0u8; 201220];
    let [a, b, c, d, e, f, g, h, i, j, k, l] = head;
    let file = part(input, &mut file, number([a, b, c, d]))?;
    let list = part(input, &mut list, number([e, f, g, h]))?;
    let text = part(input, &mut text, number([i, j, k, l]))?;
    Ok(Some(agrees(file, list, text)))
}

// ---- one container

fn run_all<F: Fn(&[u8], &[u8], &[u8]) -> bool>(agrees: &F, input: &mut impl Read) -> Tally
    requires { F.IsAlwaysCallable agrees.now }
{
    let mut tally = Tally {
        agree: 0,
        differ: 0,
        first: None,
        broken: false,
    };
    for number in 0..CASES_MOST {
        match next_case(agrees, input) {
            Ok(Some(true)) => tally.agree += 1,
            Ok(Some(false)) => {
                tally.first = tally.first.or(Some(number));
                tally.differ += 1;
            }
            Ok(None) => break,
            Err(Broken) => {
                tally.broken = true;
                break;
            }
        }
    }
    tally
}

// ---- the program

// Writes a line to standard error: the path, a colon and the system's text for the error. std prints
// the error's number behind that text, which is left out.
fn fail(rt: &(impl Eprint + Alloc), path: &str, e: &io::Error) -> io::Result<()> {
    let message = format!(in rt.alloc(); "{e}")?;
    match message.as_str().split_once(" (os error ") {
        Some((text, _)) => eprintln!(rt; "{path}: {text}"),
        None => eprintln!(rt; "{path}: {message}"),
    }
}

// Runs the container and prints its tally. One that cannot be opened gets a line on standard error
// instead, and the run goes on, even where that line cannot be written.
fn container<F: Fn(&[u8], &[u8], &[u8]) -> bool>(
    rt: &(impl Files + Print + Eprint + Alloc),
    agrees: &F,
    name: &str,
    path: &str,
) -> io::Result<()>
    requires { F.IsAlwaysCallable agrees.now }
{
    match File::open(rt, path) {
        Ok(mut file) => {
            print!(rt; "{name}")?;
            println!(rt; ": {}", run_all(agrees, &mut file))
        }
        Err(e) => {
            let _ = fail(rt, path, &e);
            Ok(())
        }
    }
}

fn main(rt: HostRuntime) -> io::Result<()> {
    for (name, path) in LISTINGS {
        container(&rt, &agreement::agrees, name, path)?;
    }
    for (name, path) in EVENINGS {
        container(&rt, &agreement::evening_agrees, name, path)?;
    }
    for (name, path) in WORDS {
        container(&rt, &agreement::word_agrees, name, path)?;
    }
    Ok(())
}
