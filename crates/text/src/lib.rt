// The lines of the listing, and that of the program `word`, each written by the writer that the caller lends.
#![tactic(auto)]

ghost use Rattle.std.specs.Prelude.{◌≡◌, [], ◌∷◌};
ghost use Rattle.protocol.specs.Listing.{
  version_word,
  load_line,
  answer_line,
  step_line,
  cab_rest,
  cab_line,
};
ghost use Rattle.protocol.specs.Evening.{word_of};
ghost use Rattle.protocol.specs.Word.{numbers_of, spaced, word_line};
ghost use Rattle.buffer.specs.Added.{Added};

use buffer::Writer;
use cabinet::Cabinet;
use outlet::Outlet;
use settled::First;
use state::Version;

fn version_octet(v: Version) -> u8
    ensures { result ∷ [] ≡ version_word v }
{
    match v {
        Version::Known(bit) => if bit { b'1' } else { b'0' },
        Version::Unknown(_) | Version::Lost => b'u',
    }
}

pub fn load_line(out: &mut Writer, k: u8)
    ensures { Added (load_line k) out.old out.new }
{
    out.word(b"load");
    out.number(k as u16);
    out.put(b'\n');
}

fn answer_line(out: &mut Writer, word: &[u8], k: u16, answer: u8)
    ensures { Added (answer_line word.now k answer) out.old out.new }
{
    out.word(word);
    out.number(k);
    out.number(answer as u16);
    out.put(b'\n');
}

pub fn step_line(out: &mut Writer, k: u16, answer: u8)
    ensures { Added (step_line k answer) out.old out.new }
{
    answer_line(out, b"step", k, answer);
}

// The word for a plan's record, by the record's first octet.
fn word_of(first: u8) -> &'static [u8]
    ensures { result.now ≡ word_of first }
{
    match first {
        1 => b"point",
        2 => b"return",
        _ => b"step",
    }
}

// The line of a plan's record, by the record's first octet.
pub fn plan_line(out: &mut Writer, first: u8, k: u16, answer: u8)
    ensures { Added (answer_line (word_of first) k answer) out.old out.new }
{
    answer_line(out, word_of(first), k, answer);
}

// The state and, unless it is failed, version and bookings.
fn cab_rest(out: &mut Writer, c: Cabinet)
    ensures { Added (32 ∷ cab_rest c) out.old out.new }
{
    out.put(b' ');
    out.word(words::state_word(c.phase.state));
    if state::works(c.phase.state) {
        out.put(b' ');
        out.put(version_octet(c.phase.version));
        out.number(c.image.booking(Outlet::A));
        out.number(c.image.booking(Outlet::B));
        out.number(c.image.booking(Outlet::W));
    }
}

// Cabinets are numbered from 0 inside and from 1 in the listing.
pub fn cab_line(out: &mut Writer, i: u8, c: Cabinet)
    ensures { Added (cab_line i c) out.old out.new }
{
    out.word(b"cab");
    out.number(i as u16 + 1);
    cab_rest(out, c);
    out.put(b'\n');
}

// Who settled a recovery, numbered from 1 as in the listing, and the reason's number.
fn first_numbers(out: &mut Writer, first: First)
    ensures { Added (spaced (numbers_of (Ok first))) out.old out.new }
{
    out.number(first.cabinet as u16 + 1);
    out.number(u8::from(first.reason) as u16);
}

fn told_numbers(out: &mut Writer, t: Result<First, u8>)
    ensures { Added (spaced (numbers_of t)) out.old out.new }
{
    match t {
        Err(number) => out.number(number as u16),
        Ok(first) => first_numbers(out, first),
    }
}

// A refusal is told by its number.
pub fn word_line(out: &mut Writer, t: Result<First, u8>)
    ensures { Added (word_line (numbers_of t)) out.old out.new }
{
    out.word(b"word");
    told_numbers(out, t);
    out.put(b'\n');
}
