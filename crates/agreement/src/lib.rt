// Whether the library's text, a listing, an evening or the line of `word`, is the expected one.
#![tactic(auto)]

ghost use Rattle.std.specs.Prelude.{◌≡◌, take};
ghost use Rattle.io.specs.Counts.{IsPrefixLen};
ghost use Rattle.protocol.specs.Listing.{listing};
ghost use Rattle.protocol.specs.Evening.{evening};
ghost use Rattle.protocol.specs.Word.{word};
ghost use Rattle.agreement.specs.Tests.{Decides, Held};

// n, or the buffer's length if that is less, with the facts that `&buffer[..n]` asks for.
pub fn within(n: usize, buffer: &[u8]) -> usize
    ensures prefix_len { IsPrefixLen result buffer.now }
    ensures buffer_value { take result buffer.now ≡ take n buffer.now }
{
    n.min(buffer.len())
}

// Whether the text stands at the buffer's start and has the length `end`.
fn holds(buffer: &[u8], end: usize, text: &[u8]) -> bool
    ensures { Decides result (Held buffer.now end text.now) }
{
    end == text.len() && &buffer[..within(end, buffer)] == text
}

// Kept: the next three have the same lines over another writer. One function over them would take the writer as a closure and the size
// as a constant, and its contract would say of the closure what these clauses say plainly.

// Whether the library writes the expected listing, octet by octet and no more.
pub fn agrees(file: &[u8], list: &[u8], text: &[u8]) -> bool
    ensures { Decides result (text.now ≡ listing file.now list.now) }
{
    let mut out = [0u8; 200000];
    let end = report::write_listing(file, list, &mut out);
    holds(&out, end, text)
}

// Whether it writes the expected text of an evening.
pub fn evening_agrees(file: &[u8], list: &[u8], text: &[u8]) -> bool
    ensures { Decides result (text.now ≡ evening file.now list.now) }
{
    let mut out = [0u8; 201220];
    let length = diary::write_evening(file, list, &mut out);
    holds(&out, length, text)
}

// Whether it writes the expected line of `word`.
pub fn word_agrees(file: &[u8], list: &[u8], text: &[u8]) -> bool
    ensures { Decides result (text.now ≡ word file.now list.now) }
{
    let mut out = [0u8; 17];
    let length = telling::write_word(file, list, &mut out);
    holds(&out, length, text)
}
