// The listing, written octet by octet into a buffer that the caller lends.
#![tactic(auto)]

ghost use Rattle.std.specs.Prelude.{◌≤◌, ◌≡◌, length};
ghost use Rattle.std.proofs.lemmas.List.Edits.{sets};
ghost use Rattle.load.specs.Load.{load};
ghost use Rattle.protocol.specs.Listing.{step_lines, cab_lines, records, listing};
ghost use Rattle.protocol.specs.History.{steps};
ghost use Rattle.buffer.specs.Added.{Added};
ghost use Rattle.replay.specs.Replay.{EndsWell};

use buffer::Writer;
use group::Group;

// A line for each answer. Records are numbered from 0 inside and from 1 in the listing.
fn step_lines(out: &mut Writer, answers: &[u8])
    requires { length answers.now ≤ 10000 }
    ensures { Added (step_lines 1 answers.now) out.old out.new }
{
    for (i, answer) in answers.iter().enumerate() {
        text::step_line(out, i as u16 + 1, *answer);
    }
}

// A line for each cabinet, at most 255 of them.
pub fn cab_lines(out: &mut Writer, g: Group)
    ensures written { Added (cab_lines g.n g) out.old out.new }
    ensures n_bound { g.n ≤ 255 }
{
    for i in 0..g.n {
        text::cab_line(out, i, g.cabinet(i));
    }
}

// The whole text for a group file and a list of step records, of which the first 10,000 count: its
// length, and its octets stored in the buffer from the start as far as the buffer reaches. The text
// has at most 200,000 octets: 10,000 step lines of 17 and 255 cabinet lines of 44. Where load
// answers 0, what demand 3 says holds at every recovery's end in the run that is listed.
pub fn write_listing(file: &[u8], list: &[u8], out: &mut [u8]) -> usize
    ensures value { result ≡ length (listing file.now list.now) }
    ensures out_after { out.new ≡ sets out.old 0 (listing file.now list.now) }
    ensures upper_bound { result ≤ 200000 }
    ensures ends_well { (load file.now).answer ≡ 0 → EndsWell file.now (steps (records 10000 list.now)) }
{
    let used = list.len().min(60000);
    let mut answers = [0u8; 10000];
    let replayed = replay::replay(file, &list[..used], &mut answers);
    let mut text = Writer { out, end: 0 };
    match replayed {
        Ok(group) => {
            let count = (used + 5) / 6;
            step_lines(&mut text, &answers[..count]);
            cab_lines(&mut text, group);
            text.end
        }
        Err(refusal) => {
            text::load_line(&mut text, u8::from(refusal));
            text.end
        }
    }
}
