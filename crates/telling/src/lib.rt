// The line that tells which word settled the latest recovery of a run, written octet by octet into
// a buffer that the caller lends.
#![tactic(auto)]

ghost use Rattle.std.specs.Prelude.{◌≤◌, ◌≡◌, length};
ghost use Rattle.std.proofs.lemmas.List.Edits.{sets};
ghost use Rattle.load.specs.Load.{load};
ghost use Rattle.protocol.specs.Listing.{records};
ghost use Rattle.protocol.specs.History.{steps};
ghost use Rattle.protocol.specs.Word.{which_word, word};
ghost use Rattle.replay.specs.Replay.{EndsWell};

use buffer::Writer;
use group::Group;
use settled::First;

// What the group tells; a refusal by its number.
fn told(g: Group) -> Result<First, u8>
    ensures { result ≡ which_word g }
{
    asking::which_word(g).map_err(u8::from)
}

// The line for a group file and a list of step records, of which the first 10,000 count: its length,
// and its octets stored in the buffer from the start as far as the buffer reaches. It has at most 17
// octets: a word, two numbers of five digits, the spaces before them and the newline. What the steps
// answer is in no line, so that no room is lent for it. Where load answers 0, what demand 3 says holds
// at every recovery's end in the run that is asked about.
pub fn write_word(file: &[u8], list: &[u8], out: &mut [u8]) -> usize
    ensures value { result ≡ length (word file.now list.now) }
    ensures out_after { out.new ≡ sets out.old 0 (word file.now list.now) }
    ensures upper_bound { result ≤ 17 }
    ensures ends_well { (load file.now).answer ≡ 0 → EndsWell file.now (steps (records 10000 list.now)) }
{
    let used = list.len().min(60000);
    let mut answers = [0u8; 0];
    let replayed = replay::replay(file, &list[..used], &mut answers);
    let mut text = Writer { out, end: 0 };
    match replayed {
        Ok(group) => {
            text::word_line(&mut text, told(group));
            text.end
        }
        Err(refusal) => {
            text::load_line(&mut text, u8::from(refusal));
            text.end
        }
    }
}
