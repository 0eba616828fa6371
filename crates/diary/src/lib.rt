// The text of an evening: the answers to a plan, and the cabinets after it, written octet by octet into
// a buffer that the caller lends.
#![tactic(auto)]

ghost use Rattle.std.specs.Prelude.{◌≤◌, ◌≡◌, length};
ghost use Rattle.std.proofs.lemmas.List.Edits.{sets};
ghost use Rattle.load.specs.Load.{load};
ghost use Rattle.protocol.specs.Evening.{operations, plan_records, plan_lines, evening};
ghost use Rattle.buffer.specs.Added.{Added};
ghost use Rattle.replay.specs.Replay.{EndsWell};

use buffer::Writer;

// A line for each record of a plan, by its first octet. Records are numbered from 0 inside and from 1
// in the text.
fn plan_lines(out: &mut Writer, list: &[u8], answers: &[u8])
    requires list_len_bound { length list.now ≤ 90000 }
    requires answers_len { length answers.now ≡ 10000 }
    ensures { Added (plan_lines 1 (plan_records (length list.now) list.now) answers.now) out.old out.new }
{
    for (i, record) in list.chunks(9).enumerate() {
        text::plan_line(out, record[0], i as u16 + 1, answers[i]);
    }
}

// The whole text for a group file and a plan, of which the first 10,000 records count: its length, and
// its octets stored in the buffer from the start as far as the buffer reaches. The text has at most
// 201,220 octets: 10,000 lines of 19 and 255 cabinet lines of 44. Where load answers 0, what demand 3
// says holds at every recovery's end in the run that is printed.
pub fn write_evening(file: &[u8], list: &[u8], out: &mut [u8]) -> usize
    ensures value { result ≡ length (evening file.now list.now) }
    ensures out_after { out.new ≡ sets out.old 0 (evening file.now list.now) }
    ensures upper_bound { result ≤ 201220 }
    ensures ends_well { (load file.now).answer ≡ 0 → EndsWell file.now (operations (plan_records 10000 list.now)) }
{
    let used = list.len().min(90000);
    let mut answers = [0u8; 10000];
    let replayed = plans::replay_plan(file, &list[..used], &mut answers);
    let mut text = Writer { out, end: 0 };
    match replayed {
        Ok(group) => {
            plan_lines(&mut text, &list[..used], &answers);
            report::cab_lines(&mut text, group);
            text.end
        }
        Err(refusal) => {
            text::load_line(&mut text, u8::from(refusal));
            text.end
        }
    }
}
