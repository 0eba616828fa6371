// A row of a chronicle, written by the writer that the caller lends.
#![tactic(auto)]

ghost use Rattle.std.specs.Prelude.{◌≡◌, [], ◌∷◌};
ghost use Rattle.buffer.specs.Added.{Added};
ghost use Rattle.rows.specs.Rows.{told_first, told_second, cabinets_to, row_octets};
ghost use Rattle.refusal.specs.Refusal.{numbered};

use buffer::Writer;
use group::Group;
use newest::Sort;
use refusal::Refusal;
use settled::First;

fn told_octets(t: Result<First, Refusal>) -> [u8; 2]
    ensures { result ≡ told_first (numbered t) ∷ told_second (numbered t) ∷ [] }
{
    match t {
        Err(refusal) => [0, u8::from(refusal)],
        Ok(first) => [layout::numbered(first.cabinet), u8::from(first.reason)],
    }
}

// The cabinets below n of the group after an operation.
fn put_cabinets(out: &mut Writer, n: u8, before: Group, after: Group)
    ensures { Added (cabinets_to n before after) out.old out.new }
{
    for i in 0..n {
        let c = after.cabinet(i);
        let did = events::deeds(before.cabinet(i), c, i);
        layout::put_cabinet(out, c, after.home(i), did);
    }
}

// The row of an operation of sort s, which took the group from `before` to `after`; `number` is that of the save which the rule gives then.
pub fn put_row(out: &mut Writer, answer: u8, before: Group, after: Group, s: Sort, number: u16)
    ensures { Added (row_octets answer before after s number) out.old out.new }
{
    out.put(answer);
    out.put(events::fate_in(answer, before, s));
    out.word(&told_octets(asking::which_word(after)));
    out.put(events::ended_in(answer, before, after, s));
    out.word(&number.to_be_bytes());
    put_cabinets(out, after.n, before, after);
    layout::put_all_lines(out, after.n, after);
}
