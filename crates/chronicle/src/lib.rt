// The chronicle of a run, written octet by octet into a buffer that the caller lends.
#![tactic(auto)]

ghost use Rattle.std.specs.Prelude.{◌≤◌, ◌<◌, ◌*◌, ◌≡◌, length};
ghost use Rattle.std.proofs.lemmas.List.Edits.{sets};
ghost use Rattle.load.specs.Load.{load};
ghost use Rattle.buffer.specs.Added.{Added};
ghost use Rattle.replay.specs.Replay.{EndsWell};
ghost use Rattle.protocol.specs.Evening.{operate};
ghost use Rattle.turns.specs.Turns.{record_size, operation_in};
ghost use Rattle.chronicle.specs.Chronicle.{version_number, first_operations, chronicle};
ghost use Rattle.chronicle.specs.Kept.{rows_of};

use buffer::Writer;
use newest::{Newest, Sort};
use packet::PacketVersion;
use points::Points;
use protocol::{Site, Turn};

// Kept: no From, since `packet` knows no number of a chronicle.
fn version_number(v: PacketVersion) -> u8
    ensures { result ≡ version_number v }
{
    match v {
        PacketVersion::One => 1,
        PacketVersion::Two => 2,
    }
}

// What a record is answered, and the group and its points after it.
fn turn(site: Site, plan: bool, octets: &[u8]) -> Turn
    ensures { 0 < length octets.now → length octets.now ≤ record_size plan → result ≡ operate site (operation_in plan octets.now) }
{
    let mut answer = [0u8; 1];
    let site = steps::run(site, plan, octets, &mut answer);
    Turn {
        answer: answer[0],
        site,
    }
}

// A row for each record; records are numbered from 0 inside and from 1 in the chronicle.
fn put_rows(out: &mut Writer, site: Site, plan: bool, list: &[u8])
    requires { length list.now ≤ 10000 * record_size plan }
    ensures { Added (rows_of plan site list.now) out.old out.new }
{
    let mut here = site;
    let mut newest = Newest::start();
    for (i, record) in list.chunks(turns::record_size(plan)).enumerate() {
        let sort = newest::sort_for(turns::order_of(plan, record));
        let t = turn(here, plan, record);
        let after = t.site.group;
        newest = newest.after(t.answer, i as u16 + 1, here.group, after, sort);
        rows::put_row(out, t.answer, here.group, after, sort, newest.number);
        here = t.site;
    }
}

// The whole chronicle for a group file and a list of step records, or of a plan's, of which the first 10,000 count: its length, and its octets
// stored in the buffer from the start as far as the buffer reaches. Where load answers 0, what demand 3 says holds at every recovery's end in it.
pub fn write_chronicle(file: &[u8], plan: bool, list: &[u8], out: &mut [u8]) -> usize
    ensures value { result ≡ length (chronicle plan file.now list.now) }
    ensures out_after { out.new ≡ sets out.old 0 (chronicle plan file.now list.now) }
    ensures upper_bound { result ≤ 32700000 }
    ensures ends_well { (load file.now).answer ≡ 0 → EndsWell file.now (first_operations plan list.now) }
{
    let used = list.len().min(10000 * turns::record_size(plan));
    let group = match loading::load(file) {
        Ok(group) => group,
        Err(refusal) => return buffer::put(out, 0, u8::from(refusal)),
    };
    let points = Points::none();
    let mut octets = Writer { out, end: 0 };
    octets.word(&[0, group.n, version_number(group.packets)]);
    rows::put_row(&mut octets, 0, group, group, Sort::Other, 0);
    put_rows(&mut octets, Site { group, points }, plan, &list[..used]);
    octets.end
}
