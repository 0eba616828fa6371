// Prints the listing of group.dat and steps.dat in the folder that it runs in.
// A file that cannot be opened counts as empty, and one whose read fails ends there.
#![tactic(auto)]

use files::read_start;
use std::io::Result;

// The length in a group file's header is a two-octet number, so a file of more than 65,535 octets is
// refused, and its first 65,536 octets are refused with the same number. Of steps.dat the first
// 10,000 records count. That this much is enough is proved in `report`, proofs/Prefix.antt.
fn main(rt: HostRuntime) -> Result<()> {
    let mut file = [0u8; 65536];
    let file_length = read_start(&rt, "group.dat", &mut file);
    let mut list = [0u8; 60000];
    let list_length = read_start(&rt, "steps.dat", &mut list);
    let mut text = [0u8; 200000];
    let n = report::write_listing(&file[..file_length], &list[..list_length], &mut text);
    rt.write_all(&text[..n])
}
