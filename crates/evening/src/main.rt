// Prints the text of the evening that group.dat and plan.dat describe, in the folder that it runs in.
// A file that cannot be opened counts as empty, and one whose read fails ends there.
#![tactic(auto)]

use files::read_start;
use std::io::Result;

// A group file of more than 65,535 octets is refused, and its first 65,536 octets are refused with the
// same number. Of plan.dat the first 10,000 records count. That this much is enough is proved in
// `diary`, proofs/Prefix.antt.
fn main(rt: HostRuntime) -> Result<()> {
    let mut file = [0u8; 65536];
    let file_length = read_start(&rt, "group.dat", &mut file);
    let mut list = [0u8; 90000];
    let list_length = read_start(&rt, "plan.dat", &mut list);
    let mut text = [0u8; 201220];
    let n = diary::write_evening(&file[..file_length], &list[..list_length], &mut text);
    rt.write_all(&text[..n])
}
