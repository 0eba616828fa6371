// Prints which word settled the latest recovery in the run of group.dat and steps.dat in the folder
// that it runs in. A file that cannot be opened counts as empty, and one whose read fails ends there.
#![tactic(auto)]

use files::read_start;
use std::io::Result;

// As in `listing`, the first 65,536 octets of a group file and the first 10,000 records of steps.dat
// are enough: that is proved in `telling`, proofs/Prefix.antt.
fn main(rt: HostRuntime) -> Result<()> {
    let mut file = [0u8; 65536];
    let file_length = read_start(&rt, "group.dat", &mut file);
    let mut list = [0u8; 60000];
    let list_length = read_start(&rt, "steps.dat", &mut list);
    let mut text = [0u8; 17];
    let n = telling::write_word(&file[..file_length], &list[..list_length], &mut text);
    rt.write_all(&text[..n])
}
