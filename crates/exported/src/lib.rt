// What programs in other languages may call, as `rt lib` builds it here. In C a slice is two parameters, where it begins and
// how many octets it has. Each function answers the whole length of its text and stores as much of it as the buffer takes.
#![tactic(auto)]

ghost use Rattle.std.specs.Prelude.{◌≤◌, ◌≡◌, length};
ghost use Rattle.std.proofs.lemmas.List.Edits.{sets};
ghost use Rattle.load.specs.Load.{load};
ghost use Rattle.protocol.specs.Listing.{records, listing};
ghost use Rattle.protocol.specs.Evening.{operations, plan_records, evening};
ghost use Rattle.protocol.specs.Word.{word};
ghost use Rattle.protocol.specs.History.{steps};
ghost use Rattle.replay.specs.Replay.{EndsWell};
ghost use Rattle.chronicle.specs.Chronicle.{first_operations, chronicle};

// As `report::write_listing`.
#[unsafe(no_mangle)]
pub extern "C" fn kirsodza_listing(file: &[u8], list: &[u8], out: &mut [u8]) -> usize
    ensures value { result ≡ length (listing file.now list.now) }
    ensures out_after { out.new ≡ sets out.old 0 (listing file.now list.now) }
    ensures upper_bound { result ≤ 200000 }
    ensures ends_well { (load file.now).answer ≡ 0 → EndsWell file.now (steps (records 10000 list.now)) }
{
    report::write_listing(file, list, out)
}

// As `diary::write_evening`.
#[unsafe(no_mangle)]
pub extern "C" fn kirsodza_evening(file: &[u8], list: &[u8], out: &mut [u8]) -> usize
    ensures value { result ≡ length (evening file.now list.now) }
    ensures out_after { out.new ≡ sets out.old 0 (evening file.now list.now) }
    ensures upper_bound { result ≤ 201220 }
    ensures ends_well { (load file.now).answer ≡ 0 → EndsWell file.now (operations (plan_records 10000 list.now)) }
{
    diary::write_evening(file, list, out)
}

// As `telling::write_word`.
#[unsafe(no_mangle)]
pub extern "C" fn kirsodza_word(file: &[u8], list: &[u8], out: &mut [u8]) -> usize
    ensures value { result ≡ length (word file.now list.now) }
    ensures out_after { out.new ≡ sets out.old 0 (word file.now list.now) }
    ensures upper_bound { result ≤ 17 }
    ensures ends_well { (load file.now).answer ≡ 0 → EndsWell file.now (steps (records 10000 list.now)) }
{
    telling::write_word(file, list, out)
}

// As `chronicle::write_chronicle`: of a list of step records, or of a plan.
#[unsafe(no_mangle)]
pub extern "C" fn kirsodza_chronicle(file: &[u8], list: &[u8], plan: bool, out: &mut [u8]) -> usize
    ensures value { result ≡ length (chronicle plan file.now list.now) }
    ensures out_after { out.new ≡ sets out.old 0 (chronicle plan file.now list.now) }
    ensures upper_bound { result ≤ 32700000 }
    ensures ends_well { (load file.now).answer ≡ 0 → EndsWell file.now (first_operations plan list.now) }
{
    chronicle::write_chronicle(file, plan, list, out)
}
