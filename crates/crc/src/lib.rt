// The check value of the link: CRC-16, an octet at a time.
#![tactic(auto)]

ghost use Rattle.std.specs.Prelude.{◌≡◌, true};
ghost use Rattle.crc.specs.Crc.{crc_octet, crc_from, crc};

// One octet, its eight steps at once. It joins the register's high half. That half falls out and goes in at the terms x¹², x⁵
// and 1, while the low half moves up. At x¹² its four highest bits stand past the top and fall out again, in step with the
// four below them: so they are xored onto those first.
pub fn octet(register: u16, octet: u8) -> u16
    ensures { result ≡ crc_octet register octet }
{
    let joined = register ^ ((octet as u16) << 8);
    let folded = joined ^ ((joined & 0xF000) >> 4);
    let out = folded >> 8;
    (folded << 8) ^ (out << 12) ^ (out << 5) ^ out
}

// All octets of a slice, in order, from a register that may already hold earlier ones.
pub fn over(register: u16, octets: &[u8]) -> u16
    ensures { result ≡ crc_from register octets.now }
{
    octets
        .iter()
        .fold(register, |so_far, next| octet(so_far, *next))
}

// The check value of a slice.
pub fn check(octets: &[u8]) -> u16
    ensures { result ≡ crc octets.now }
{
    over(0xFFFF, octets)
}

// The published test of this CRC: the nine digits give 0x29B1.
pub fn published_value_agrees() -> bool
    ensures { result ≡ true }
{
    check(b"123456789") == 0x29B1
}
