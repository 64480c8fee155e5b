// The published examples: NIST's for FIPS 180-4 and its additional ones, as far as the hash takes them, and those of
// RFC 4231. Calls, and no list: a row would have three byte strings behind references, and say no less than its call.
use crate::line;
use std::io;
use std::io::Write;

fn hashes(out: &mut impl Write) -> io::Result<()> {
    line::hash(out, b"abc", b"abc")?;
    line::hash(out, b"empty", b"")?;
    line::hash(
        out,
        b"448-bits",
        b"abcdbcdecdefdefgefghfghighijhijkijkljklmklmnlmnomnopnopq",
    )?;
    line::hash(
        out,
        b"896-bits",
        b"abcdefghbcdefghicdefghijdefghijkefghijklfghijklmghijklmnhijklmnoijklmnopjklmnopqklmnopqrlmnopqrsmnopqrstnopqrstu",
    )?;
    line::hash(out, b"bd", b"\xbd")?;
    line::hash(out, b"c98c8e55", b"\xc9\x8c\x8e\x55")
}

fn repeated(out: &mut impl Write) -> io::Result<()> {
    let zeros = [0u8; 1000];
    for n in [55, 56, 57, 64, 1000] {
        line::hash(out, b"all-00", &zeros[..n])?;
    }
    let letters = [0x41u8; 1000];
    line::hash(out, b"all-41", &letters)?;
    let others = [0x55u8; 1005];
    line::hash(out, b"all-55", &others)
}

fn macs(out: &mut impl Write) -> io::Result<()> {
    let key1 = [0x0bu8; 20];
    line::mac(out, b"rfc4231-1", &key1, b"Hi There")?;
    line::mac(out, b"rfc4231-2", b"Jefe", b"what do ya want for nothing?")?;
    let key3 = [0xaau8; 20];
    let message3 = [0xddu8; 50];
    line::mac(out, b"rfc4231-3", &key3, &message3)?;
    let message4 = [0xcdu8; 50];
    line::mac(
        out,
        b"rfc4231-4",
        b"\x01\x02\x03\x04\x05\x06\x07\x08\x09\x0a\x0b\x0c\x0d\x0e\x0f\x10\x11\x12\x13\x14\x15\x16\x17\x18\x19",
        &message4,
    )?;
    let key5 = [0x0cu8; 20];
    line::mac(out, b"rfc4231-5", &key5, b"Test With Truncation")
}

fn macs_of_long_keys(out: &mut impl Write) -> io::Result<()> {
    let key = [0xaau8; 131];
    line::mac(
        out,
        b"rfc4231-6",
        &key,
        b"Test Using Larger Than Block-Size Key - Hash Key First",
    )?;
    line::mac(
        out,
        b"rfc4231-7",
        &key,
        b"This is a test using a larger than block-size key and a larger than block-size data. The key needs to be hashed before being used by the HMAC algorithm.",
    )
}

pub fn examples(out: &mut impl Write) -> io::Result<()> {
    hashes(out)?;
    repeated(out)?;
    macs(out)?;
    macs_of_long_keys(out)
}
