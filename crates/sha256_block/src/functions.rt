// FIPS 180-4, 4.1.2: the functions on words.
ghost use Rattle.std.specs.Prelude.{◌≡◌};
ghost use Rattle.sha256_block.specs.Functions as F;

pub fn ch(x: u32, y: u32, z: u32) -> u32
    ensures { result ≡ F.ch x y z }
{
    (x & y) ^ (!x & z)
}

pub fn maj(x: u32, y: u32, z: u32) -> u32
    ensures { result ≡ F.maj x y z }
{
    (x & y) ^ (x & z) ^ (y & z)
}

// Each of the standard's four functions under its name. One over the three numbers would need a bound on each number, a
// definition beside the standard's and a proof; these need none.
pub fn big_sigma0(x: u32) -> u32
    ensures { result ≡ F.Σ0 x }
{
    x.rotate_right(2) ^ x.rotate_right(13) ^ x.rotate_right(22)
}

pub fn big_sigma1(x: u32) -> u32
    ensures { result ≡ F.Σ1 x }
{
    x.rotate_right(6) ^ x.rotate_right(11) ^ x.rotate_right(25)
}

pub fn small_sigma0(x: u32) -> u32
    ensures { result ≡ F.σ0 x }
{
    x.rotate_right(7) ^ x.rotate_right(18) ^ (x >> 3)
}

pub fn small_sigma1(x: u32) -> u32
    ensures { result ≡ F.σ1 x }
{
    x.rotate_right(17) ^ x.rotate_right(19) ^ (x >> 10)
}
