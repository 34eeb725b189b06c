// The functions of 4.1.2 on words.
ghost use Rattle.std.specs.Prelude.{◌≡◌, ◌<◌};
ghost use Rattle.sha256.specs.Sha256.{rotr, ch, maj, big_sigma0, big_sigma1, small_sigma0, small_sigma1, sum};

pub fn add(x: u32, y: u32) -> u32
    ensures { result ≡ sum x y }
{
    x.wrapping_add(y)
}

fn rotated(x: u32, n: u32) -> u32
    requires { (0 < n) × (n < 32) }
    ensures { result ≡ rotr n x }
{
    x >> n | x << (32 - n)
}

pub fn choice(x: u32, y: u32, z: u32) -> u32
    ensures { result ≡ ch x y z }
{
    (x & y) ^ (!x & z)
}

pub fn majority(x: u32, y: u32, z: u32) -> u32
    ensures { result ≡ maj x y z }
{
    (x & y) ^ (x & z) ^ (y & z)
}

pub fn big_sigma_0(x: u32) -> u32
    ensures { result ≡ big_sigma0 x }
{
    rotated(x, 2) ^ rotated(x, 13) ^ rotated(x, 22)
}

pub fn big_sigma_1(x: u32) -> u32
    ensures { result ≡ big_sigma1 x }
{
    rotated(x, 6) ^ rotated(x, 11) ^ rotated(x, 25)
}

pub fn small_sigma_0(x: u32) -> u32
    ensures { result ≡ small_sigma0 x }
{
    rotated(x, 7) ^ rotated(x, 18) ^ (x >> 3)
}

pub fn small_sigma_1(x: u32) -> u32
    ensures { result ≡ small_sigma1 x }
{
    rotated(x, 17) ^ rotated(x, 19) ^ (x >> 10)
}
