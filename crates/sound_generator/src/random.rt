// The random bits of the sound pin, the last nine as a number. From any nine but nine zeros they repeat after 511 and not earlier: proofs/Period.antt.
ghost use Rattle.std.specs.Prelude.{◌≡◌};
ghost use Rattle.sound_generator.specs.Random.{Random, with_next};
ghost use Rattle.sound_generator.specs.Random.{after as afterBits};

// The numbers that nine bits make, and after how many bits they repeat.
pub const NINE_BITS: u16 = 512;

const PERIOD: u32 = 511;

fn with_next(bits: u16) -> u16
    requires { Random bits }
    ensures { result ≡ with_next bits }
{
    let next = (bits / 256 + bits / 16) % 2;
    (bits * 2 + next) % NINE_BITS
}

fn one_by_one(bits: u16, n: u32) -> u16
    requires { Random bits }
    ensures { result ≡ afterBits n bits }
{
    let mut now = bits;
    for _ in 0..n {
        now = with_next(now);
    }
    now
}

// The last nine after n more: whole periods of them change nothing.
pub fn after(bits: u16, n: u32) -> u16
    requires { Random bits }
    ensures { result ≡ afterBits n bits }
{
    one_by_one(bits, n % PERIOD)
}
