// The message with its padding, read where it stands: no copy of it is made.
ghost use Rattle.std.specs.Prelude.{◌≡◌, ◌+◌, ◌*◌, ◌/◌, ◌%◌, ◌^◌, ◌<◌, ◌≤◌, length, slice_index};
ghost use Rattle.sha256.specs.Sha256.{padded, word_at};

// How many blocks of 64 bytes the padded message has.
pub fn blocks(length: usize) -> usize
    requires { length < 2 ^ 32 }
    ensures { result ≡ (length + 8) / 64 + 1 }
{
    (length + 8) / 64 + 1
}

// The byte of 8 * length that k bytes follow.
fn length_byte(length: usize, k: usize) -> u8
    requires { (length < 2 ^ 32) × (k < 8) }
    ensures { result ≡ 8 * length / 2 ^ (8 * k) % 256 }
{
    ((8 * length >> 8 * k) % 256) as u8
}

fn padded_byte(message: &[u8], at: usize) -> u8
    requires { (length message.now < 2 ^ 32) × (at < length (padded message.now)) }
    ensures { result ≡ slice_index (padded message.now) at }
{
    let length = message.len();
    if at < length {
        return message[at];
    }
    if at == length {
        return 128;
    }
    let end = 64 * blocks(length);
    if at < end - 8 {
        return 0;
    }
    length_byte(length, end - 1 - at)
}

pub fn word_at(message: &[u8], at: usize) -> u32
    requires { (length message.now < 2 ^ 32) × (at + 3 < length (padded message.now)) }
    ensures { result ≡ word_at (padded message.now) at }
{
    u32::from_be_bytes([
        padded_byte(message, at),
        padded_byte(message, at + 1),
        padded_byte(message, at + 2),
        padded_byte(message, at + 3),
    ])
}
