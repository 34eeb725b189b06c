// SHA-256 after FIPS 180-4, of a message of bytes: specs/Sha256.antt quotes the standard. The call for C is of crates/sha256_c: include/em73862_sha256.h declares it.
#![tactic(auto)]

pub mod message;
pub mod words;

ghost use Rattle.std.specs.Prelude.{◌≡◌, ◌+◌, ◌*◌, ◌/◌, ◌%◌, ◌^◌, ◌<◌, ◌≤◌, length, take};
ghost use Rattle.sha256.specs.Sha256.{padded, next_word, schedule, first_sum, second_sum, round, rounds, added, after_block, initial, hash_of, joined, words_of, digest_of};
ghost use Rattle.sha256.specs.Call.{HashCall};

use crate::message::{blocks, word_at};
use crate::words::{add, big_sigma_0, big_sigma_1, choice, majority, small_sigma_0, small_sigma_1};

const DIGEST_BYTES: usize = 32;

// A message is shorter.
const MESSAGE_BYTES: usize = 4294967296;

// Document 01 has no number for these two: they take those of an image of another size and of a buffer that is too small.
const MESSAGE_TOO_LONG: u8 = 1;

const DIGEST_BUFFER_NOT_32_BYTES: u8 = 5;

// The eight working variables, and the eight words of a hash value.
#[derive(Clone, Copy)]
pub struct State {
    pub a: u32,
    pub b: u32,
    pub c: u32,
    pub d: u32,
    pub e: u32,
    pub f: u32,
    pub g: u32,
    pub h: u32,
}

const CONSTANTS: [u32; 64] = [
    0x428a2f98, 0x71374491, 0xb5c0fbcf, 0xe9b5dba5, 0x3956c25b, 0x59f111f1, 0x923f82a4, 0xab1c5ed5,
    0xd807aa98, 0x12835b01, 0x243185be, 0x550c7dc3, 0x72be5d74, 0x80deb1fe, 0x9bdc06a7, 0xc19bf174,
    0xe49b69c1, 0xefbe4786, 0x0fc19dc6, 0x240ca1cc, 0x2de92c6f, 0x4a7484aa, 0x5cb0a9dc, 0x76f988da,
    0x983e5152, 0xa831c66d, 0xb00327c8, 0xbf597fc7, 0xc6e00bf3, 0xd5a79147, 0x06ca6351, 0x14292967,
    0x27b70a85, 0x2e1b2138, 0x4d2c6dfc, 0x53380d13, 0x650a7354, 0x766a0abb, 0x81c2c92e, 0x92722c85,
    0xa2bfe8a1, 0xa81a664b, 0xc24b8b70, 0xc76c51a3, 0xd192e819, 0xd6990624, 0xf40e3585, 0x106aa070,
    0x19a4c116, 0x1e376c08, 0x2748774c, 0x34b0bcb5, 0x391c0cb3, 0x4ed8aa4a, 0x5b9cca4f, 0x682e6ff3,
    0x748f82ee, 0x78a5636f, 0x84c87814, 0x8cc70208, 0x90befffa, 0xa4506ceb, 0xbef9a3f7, 0xc67178f2,
];

fn next_word(message: &[u8], from: usize, w: &[u32; 64], t: usize) -> u32
    requires { (length message.now < 2 ^ 32) × (from + 64 ≤ length (padded message.now)) × (t < 64) }
    ensures { result ≡ next_word (padded message.now) from t (take t w.now) }
{
    if t < 16 {
        return word_at(message, from + 4 * t);
    }
    let near = add(small_sigma_1(w[t - 2]), w[t - 7]);
    add(add(near, small_sigma_0(w[t - 15])), w[t - 16])
}

fn scheduled(message: &[u8], from: usize) -> [u32; 64]
    requires { (length message.now < 2 ^ 32) × (from + 64 ≤ length (padded message.now)) }
    ensures { result ≡ schedule (padded message.now) from 64 }
{
    let mut w = [0u32; 64];
    for t in 0..64 {
        let next = next_word(message, from, &w, t);
        w[t] = next;
    }
    w
}

fn first_sum(s: State, k: u32, w: u32) -> u32
    ensures { result ≡ first_sum s k w }
{
    let chosen = add(add(s.h, big_sigma_1(s.e)), choice(s.e, s.f, s.g));
    add(add(chosen, k), w)
}

fn second_sum(s: State) -> u32
    ensures { result ≡ second_sum s }
{
    add(big_sigma_0(s.a), majority(s.a, s.b, s.c))
}

fn one_round(s: State, k: u32, w: u32) -> State
    ensures { result ≡ round s k w }
{
    let first = first_sum(s, k, w);
    State {
        a: add(first, second_sum(s)),
        b: s.a,
        c: s.b,
        d: s.c,
        e: add(s.d, first),
        f: s.e,
        g: s.f,
        h: s.g,
    }
}

fn all_rounds(before: State, w: &[u32; 64]) -> State
    ensures { result ≡ rounds w.now before 64 }
{
    let mut s = before;
    for t in 0..64 {
        s = one_round(s, CONSTANTS[t], w[t]);
    }
    s
}

fn add_each(s: State, t: State) -> State
    ensures { result ≡ added s t }
{
    State {
        a: add(s.a, t.a),
        b: add(s.b, t.b),
        c: add(s.c, t.c),
        d: add(s.d, t.d),
        e: add(s.e, t.e),
        f: add(s.f, t.f),
        g: add(s.g, t.g),
        h: add(s.h, t.h),
    }
}

fn take_block(before: State, message: &[u8], from: usize) -> State
    requires { (length message.now < 2 ^ 32) × (from + 64 ≤ length (padded message.now)) }
    ensures { result ≡ after_block before (padded message.now) from }
{
    let w = scheduled(message, from);
    add_each(all_rounds(before, &w), before)
}

fn start() -> State
    ensures { result ≡ initial }
{
    State {
        a: 0x6a09e667,
        b: 0xbb67ae85,
        c: 0x3c6ef372,
        d: 0xa54ff53a,
        e: 0x510e527f,
        f: 0x9b05688c,
        g: 0x1f83d9ab,
        h: 0x5be0cd19,
    }
}

fn hash(message: &[u8]) -> State
    requires { length message.now < 2 ^ 32 }
    ensures { result ≡ hash_of message.now }
{
    let mut s = start();
    for i in 0..blocks(message.len()) {
        s = take_block(s, message, 64 * i);
    }
    s
}

fn write_words(s: State, digest: &mut [u8])
    requires { length digest.old ≡ 32 }
    ensures { digest.new ≡ joined (words_of s) }
{
    let words = [s.a, s.b, s.c, s.d, s.e, s.f, s.g, s.h];
    for (i, word) in words.iter().enumerate() {
        digest[4 * i..4 * i + 4].copy_from_slice(&word.to_be_bytes());
    }
}

// The digest of a message, for whoever has it in a buffer.
pub fn digest_of(message: &[u8], digest: &mut [u8])
    requires { (length message.now < 2 ^ 32) × (length digest.old ≡ 32) }
    ensures { digest.new ≡ digest_of message.now }
{
    write_words(hash(message), digest);
}

// What a call for C answers: crates/sha256_c hands it on.
pub fn em73862_sha256(message: &[u8], digest: &mut [u8]) -> u8
    ensures { HashCall message.now digest.old result digest.new }
{
    if message.len() >= MESSAGE_BYTES {
        return MESSAGE_TOO_LONG;
    }
    if digest.len() != DIGEST_BYTES {
        return DIGEST_BUFFER_NOT_32_BYTES;
    }
    digest_of(message, digest);
    0
}
