// A data record after others: 43 and 44, and its bytes taken into the work buffer.
ghost use Rattle.std.specs.Prelude.{◌≡◌, false, List, ◌∷◌, ℕ, ◌+◌, ◌<◌, leb, length};
ghost use Rattle.hex_reader.specs.Record.{bytes_of};
ghost use Rattle.hex_reader.specs.Reads.{Stands};
ghost use Rattle.hex_reader.specs.Given.{Given, some};
ghost use Rattle.hex_reader.specs.Work.{work_size, bit_of, Holds};
ghost use Rattle.hex_reader.specs.Takes.{record_of, Takes};

use crate::line::byte_at;
use crate::work::{is_given, put};
use numbers::Refusal;

fn is_past(size: usize, address: usize, count: usize) -> bool
    requires { (address < 65536) × (count < 256) }
    ensures { result ≡ some count (λ k. leb size (address + k)) }
{
    count != 0 && size < address + count
}

fn is_twice(work: &[u8], size: usize, address: usize, count: usize) -> bool
    requires { (length work.now ≡ work_size size) × ((k : ℕ) → k < count → address + k < size) }
    ensures { result ≡ some count (λ k. bit_of size work.now (address + k)) }
{
    for k in 0..count {
        if is_given(work, size, address + k) {
            return true;
        }
    }
    false
}

fn store(address: usize, digits: &[u8], size: usize, work: &mut [u8])
    requires stands { Stands address digits.now }
    requires work_len { (length work.old ≡ work_size size) × ((k : ℕ) → k < length (bytes_of digits.now) → address + k < size) × ((k : ℕ) → k < length (bytes_of digits.now) → bit_of size work.old (address + k) ≡ false) }
    ensures work_len_unchanged { length work.new ≡ length work.old }
    ensures holds { (ds : List Given) → Holds size work.old ds → Holds size work.new (record_of address digits.now ∷ ds) }
{
    for k in 0..digits.len() / 2 {
        put(work, size, address + k, byte_at(digits, 2 * k));
    }
}

pub fn take_data(address: usize, digits: &[u8], size: usize, work: &mut [u8]) -> Result<(), Refusal>
    requires { (Stands address digits.now) × (length work.old ≡ work_size size) }
    ensures { Takes size work.old work.new (record_of address digits.now) result }
{
    let count = digits.len() / 2;
    if is_past(size, address, count) {
        return Err(Refusal::Past1FFF);
    }
    if is_twice(work, size, address, count) {
        return Err(Refusal::GivenTwice);
    }
    store(address, digits, size, work);
    Ok(())
}
