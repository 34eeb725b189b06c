// A line of the listing, and the listing, of an image seen through a window.
ghost use Rattle.std.specs.Prelude.{◌≡◌, ◌++◌, ◌+◌, ◌*◌, ◌%◌, ◌<◌, ◌≤◌, length, take, IfOk};
ghost use Rattle.numbers.specs.Numbered.{refusal_number};
ghost use Rattle.numbers.specs.Sizes.{addresses};
ghost use Rattle.device.specs.Device.{rom_of};
ghost use Rattle.sheet.specs.Reading.{read_at, fetched};
ghost use Rattle.text.specs.Digits.{padded};
ghost use Rattle.notation.specs.Notation.{row_text};
ghost use Rattle.text_lister.specs.Listing.{spaced, row_columns, refused_columns, columns_of, line_of, decoded_of, sweep_next, swept_lines};

use device::image::Window;
use notation::row;
use numbers::{ADDRESSES, Refusal};
use reader::{Decoded, read_at};
use sheet::{Insn, NoRow};
use text::Text;

// The row at an address, with its bytes and its cycles.
pub fn decoded_at(window: Window, at: u16) -> Result<Decoded, NoRow>
    requires { at < addresses }
    ensures value { result ≡ decoded_of (read_at (rom_of window.entry.bytes.now window.entry.p3) at) }
    ensures upper_bound { IfOk result (λ row. (row.bytes ≤ 3) × (at + row.bytes ≤ addresses) × (row.cycles ≤ 3)) }
{
    let insn = read_at(window, at)?;
    let cost = sheet::timing(window.byte(at));
    Ok(Decoded {
        insn,
        bytes: cost.bytes,
        cycles: cost.cycles,
    })
}

// The bytes of a row, with a blank between two.
fn bytes<const N: usize>(out: &mut Text<N>, window: Window, at: u16, n: u8)
    requires { (n ≤ 3) × (at + n ≤ addresses) × (length out.old + 8 ≤ N) }
    ensures text { out.new ≡ out.old ++ spaced (take n (fetched (rom_of window.entry.bytes.now window.entry.p3) at)) }
    ensures upper_bound { length out.new ≤ length out.old + 8 }
{
    for i in 0..n {
        if i > 0 {
            out.put(b' ');
        }
        let byte = window.byte(at + u16::from(i));
        out.number(16, 2, u32::from(byte));
    }
}

fn bytes_column<const N: usize>(out: &mut Text<N>, window: Window, at: u16, n: u8)
    requires { (n ≤ 3) × (at + n ≤ addresses) × (length out.old + 8 ≤ N) }
    ensures text { out.new ≡ out.old ++ padded 8 (spaced (take n (fetched (rom_of window.entry.bytes.now window.entry.p3) at))) }
    ensures size { length out.new ≡ length out.old + 8 }
{
    let end = out.len() + 8;
    bytes(out, window, at, n);
    out.fill_to(end);
}

fn row_column<const N: usize>(out: &mut Text<N>, at: u16, insn: Insn)
    requires { length out.old + 24 ≤ N }
    ensures text { out.new ≡ out.old ++ padded 16 (row_text at insn) }
    ensures size { length out.new ≡ length out.old + 16 }
{
    let end = out.len() + 16;
    row(out, at, insn);
    out.fill_to(end);
}

fn row_columns<const N: usize>(out: &mut Text<N>, window: Window, at: u16, row: Decoded)
    requires { (row.bytes ≤ 3) × (at + row.bytes ≤ addresses) × (length out.old + 34 ≤ N) }
    ensures text { out.new ≡ out.old ++ row_columns (rom_of window.entry.bytes.now window.entry.p3) at row.insn row.bytes row.cycles }
    ensures size { length out.new ≡ length out.old + 30 }
{
    bytes_column(out, window, at, row.bytes);
    out.blanks(2);
    row_column(out, at, row.insn);
    out.put(b' ');
    out.number(10, 1, u32::from(row.bytes));
    out.put(b' ');
    out.number(10, 1, u32::from(row.cycles));
}

fn refused_columns<const N: usize>(out: &mut Text<N>, window: Window, at: u16, refusal: Refusal)
    requires { (at < addresses) × (length out.old + 34 ≤ N) }
    ensures text { out.new ≡ out.old ++ refused_columns (rom_of window.entry.bytes.now window.entry.p3 at) (refusal_number refusal) }
    ensures size { length out.new ≡ length out.old + 20 }
{
    bytes_column(out, window, at, 1);
    out.blanks(2);
    out.refused(refusal);
}

// A line without its end, for a program that has more to say on it: at most 36 characters, with room for 40.
pub fn columns<const N: usize>(out: &mut Text<N>, window: Window, at: u16)
    requires { (at < addresses) × (length out.old + 40 ≤ N) }
    ensures text { out.new ≡ out.old ++ columns_of (rom_of window.entry.bytes.now window.entry.p3) at }
    ensures upper_bound { length out.new ≤ length out.old + 36 }
{
    out.number(16, 4, u32::from(at));
    out.blanks(2);
    match decoded_at(window, at) {
        Ok(row) => row_columns(out, window, at, row),
        Err(why) => refused_columns(out, window, at, why.into()),
    }
}

// At most 37 characters.
#[tactic(auto, unfolding(crate::specs::Listing::line_of))]
pub fn line<const N: usize>(out: &mut Text<N>, window: Window, at: u16)
    requires { (at < addresses) × (length out.old + 40 ≤ N) }
    ensures text { out.new ≡ out.old ++ line_of (rom_of window.entry.bytes.now window.entry.p3) at }
    ensures upper_bound { length out.new ≤ length out.old + 37 }
{
    columns(out, window, at);
    out.put(b'\n');
}

// Where the sweep goes on after the line at an address.
pub fn after(window: Window, at: u16) -> u16
    requires { at < addresses }
    ensures { result ≡ sweep_next at (read_at (rom_of window.entry.bytes.now window.entry.p3) at) }
{
    match decoded_at(window, at) {
        Ok(row) => at + u16::from(row.bytes),
        Err(_) => at + 1,
    }
}

// The lines from an address on, as many as asked or to the end of the image.
pub fn listing<const N: usize>(out: &mut Text<N>, window: Window, from: u16, count: u32)
    requires { length out.old + 37 * count + 3 ≤ N }
    ensures { out.new ≡ out.old ++ swept_lines (rom_of window.entry.bytes.now window.entry.p3) from count }
{
    let mut at = from;
    for done in 0..count {
        if at >= ADDRESSES {
            return;
        }
        line(out, window, at);
        at = after(window, at);
    }
}
