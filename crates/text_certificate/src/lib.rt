// The lines of a certificate, as characters at the end of a text.
#![tactic(auto)]

ghost use Rattle.std.specs.Prelude.{◌≡◌, ◌++◌, ◌+◌, ◌*◌, ◌%◌, ◌<◌, ◌≤◌, length};
ghost use Rattle.numbers.specs.Sizes.{addresses};
ghost use Rattle.device.specs.Device.{rom_of};
ghost use Rattle.text_certificate.specs.Certificate.{lower_digit, digest_text, row_at, certified_line};

use device::image::Window;
use reader::read_at;
use sheet_text::sheet_text;
use text::Text;
use text_bounder::path_line;

const LOWER: [u8; 16] = *b"0123456789abcdef";

#[tactic(auto, unfolding(crate::specs::Certificate::lower_digit))]
fn lower_digit(d: u8) -> u8
    requires { d < 16 }
    ensures { result ≡ lower_digit d }
{
    LOWER[d as usize]
}

// A digest, two digits a byte.
pub fn digest<const N: usize>(out: &mut Text<N>, bytes: &[u8])
    requires { length out.old + 2 * length bytes.now ≤ N }
    ensures text { out.new ≡ out.old ++ digest_text bytes.now }
    ensures size { length out.new ≡ length out.old + 2 * length bytes.now }
{
    for b in bytes {
        out.put(lower_digit(*b / 16));
        out.put(lower_digit(*b % 16));
    }
}

// The row that is read at an address, 0 where there is none: the sheet has no line and no section for 0.
#[tactic(auto, unfolding(crate::specs::Certificate::row_at))]
pub fn row_at(window: Window, at: u16) -> u8
    requires { at < addresses }
    ensures { result ≡ row_at (rom_of window.entry.bytes.now window.entry.p3) at }
{
    match read_at(window, at) {
        Ok(insn) => insn.row,
        Err(_) => 0,
    }
}

// A row of a path with the sheet's line by which it was read: at most 178 characters.
pub fn certified_line<const N: usize>(out: &mut Text<N>, window: Window, at: u16, counted: u32)
    requires { (at < addresses) × (counted < 100000) × (length out.old + 178 ≤ N) }
    ensures text { out.new ≡ out.old ++ certified_line (rom_of window.entry.bytes.now window.entry.p3) at counted }
    ensures upper_bound { length out.new ≤ length out.old + 178 }
{
    path_line(out, window, at, counted);
    out.blanks(6);
    out.put_text(sheet_text(row_at(window, at)));
    out.put(b'\n');
}
