// The display of a record as a picture.
#![tactic(auto)]

ghost use Rattle.std.specs.Prelude.{◌≡◌, ◌∷◌, [], ◌++◌, ◌+◌, ◌<◌, ◌≤◌, length};
ghost use Rattle.record.specs.Valid.{Valid};
ghost use Rattle.display.specs.Display.{is_lit};
ghost use Rattle.text_screen.specs.Screen.{sign_of, signs_of, lines_of, opening_of, screen_text};

use bits::bit_at;
use device::Device;
use display::display;
use record::Machine;
use text::Text;

const ROWS: usize = 8;

const DOTS: usize = 40;

#[derive(Clone, Copy, PartialEq, Eq)]
pub enum Form {
    Signs,
    Pbm,
}

fn sign(form: Form, on: bool) -> u8
    ensures { result ≡ sign_of form on }
{
    match (form, on) {
        (Form::Signs, true) => b'#',
        (Form::Signs, false) => b'.',
        (Form::Pbm, true) => b'1',
        (Form::Pbm, false) => b'0',
    }
}

// Whether dot s of row c is on, by the forty bytes of the display.
fn is_lit(bytes: &[u8], c: usize, s: usize) -> bool
    requires { (length bytes.now ≡ 40) × (c < 8) × (s < 40) }
    ensures { result ≡ is_lit bytes.now c s }
{
    bit_at(bytes[5 * c + s / 8], (s % 8) as u8)
}

fn line<const N: usize>(out: &mut Text<N>, form: Form, bytes: &[u8], c: usize)
    requires { (length bytes.now ≡ 40) × (c < 8) × (length out.old + 41 ≤ N) }
    ensures text { out.new ≡ out.old ++ (signs_of form (is_lit bytes.now c) 40 ++ (10 ∷ [])) }
    ensures size { length out.new ≡ length out.old + 41 }
{
    for s in 0..DOTS {
        out.put(sign(form, is_lit(bytes, c, s)));
    }
    out.put(b'\n');
}

fn lines<const N: usize>(out: &mut Text<N>, form: Form, bytes: &[u8])
    requires { (length bytes.now ≡ 40) × (length out.old + 328 ≤ N) }
    ensures { out.new ≡ out.old ++ lines_of form (is_lit bytes.now) 8 }
{
    for c in 0..ROWS {
        line(out, form, bytes, c);
    }
}

fn opening<const N: usize>(out: &mut Text<N>, form: Form)
    requires { length out.old + 8 ≤ N }
    ensures text { out.new ≡ out.old ++ opening_of form }
    ensures upper_bound { length out.new ≤ length out.old + 8 }
{
    match form {
        Form::Signs => {}
        Form::Pbm => out.put_text(b"P1\n40 8\n"),
    }
}

// The picture of a valid record, which display does not refuse: at most 336 characters.
pub fn screen<const N: usize>(out: &mut Text<N>, d: Device, m: Machine, form: Form)
    requires { (Valid d m) × (length out.old + 336 ≤ N) }
    ensures { out.new ≡ out.old ++ screen_text form m }
{
    let mut bytes = [0u8; 40];
    let _ = display(d, m, &mut bytes);
    opening(out, form);
    lines(out, form, &bytes)
}
