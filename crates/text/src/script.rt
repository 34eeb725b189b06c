// A script's lines.
ghost use Rattle.std.specs.Prelude.{◌≡◌, ◌+◌, ◌≤◌, length, drop, position};
ghost use Rattle.text.specs.Script.{is_lf, up_to};

fn first_lf(rest: &[u8]) -> Option<usize>
    ensures { result ≡ position is_lf rest.now }
{
    rest.iter().position(|c| *c == b'\n')
}

// Where the line that begins at a place ends: at its LF, or at the end of what is there.
pub fn line_end(script: &[u8], from: usize) -> usize
    requires { from ≤ length script.now }
    ensures value { result ≡ from + up_to (drop from script.now) }
    ensures upper_bound { result ≤ length script.now }
{
    match first_lf(&script[from..]) {
        Some(i) => from + i,
        None => script.len(),
    }
}
