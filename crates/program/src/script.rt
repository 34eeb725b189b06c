// A script on standard input, read in parts. Of a line that is not whole yet at most as many characters are kept as a frame has.
ghost use Rattle.std.specs.Prelude.{◌≡◌, ◌+◌, ◌<◌, ◌≤◌, length, take, MatchOption};
ghost use Rattle.text.specs.Script.{up_to};
ghost use Rattle.program.specs.Spans.{is_last};

use crate::part::Part;
use crate::streams::Failure;
use text::script::line_end;

// Whether what was kept is the last line, by what the read behind it gave.
fn is_last(got: Result<usize, Failure>) -> Result<bool, Failure>
    ensures { result ≡ is_last got }
{
    Ok(got? == 0)
}

// The first line of a part, without its LF, where it is whole.
pub fn whole_line(part: &[u8]) -> Option<&[u8]>
    ensures { MatchOption result (up_to part.now ≡ length part.now) (λ line. (up_to part.now < length part.now) × (line.now ≡ take (up_to part.now) part.now)) }
{
    let end = line_end(part, 0);
    if end == part.len() {
        return None;
    }
    Some(&part[..end])
}

// After so many characters of the part were told: the rest of it, or more of the script where none were. Whether what no LF ends is the last line.
// A line that is longer than a frame is bad however it goes on.
pub fn go_on(
    rt: &HostRuntime,
    longest: usize,
    part: &mut Part,
    used: usize,
) -> Result<bool, Failure>
    requires { part.old.from + used ≤ part.old.to }
{
    if used > 0 {
        part.use_up(used);
        Ok(false)
    } else if part.rest().len() > longest {
        Ok(true)
    } else {
        is_last(part.read_more(&mut rt.stdin()))
    }
}
