// The lines of a text of Intel HEX: where one ends, and where the next begins.
ghost use Rattle.std.specs.Prelude.{◌≡◌, ◌<◌, length};
ghost use Rattle.hex_reader.specs.Lines.{without_cr, LineAt};

use text::script::line_end;

// A line without its ending, and the place after that.
#[derive(Clone, Copy)]
pub struct LineOf<'a> {
    pub line: &'a [u8],
    pub next: usize,
}

// The characters before an LF that are the line's: all but a CR at their end.
pub fn without_cr(characters: &[u8]) -> &[u8]
    ensures { result.now ≡ without_cr characters.now }
{
    match characters {
        [line @ .., b'\r'] => line,
        _ => characters,
    }
}

pub fn line_at(text: &[u8], at: usize) -> LineOf<'_>
    requires { at < length text.now }
    ensures { LineAt text.now at result }
{
    let lf = line_end(text, at);
    let characters = &text[at..lf];
    if lf == text.len() {
        return LineOf {
            line: characters,
            next: lf,
        };
    }
    LineOf {
        line: without_cr(characters),
        next: lf + 1,
    }
}
