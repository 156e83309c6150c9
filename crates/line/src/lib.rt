// The one line of document 01 about an input, as text. The line's end is left to who prints it.
#![tactic(auto)]

ghost use Rattle.std.specs.Prelude.{◌≡◌, ◌∷◌, ◌++◌, ◌+◌, ◌≤◌, ◌<◌, length};
ghost use Rattle.format.specs.Line.{decimal, space, line_room, container_line, line_of};

use arrayvec::ArrayString;
use itoa::Buffer;
use streams::input::LONGEST;

// The cells of the table that a container is loaded with.
const CELLS: usize = 2_048;

// Room for every line and its end: a number takes at most 20 digits and a space, and there are three and one for each task.
pub const LINE: usize = 1_408;

// n in decimal behind the text.
fn push_number(text: &mut ArrayString<LINE>, n: u64)
    requires { length text.old.bytes + 20 ≤ line_room }
    ensures bytes { text.new.bytes ≡ text.old.bytes ++ decimal n }
    ensures upper_bound { length text.new.bytes ≤ length text.old.bytes + 20 }
{
    text.push_str(Buffer::new().format(n));
}

// The same behind a space.
fn push_spaced(text: &mut ArrayString<LINE>, n: u64)
    requires { length text.old.bytes + 21 ≤ line_room }
    ensures bytes { text.new.bytes ≡ text.old.bytes ++ (space ∷ decimal n) }
    ensures upper_bound { length text.new.bytes ≤ length text.old.bytes + 21 }
{
    text.push(' ');
    push_number(text, n);
}

// The line about a container.
fn container_line(image: &[u8]) -> ArrayString<LINE>
    ensures bytes { result.bytes ≡ container_line image.now }
    ensures upper_bound { length result.bytes < line_room }
{
    let mut table = [0i64; CELLS];
    let answer = container::load(image, &mut table);
    let refusal = answer.refusal;
    let mut text = ArrayString::new();
    push_number(&mut text, u64::from(refusal));
    if refusal != 0 {
        return text;
    }
    let l = answer.loaded;
    let lists = answer.lists;
    push_spaced(&mut text, u64::from(l.head.n));
    push_spaced(&mut text, u64::from(l.maxchunks));
    for task in 1..=u64::from(l.head.n) {
        // None is refused of a container that loads; a refused total has no bytes.
        let total = container::total(l, &lists, image, &table, task).unwrap_or(0);
        push_spaced(&mut text, total);
    }
    text
}

// The line about an input. There is room for the line's end behind it.
pub fn line(input: &[u8]) -> ArrayString<LINE>
    ensures bytes { result.bytes ≡ line_of input.now }
    ensures upper_bound { length result.bytes < line_room }
{
    if LONGEST < input.len() {
        let mut text = ArrayString::new();
        text.push_str("long");
        return text;
    }
    container_line(input)
}
