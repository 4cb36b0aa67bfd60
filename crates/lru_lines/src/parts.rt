//! The lines of an input, and the words of a line, one after another, without memory.
ghost use Rattle.std.specs.Prelude.{◌≡◌, ◌<◌, ◌∷◌, length, option_map};
ghost use Rattle.lru_lines.specs.Lines.{parts_of, parts_behind, lines_of, now_of};

/// The part of a text before the first byte that is this one, and the text behind that byte, if it is there.
pub fn cut(text: &[u8], separator: u8) -> (&[u8], Option<&[u8]>)
    ensures { parts_of separator text.now ≡ result.0.now ∷ parts_behind separator (option_map now_of result.1) }
{
    for (at, byte) in text.iter().enumerate() {
        if *byte == separator {
            return (&text[..at], Some(&text[at + 1..]));
        }
    }
    (text, None)
}

/// The first line of an input that is not empty, and the input behind it. A line ends at byte 10, and the last one may
/// lack it.
pub fn first_line(input: &[u8]) -> (&[u8], &[u8])
    requires { 0 < length input.now }
    ensures lines { lines_of input.now ≡ result.0.now ∷ lines_of result.1.now }
    ensures shorter { length result.1.now < length input.now }
{
    for (at, byte) in input.iter().enumerate() {
        if *byte == b'\n' {
            return (&input[..at], &input[at + 1..]);
        }
    }
    (input, &input[input.len()..])
}
