// A line of the script taken apart: words are what stands between blanks, a number is decimal, or hexadecimal where an h ends it.
ghost use Rattle.std.specs.Prelude.{◌<◌, ◌≤◌, length, IfSome, ◌≡◌, ℕ, [], ◌∷◌, ◌++◌, take, drop, unwrap_or};
ghost use Rattle.std.specs.List.{slice_get};
ghost use Rattle.sessions.specs.Words.{words};

// The first word of a line, and what stands after it; both are empty where there is none.
fn split_word(line: &[u8]) -> (&[u8], &[u8])
    ensures first { result.0.now ≡ unwrap_or (slice_get (words line.now) 0) [] }
    ensures after { words result.1.now ≡ drop 1 (words line.now) }
    ensures within { (length result.0.now ≤ length line.now) × (length result.1.now ≤ length line.now) }
{
    let start = line.iter().position(|b| *b != b' ').unwrap_or(line.len());
    let rest = &line[start..];
    let end = rest.iter().position(|b| *b == b' ').unwrap_or(rest.len());
    (&rest[..end], &rest[end..])
}

// Word k of a line, counted from 0; an empty one where there are fewer.
pub(crate) fn word(line: &[u8], k: usize) -> &[u8]
    ensures value { result.now ≡ unwrap_or (slice_get (words line.now) k) [] }
    ensures within { length result.now ≤ length line.now }
{
    let mut rest = line;
    for _ in 0..k {
        rest = split_word(rest).1;
    }
    split_word(rest).0
}

// What stands before the first such sign, and what after it.
pub(crate) fn split_once(text: &[u8], sign: u8) -> Option<(&[u8], &[u8])>
    ensures cut { IfSome result (λ parts. (at_cut : ℕ) × (text.now ≡ parts.0.now ++ (at_cut ∷ parts.1.now))) }
    ensures within { IfSome result (λ parts. (length parts.0.now ≤ length text.now) × (length parts.1.now ≤ length text.now)) }
{
    let mut parts = text.splitn(2, |b| *b == sign);
    Some((parts.next()?, parts.next()?))
}

// Without the blanks at its end; `trim_ascii_end` would cut tabs and line ends of other systems too.
pub(crate) fn trim_end(text: &[u8]) -> &[u8]
    ensures front { result.now ≡ take (length result.now) text.now }
    ensures within { length result.now ≤ length text.now }
{
    let end = text
        .iter()
        .rposition(|b| *b != b' ')
        .map_or(0, |last| last + 1);
    &text[..end]
}

// Hexadecimal digits are upper case, as in the papers: `to_digit` would read lower case too.
fn digit(b: u8) -> u32
    ensures { result < 16 }
{
    match b {
        b'0'..=b'9' => u32::from(b - b'0'),
        b'A'..=b'F' => u32::from(b - b'A') + 10,
        _ => 0,
    }
}

// One more digit. Numbers of a script stay far below the bound; a longer one keeps its first digits.
fn with_digit(n: u32, base: u32, b: u8) -> u32
    requires { base ≤ 16 }
    ensures { n < 268435456 → result < 268435456 }
{
    if n < 16777215 { n * base + digit(b) } else { n }
}

// What a word says as a number; 0 for a word that is none.
fn number(word: &[u8]) -> u32
    ensures { result < 268435456 }
{
    let (digits, base) = match word {
        [digits @ .., b'h'] => (digits, 16),
        _ => (word, 10),
    };
    digits.iter().fold(0, |n, b| with_digit(n, base, *b))
}

pub(crate) fn operand(line: &[u8], k: usize) -> u32
    ensures { result < 268435456 }
{
    number(word(line, k))
}
