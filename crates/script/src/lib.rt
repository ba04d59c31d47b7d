// Scripts: lines of a word and up to four numbers, for bytes of any content and number.
#![tactic(auto)]

ghost use Rattle.std.specs.Prelude.{◌≡◌, ◌==◌, ◌≤◌, drop, length, position};
ghost use Rattle.script.specs.Script.{behind_first, line_after, with_byte, number_at, numbers_of};

// A number with one digit more. A byte that is no digit leaves it, and so does a digit that there is no room for.
fn joined(n: u64, byte: u8) -> u64
    ensures { result ≡ with_byte n byte }
{
    match byte {
        b'0'..=b'9' if n < u64::MAX / 10 => 10 * n + u64::from(byte - b'0'),
        _ => n,
    }
}

// The bytes from a place on; none behind the end.
fn rest(bytes: &[u8], place: usize) -> &[u8]
    ensures { result.now ≡ drop place bytes.now }
{
    bytes.get(place..).unwrap_or(&[])
}

// The number at a place, up to the next space.
fn number_at(line: &[u8], place: usize) -> u64
    ensures { result ≡ number_at line.now place }
{
    let mut n = 0;
    for byte in rest(line, place) {
        if *byte == b' ' {
            break;
        }
        n = joined(n, *byte);
    }
    n
}

// The place of the first of such bytes.
fn first(bytes: &[u8], stop: u8) -> Option<usize>
    ensures { result ≡ position (λ b. b == stop) bytes.now }
{
    bytes.iter().position(|byte| *byte == stop)
}

// The place behind the first of such bytes from a place on, or the length.
fn behind(bytes: &[u8], place: usize, stop: u8) -> usize
    ensures { result ≡ behind_first stop bytes.now place }
{
    match first(rest(bytes, place), stop) {
        Some(passed) => place + passed + 1,
        None => bytes.len(),
    }
}

// The numbers of a line, each behind a space. The first is the word's, which has none if it has no digit.
pub fn numbers_of(line: &[u8]) -> [u64; 5]
    ensures { result ≡ numbers_of line.now }
{
    let mut numbers = [0; 5];
    let mut place = 0;
    for number in numbers.iter_mut() {
        *number = number_at(line, place);
        place = behind(line, place, b' ');
    }
    numbers
}

// Where the line behind the one at a place begins.
pub fn line_after(script: &[u8], from: usize) -> usize
    ensures value { result ≡ line_after script.now from }
    ensures upper_bound { result ≤ length script.now }
{
    behind(script, from, b'\n')
}
