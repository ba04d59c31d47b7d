// Text put into an output, piece after piece.
ghost use Rattle.std.specs.Prelude.{◌≡◌, [], ◌∷◌, ◌++◌, map, ◌+◌, ◌*◌, ◌≤◌, ◌<◌, length};
ghost use Rattle.listing.specs.Listing.{decimal, line};
ghost use Rattle.trace.specs.Inside.{written_of, append, end_of};

// Puts bytes at `at`, and answers the place after them. The output and the place stand side by side, and not in a struct: that is no plainer, since each
// function would have to say in a clause more that the struct lends the same bytes still.
fn put(bytes: &[u8], out: &mut [u8], at: usize) -> usize
    requires { at + length bytes.now ≤ length out.old }
    ensures out_after { written_of result out.new ≡ append bytes.now (written_of at out.old) }
    ensures value { result ≡ at + length bytes.now }
{
    let end = at + bytes.len();
    out[at..end].copy_from_slice(bytes);
    end
}

// Puts a number of two digits, and the byte that ends it.
fn two_digits(n: u64, end: u8, out: &mut [u8], at: usize) -> usize
    requires le_n { 10 ≤ n }
    requires n_bound { n < 100 }
    requires at_in_bounds { at + 21 ≤ length out.old }
    ensures out_after { written_of result out.new ≡ append (decimal n ++ end ∷ []) (written_of at out.old) }
    ensures upper_bound { result ≤ at + 21 }
{
    out[at] = b'0' + ((n / 10) as u8);
    out[at + 1] = b'0' + ((n % 10) as u8);
    out[at + 2] = end;
    at + 3
}

// Puts a number in decimal, and the byte that ends it.
pub fn number(n: u64, end: u8, out: &mut [u8], at: usize) -> usize
    requires { at + 21 ≤ length out.old }
    ensures out_after { written_of result out.new ≡ append (decimal n ++ end ∷ []) (written_of at out.old) }
    ensures upper_bound { result ≤ at + 21 }
{
    if n < 10 {
        out[at] = b'0' + (n as u8);
        out[at + 1] = end;
        return at + 2;
    }
    if n < 100 {
        return two_digits(n, end, out, at);
    }
    let mut digits = [0u8; 20];
    let count = io::decimal(n, &mut digits);
    let next = put(&digits[..count], out, at);
    out[next] = end;
    next + 1
}

// What stands after field i of n: a space, or the line's end.
fn end_of(i: usize, n: usize) -> u8
    requires { i < n }
    ensures { result ≡ end_of i n }
{
    if i + 1 < n { b' ' } else { b'\n' }
}

// Puts a line of numbers.
pub fn numbers(values: &[u64], out: &mut [u8], at: usize) -> usize
    requires { at + 21 * length values.now ≤ length out.old }
    ensures out_after { written_of result out.new ≡ append (line (map decimal values.now)) (written_of at out.old) }
    ensures upper_bound { result ≤ at + 21 * length values.now }
{
    let mut next = at;
    for (i, value) in values.iter().enumerate() {
        next = number(*value, end_of(i, values.len()), out, next);
    }
    next
}

// Puts a line of a word and numbers.
pub fn told(word: &[u8], values: &[u64], out: &mut [u8], at: usize) -> usize
    requires { at + (length word.now + (1 + 21 * length values.now)) ≤ length out.old }
    ensures out_after { written_of result out.new ≡ append (line (word.now ∷ map decimal values.now)) (written_of at out.old) }
    ensures upper_bound { result ≤ at + (length word.now + (1 + 21 * length values.now)) }
{
    let next = put(word, out, at);
    out[next] = end_of(0, values.len() + 1);
    numbers(values, out, next + 1)
}
