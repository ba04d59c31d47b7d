// Runs of little-endian numbers in lent bytes of any number and content.
#![tactic(auto)]

ghost use Rattle.std.specs.Prelude.{◌≡◌, ◌*◌, ◌≤◌, length, map};
ghost use Rattle.std.proofs.lemmas.List.Edits.{sets};
ghost use Rattle.runs.specs.Runs.{bytes_of, numbers as numbers_in, put_run, read_run};

use endian::Number;

// As many numbers as are asked for, from byte `at` on; none is read where fewer are left.
pub fn read<N: Number>(bytes: &[u8], at: usize, numbers: &mut [N])
    ensures { map N.number numbers.new ≡ read_run at N.WIDTH bytes.now (map N.number numbers.old) }
{
    if at <= bytes.len() && numbers.len() <= (bytes.len() - at) / N::WIDTH {
        let end = at + N::WIDTH * numbers.len();
        load(&bytes[at..end], numbers);
    }
}

// From the first byte on, where so many are there.
fn load<N: Number>(bytes: &[u8], numbers: &mut [N])
    requires { N.WIDTH * length numbers.old ≤ length bytes.now }
    ensures { map N.number numbers.new ≡ numbers_in N.WIDTH (length numbers.old) bytes.now }
{
    for (i, number) in numbers.iter_mut().enumerate() {
        *number = N::read(&bytes[N::WIDTH * i..N::WIDTH * (i + 1)]);
    }
}

// All of them put, from byte `at` on; none is where they would reach past the end.
pub fn put<N: Number>(bytes: &mut [u8], at: usize, numbers: &[N])
    ensures { bytes.new ≡ put_run at N.WIDTH (map N.number numbers.now) bytes.old }
{
    if at <= bytes.len() && numbers.len() <= (bytes.len() - at) / N::WIDTH {
        let end = at + N::WIDTH * numbers.len();
        store(&mut bytes[at..end], numbers);
    }
}

// From the first byte on, where there is room.
fn store<N: Number>(bytes: &mut [u8], numbers: &[N])
    requires { N.WIDTH * length numbers.now ≤ length bytes.old }
    ensures { bytes.new ≡ sets bytes.old 0 (bytes_of N.WIDTH (map N.number numbers.now)) }
{
    for (i, number) in numbers.iter().enumerate() {
        number.write(&mut bytes[N::WIDTH * i..N::WIDTH * (i + 1)]);
    }
}
