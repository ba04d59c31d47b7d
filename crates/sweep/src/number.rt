// How many valid lines sets have in some ways.
ghost use Rattle.std.specs.Prelude.{◌≡◌, ℕ, ◌%◌, ◌^◌, ◌&&◌};
ghost use Rattle.waymap.specs.Bits.{bit, count};
ghost use Rattle.sweep.specs.Number.{lines_among};

// Those of one set.
pub fn lines_in(valid: u16, map: u16) -> usize
    ensures { result ≡ count 16 (λ (w : ℕ). bit map w && bit valid w) }
{
    waymap::count_ways(map & valid)
}

// Those of all sets, whose valid maps are lent, in 64 bits.
pub fn lines_among(valid: &[u16], map: u16) -> usize
    ensures { result ≡ lines_among (bit map) valid.now % 2 ^ 64 }
{
    let mut lines = 0usize;
    for held in valid {
        lines = lines.wrapping_add(lines_in(*held, map));
    }
    lines
}
